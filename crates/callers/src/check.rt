//! A caller of `bq_check`.

ghost use Rattle.std.specs.Prelude.{◌≡◌, ℕ, IfOk};
ghost use Rattle.bq_range.specs.Interval.{IsIn};
ghost use Rattle.bq_sound.specs.Safe.{IsSafe};
ghost use Rattle.bq_state.specs.Kinds.{all_lengths};

use bq_check::{Certified, CheckFault, Notes, check};
use bq_insn::Text;
use std::alloc::Global;

/// A program out of a text and notes that nobody needs to trust: it ends over each record, within its longest path and
/// with no fault.
pub fn safe_program(alloc: Global, text: Text, notes: Notes) -> Result<Certified, CheckFault>
    ensures text { IfOk result (λ program. program.text ≡ text) }
    ensures safe { IfOk result (λ program. (len : ℕ) → IsIn len all_lengths → IsSafe len text program.longest) }
{
    let program = check(alloc, text, notes)?;
    program.is_safe();
    Ok(program)
}
