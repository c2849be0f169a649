//! A caller of `bq_verify`.

ghost use Rattle.std.specs.Prelude.{IfOk, MatchOption};
ghost use Rattle.bq_state.specs.Kinds.{all_lengths};
ghost use Rattle.bq_sound.specs.Passes.{Passes};
ghost use Rattle.bq_verify.specs.Least.{NonePass};

use bq_check::{CheckFault, Notes};
use bq_insn::Text;
use bq_verify::verify;
use std::alloc::{AllocError, Global};

/// Notes with which a text passes the checker, for records of all lengths; none where no notes do.
pub fn notes_if_any(alloc: Global, text: &Text) -> Result<Option<Notes>, AllocError>
    ensures { IfOk result (λ found.
        MatchOption found (NonePass all_lengths text.now) (Passes all_lengths text.now)) }
{
    match verify(alloc, text) {
        Ok(notes) => Ok(Some(notes)),
        Err(CheckFault::OutOfMemory) => Err(AllocError),
        Err(_) => Ok(None),
    }
}
