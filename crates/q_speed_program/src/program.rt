//! Programs from bytes.

ghost use Rattle.std.specs.Prelude.{◌≡◌, IfSome};
ghost use Rattle.bq_meaning.specs.Place.{record_length};
ghost use Rattle.bq_range.specs.Interval.{IsIn};
ghost use Rattle.bq_state.specs.Kinds.{view_lengths};

use bq_asm::assemble;
use bq_check::{Certified, check_within};
use bq_insn::{Text, decode};
use bq_state::Bounds;
use bq_verify::verify_within;
use std::alloc::Global;
use std::str;

/// The text of a source.
pub fn assembled(alloc: Global, source: &[u8]) -> Option<Text> {
    let source = str::from_utf8(source).ok()?;
    assemble(alloc, source).ok()
}

/// The certificate of a program for records of 64 bytes.
pub fn certified(alloc: Global, program: &[u8]) -> Option<Certified>
    ensures lengths { IfSome result (λ certified. certified.lengths ≡ view_lengths) }
    ensures among { IfSome result (λ certified. IsIn record_length certified.lengths) }
{
    let text = decode(alloc, program).ok()?;
    let notes = verify_within(alloc, &text, Bounds::of_views()).ok()?;
    check_within(alloc, text, notes, Bounds::of_views()).ok()
}
