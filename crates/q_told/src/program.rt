//! Programs with their certificates.

ghost use Rattle.std.specs.Prelude.{◌≡◌, IfOk, IfErr};
ghost use Rattle.bq_verify.specs.Least.{AreLeast};
ghost use Rattle.q_told.specs.Programs.{IsProgram, IsRefusal, IsUncertified};

use crate::refusal::Refusal;
use bq_check::{Certified, check_within};
use bq_insn::{Text, decode};
use bq_state::Bounds;
use bq_verify::verify_within;
use q_book::record_lengths;
use q_table::Program;
use sc_msg::Version;
use std::alloc::Global;

/// The certificate of a text for records of these lengths, with the notes that the verifier finds. Refused is what the
/// verifier refuses, or 99.
pub fn certified_text(alloc: Global, text: Text, lengths: Bounds) -> Result<Certified, Refusal>
    ensures same { IfOk result (λ certified. (certified.text ≡ text) × (certified.lengths ≡ lengths)) }
    ensures least { IfOk result (λ certified. AreLeast lengths text certified.notes) }
    ensures refused { IfErr result (IsUncertified lengths text) }
{
    let notes = verify_within(alloc, &text, lengths)?;
    Ok(check_within(alloc, text, notes, lengths)?)
}

/// The program of these bytes, with its certificate for the records of a new cluster's books, of 16 to 128 bytes.
/// Refused is what decoding and then verifying refuse, or 99.
pub fn certified_code(alloc: Global, code: &[u8]) -> Result<Program, Refusal>
    ensures program { IfOk result (IsProgram code.now) }
    ensures refused { IfErr result (IsRefusal code.now) }
{
    let text = decode(alloc, code)?;
    let certified = certified_text(alloc, text, record_lengths(Version::Second))?;
    Ok(Program::new(alloc, certified)?)
}
