//! Programs of files, and their certificates.

ghost use Rattle.std.specs.Prelude.{◌≡◌, IfOk, IfErr, IsUtf8};
ghost use Rattle.bq_flow.specs.Paths.{IsLongest};
ghost use Rattle.bq_sound.specs.Passes.{Passes};
ghost use Rattle.bq_verify.specs.Least.{AreLeast};
ghost use Rattle.q_command.specs.Perform.{IsUnaccepted, IsUnspelled, Spells};

use crate::words::ProgramForm;
use bq_asm::assemble;
use bq_check::Certified;
use bq_insn::{Text, decode};
use bq_state::Bounds;
use q_told::{Refusal, certified_text};
use std::alloc::Global;
use std::str;

/// The text of a file.
///
/// The one refusal is 87 FileFailed, where the bytes are not UTF-8.
pub fn utf8(bytes: &[u8]) -> Result<&str, Refusal>
    ensures same { IfOk result (λ text. (text.now ≡ bytes.now) × IsUtf8 bytes.now) }
    ensures refused { IfErr result (λ e. (e ≡ Refusal.FileFailed) × ¬ (IsUtf8 bytes.now)) }
{
    str::from_utf8(bytes).map_err(|_| Refusal::FileFailed)
}

/// The program that assembler text spells.
fn assembled(alloc: Global, source: &[u8]) -> Result<Text, Refusal>
    ensures spelled { IfOk result (Spells ProgramForm.Text source.now) }
    ensures refused { IfErr result (IsUnspelled ProgramForm.Text source.now) }
{
    let source = utf8(source)?;
    Ok(assemble(alloc, source)?)
}

/// The program of these bytes.
fn decoded(alloc: Global, source: &[u8]) -> Result<Text, Refusal>
    ensures spelled { IfOk result (Spells ProgramForm.Bytes source.now) }
    ensures refused { IfErr result (IsUnspelled ProgramForm.Bytes source.now) }
{
    Ok(decode(alloc, source)?)
}

/// The program that a file of this form spells.
///
/// Refused are, of assembler text, 87 FileFailed, where it is not UTF-8, and what the assembler refuses (9, 10, 1, 2);
/// and of bytes what decoding refuses (1 to 8).
pub fn program(alloc: Global, form: ProgramForm, source: &[u8]) -> Result<Text, Refusal>
    ensures spelled { IfOk result (Spells form source.now) }
    ensures refused { IfErr result (IsUnspelled form source.now) }
{
    match form {
        ProgramForm::Text => assembled(alloc, source),
        ProgramForm::Bytes => decoded(alloc, source),
    }
}

/// The program that a file of this form spells, with its certificate for records of these lengths and the verifier's
/// notes. Refused as [`program`], and then as [`certified_text`].
#[tactic(auto, using(crate::proofs::Programs::unspelled, crate::proofs::Programs::uncertified))]
pub fn certified(
    alloc: Global,
    form: ProgramForm,
    source: &[u8],
    lengths: Bounds,
) -> Result<Certified, Refusal>
    ensures spelled { IfOk result (λ certified. Spells form source.now certified.text) }
    ensures lengths { IfOk result (λ certified. certified.lengths ≡ lengths) }
    ensures passes { IfOk result (λ certified. Passes lengths certified.text certified.notes) }
    ensures least { IfOk result (λ certified. AreLeast lengths certified.text certified.notes) }
    ensures longest { IfOk result (λ certified. IsLongest certified.text certified.longest) }
    ensures refused { IfErr result (IsUnaccepted form lengths source.now) }
{
    let text = program(alloc, form, source)?;
    let certified = certified_text(alloc, text, lengths)?;
    let _notes = certified.notes();
    let _longest = certified.longest();
    Ok(certified)
}
