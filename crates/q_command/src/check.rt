//! What `check` prints, and the notes that it writes.

ghost use Rattle.std.specs.Prelude.{◌≡◌, ◌≢◌, ◌++◌, [], false, IfOk, IfErr, OnOk, string_bytes, if◌then◌else◌};
ghost use Rattle.bq_explain.specs.Known.{states_text};
ghost use Rattle.q_command.specs.Perform.{Accepts, IsUnaccepted, SavesNotes, acceptance};

use crate::sources::certified;
use crate::words::ProgramForm;
use bq_check::{Certified, Notes};
use bq_explain::states;
use bq_state::Bounds;
use q_outside::{FileFault, Files};
use q_sim::Printed;
use q_told::Refusal;
use std::alloc::{AllocError, Global};

/// What `check` is asked of the program in a file.
#[derive(Clone, Copy)]
pub struct Check<'a> {
    /// What the file holds.
    pub form: ProgramForm,
    /// How many bytes a record may have.
    pub lengths: Bounds,
    /// Whether what is known at each unit is to be told.
    pub states: bool,
    /// The name of the file to which the notes are to be written, if they are.
    pub notes: Option<&'a str>,
}

/// Writes what is known at each unit of an accepted program, where that is asked for.
fn write_states(
    alloc: Global,
    certified: &Certified,
    is_asked: bool,
    lines: &mut String,
) -> Result<(), AllocError>
    ensures { OnOk result (string_bytes lines.new ≡ string_bytes lines.old ++ (if is_asked then states_text certified.now.text certified.now.notes else [])) }
{
    if !is_asked {
        return Ok(());
    }
    let known = states(alloc, certified.text(), certified.notes())?;
    lines.push_str(known.as_str())
}

/// What is told of an accepted program.
fn told(alloc: Global, certified: &Certified, with_states: bool) -> Result<String, AllocError>
    ensures { IfOk result (λ lines. string_bytes lines ≡ acceptance with_states certified.now.text certified.now.notes certified.now.longest) }
{
    let longest = certified.longest();
    let mut lines = format!(in alloc; "accepted longest {longest}\n")?;
    write_states(alloc, certified, with_states, &mut lines)?;
    Ok(lines)
}

/// Writes notes to the file of this name, and tells after the lines where that fails: whether it failed.
fn save_as<F: Files>(
    alloc: Global,
    name: &str,
    notes: &Notes,
    lines: &mut String,
    files: &mut F,
) -> Result<bool, AllocError>
    ensures saved { IfOk result (λ unsaved. SavesNotes F.write_gives (Some name.entry) notes.now (string_bytes lines.old) files.old (string_bytes lines.new) unsaved files.new) }
{
    let bytes = notes.bytes(alloc)?;
    match files.write(name, bytes.as_slice()) {
        Ok(()) => Ok(false),
        Err(FileFault::Failed) => {
            let refusal = Refusal::FileFailed;
            writeln!(lines, "{refusal}")?;
            Ok(true)
        }
        Err(FileFault::OutOfMemory) => Err(AllocError),
    }
}

/// The same, where they are to be written.
fn save<F: Files>(
    alloc: Global,
    name: Option<&str>,
    notes: &Notes,
    lines: &mut String,
    files: &mut F,
) -> Result<bool, AllocError>
    ensures saved { IfOk result (λ unsaved. SavesNotes F.write_gives name.entry notes.now (string_bytes lines.old) files.old (string_bytes lines.new) unsaved files.new) }
{
    match name {
        Some(name) => save_as(alloc, name, notes, lines, files),
        None => Ok(false),
    }
}

/// What `check` prints of the program that these bytes spell, whose notes are written where that is asked for.
///
/// Refused as [`certified`]; where that is so nothing is written. 99 OutOfMemory may come later.
pub fn checked<F: Files>(
    alloc: Global,
    check: &Check<'_>,
    source: &[u8],
    files: &mut F,
) -> Result<Printed, Refusal>
    ensures accepted { IfOk result (λ p. Accepts F.write_gives check.now source.now files.old (string_bytes p.lines) p.unsaved files.new) }
    ensures lines { IfOk result (λ p. p.refused ≡ false) }
    ensures refused { IfErr result (IsUnaccepted check.now.form check.now.lengths source.now) }
    ensures unbegun { IfErr result (λ r. r ≢ Refusal.OutOfMemory → files.new ≡ files.old) }
{
    let certified = certified(alloc, check.form, source, check.lengths)?;
    let mut lines = told(alloc, &certified, check.states)?;
    let unsaved = save(alloc, check.notes, certified.notes(), &mut lines, files)?;
    Ok(Printed {
        lines,
        unsaved,
        refused: false,
        faults: Vec::new(alloc),
    })
}
