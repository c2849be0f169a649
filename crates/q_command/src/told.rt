//! What is told of a command besides what it answers.

use crate::advising::advice;
use crate::answer::Answer;
use crate::line::text_of;
use crate::refused_command::RefusedCommand;
use crate::words::FileCommand;
use q_told::{RefusedLine, write_refused_line};
use std::alloc::{AllocError, Global};
use std::io::Write;

/// Writes a text to the notes. Nothing comes of it where there is no memory for the text, or where the notes take none.
fn tell<N: Write>(text: Result<String, AllocError>, notes: &mut N) {
    if let Ok(text) = text {
        let _ = notes.write_all(text.as_bytes());
    }
}

/// Writes what explains a refusal, if something does.
pub(crate) fn tell_refusal<N: Write>(
    alloc: Global,
    line: &FileCommand<'_>,
    refused: &RefusedCommand<'_>,
    notes: &mut N,
) {
    if let Ok(Some(text)) = advice(alloc, line, refused) {
        tell(Ok(text), notes);
    }
}

/// A line of a script that was refused, its refusal, and what would satisfy it.
fn refused_line(
    alloc: Global,
    file: &str,
    fault: RefusedLine,
    text: &str,
) -> Result<String, AllocError> {
    let mut out = format!(in alloc; "{file}, ")?;
    write_refused_line(alloc, &mut out, fault, text)?;
    Ok(out)
}

/// Writes why the lines of a script are refused, which rise.
fn tell_faults<N: Write>(
    alloc: Global,
    file: &str,
    source: &str,
    faults: &[RefusedLine],
    notes: &mut N,
) {
    let mut left = faults;
    for (place, text) in source.split('\n').enumerate() {
        let [fault, others @ ..] = left else {
            return;
        };
        if fault.line == place.saturating_add(1) {
            left = others;
            tell(refused_line(alloc, file, *fault, text), notes);
        }
    }
}

/// Writes why lines are refused, where the command ran a script.
pub(crate) fn tell_lines<N: Write>(
    alloc: Global,
    line: &FileCommand<'_>,
    answer: &Answer,
    notes: &mut N,
) {
    if let FileCommand::Sim { script, .. } = line {
        let source = text_of(answer.source.as_slice());
        let faults = answer.printed.faults.as_slice();
        tell_faults(alloc, script, source, faults, notes);
    }
}
