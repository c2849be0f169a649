//! Why a command was refused, in words for a person.

ghost use Rattle.std.specs.Prelude.{◌≡◌, ◌≢◌, true, false, None, IfOk, IsUtf8};
ghost use Rattle.q_command.specs.Advice.{IsToldOf, Meets, IsExplained, is_of_nodes};

use crate::line::{line_of, text_of, write_form};
use crate::refused_command::RefusedCommand;
use crate::sources::program;
use crate::words::{FileCommand, ProgramForm};
use bq_asm::AsmFault;
use bq_check::CheckFault;
use bq_explain::{
    OBJECT_FILE, assembler_line, explain, explain_bytes, is_object_file, line_of_unit, of_label,
    script_line,
};
use bq_insn::{DecodeFault, Text};
use bq_state::Bounds;
use q_replay::ReplayFault;
use q_script::{RecordFault, RecordsFault, ScriptFault};
use q_told::Refusal;
use std::alloc::{AllocError, Global};
use std::str;

/// What a list of records asks of the line that breaks it.
fn of_record(fault: RecordFault) -> &'static str {
    match fault {
        RecordFault::Syntax =>
            "A line is ID SEQ VALUE, three numbers below 2^64 with one space between: 1 1 5.\nVALUE may also be x and two hexadecimal digits for each of its bytes: 1 1 x05ff.",
        RecordFault::Unsorted => "Its id is not above the one before. Ids rise from line to line.",
        RecordFault::BadField => "Its second number is 0. A node's stores are numbered from 1.",
        RecordFault::BadValue =>
            "A record has 16 bytes and those of its value, 48 where that is a number. This one\nhas fewer than --least, 16 if not given, or more than --most, 128 if not given.",
        RecordFault::Full => "A list has 256 records at most.",
    }
}

/// What assembler text asks, where it is refused for this on the line of this number.
fn of_assembler(fault: AsmFault, source: &str, number: usize, line: &str) -> &'static str {
    match fault {
        AsmFault::Syntax { .. } => assembler_line(line),
        AsmFault::Label { .. } => of_label(source, number),
        AsmFault::BadLength => "The file has no instruction.",
        AsmFault::TooLong => "The program has more than 4096 units.",
        AsmFault::OutOfMemory => "",
    }
}

/// What is told of assembler text.
fn write_assembler(
    out: &mut String,
    refused: &RefusedCommand<'_>,
    fault: AsmFault,
) -> Result<(), AllocError> {
    match fault {
        AsmFault::Syntax { line } | AsmFault::Label { line } => {
            let source = text_of(refused.bytes.as_slice());
            let line = line_of(refused.file, source, line);
            write_form(
                out,
                line,
                of_assembler(fault, source, line.number, line.text),
            )
        }
        _ => {
            let file = refused.file;
            let words = of_assembler(fault, "", 0, "");
            writeln!(out, "{file}: {words}")
        }
    }
}

/// What is told of a file that is read as text and is none.
fn write_no_text(
    out: &mut String,
    line: &FileCommand<'_>,
    refused: &RefusedCommand<'_>,
) -> Result<(), AllocError> {
    let file = refused.file;
    let words = match line {
        FileCommand::Asm { .. } | FileCommand::Check { .. } | FileCommand::Run { .. }
            if is_object_file(refused.bytes.as_slice()) => { OBJECT_FILE }
        FileCommand::Run { records, .. } if file == *records =>
            "It is not UTF-8, which lists of records are.",
        FileCommand::Check { .. } | FileCommand::Run { .. } =>
            "It is not UTF-8, which text files are. The bytes of a program are passed with --bytes.",
        _ => "It is not UTF-8, which text files are.",
    };
    writeln!(out, "{file}: {words}")
}

/// What is told of bytes that are no program.
fn write_bytes(
    alloc: Global,
    out: &mut String,
    refused: &RefusedCommand<'_>,
    fault: DecodeFault,
) -> Result<(), AllocError> {
    let file = refused.file;
    if is_object_file(refused.bytes.as_slice()) {
        return writeln!(out, "{file}: {OBJECT_FILE}");
    }
    let Some(told) = explain_bytes(alloc, refused.bytes.as_slice(), fault)? else {
        return Ok(());
    };
    match fault {
        DecodeFault::At { .. } => write!(out, "{file}, {told}"),
        _ => write!(out, "{file}: {told}"),
    }
}

/// Which lines a script may have.
#[derive(Clone, Copy)]
enum ScriptKind {
    /// Those of `sim`.
    Events,
    /// Those of `cluster`, which are some of them.
    Nodes,
}

/// What the line of a script of `cluster` with this number, counted from 1, may say that begins as this text does.
fn nodes_line(number: usize, text: &str) -> &'static str {
    let (word, _) = text.split_once(' ').unwrap_or((text, ""));
    let is_known = matches!(word, "nodes" | "program" | "store" | "ask");
    if is_known || number <= 1 || text.contains('\r') {
        script_line(number, text)
    } else {
        "No line of `cluster` begins so. They are program, store and ask, one a line, with no\nblank lines and no comments."
    }
}

/// What is told of a script's fault.
fn write_script(
    out: &mut String,
    refused: &RefusedCommand<'_>,
    kind: ScriptKind,
) -> Result<(), AllocError> {
    let file = refused.file;
    match refused.refusal {
        Refusal::FileFailed => writeln!(out, "{file}: It is not UTF-8, which text files are."),
        Refusal::Script(ScriptFault::Syntax { line }) => {
            let source = text_of(refused.bytes.as_slice());
            let line = line_of(refused.file, source, line);
            let form = match kind {
                ScriptKind::Events => script_line(line.number, line.text),
                ScriptKind::Nodes => nodes_line(line.number, line.text),
            };
            write_form(out, line, form)
        }
        Refusal::Fraction(_) => writeln!(
            out,
            "{file}: A fraction is N/D with 1 <= N <= D <= 1000, as 4/5."
        ),
        Refusal::Cluster(_) => {
            let most: u64 = match kind {
                ScriptKind::Events => 256,
                ScriptKind::Nodes => 16,
            };
            writeln!(out, "{file}: A cluster is founded by 1 to {most} nodes.")
        }
        _ => Ok(()),
    }
}

/// How many bytes a record may have of which a command asks; any number where it asks of none.
fn lengths_of(line: &FileCommand<'_>) -> Bounds {
    match line {
        FileCommand::Check { lengths, .. } | FileCommand::Run { lengths, .. } => *lengths,
        _ => Bounds::all(),
    }
}

/// What the file of a program holds of which a command asks; assembler text where it asks of none.
fn form_of(line: &FileCommand<'_>) -> ProgramForm {
    match line {
        FileCommand::Dis { .. } => ProgramForm::Bytes,
        FileCommand::Check { form, .. } | FileCommand::Run { form, .. } => *form,
        _ => ProgramForm::Text,
    }
}

/// The line of the unit of a fault, where the file is assembler text.
fn write_unit_line(
    out: &mut String,
    form: ProgramForm,
    source: &[u8],
    text: &Text,
    fault: CheckFault,
) -> Result<(), AllocError> {
    let (ProgramForm::Text, Some(unit)) = (form, fault.unit()) else {
        return Ok(());
    };
    match line_of_unit(text_of(source), text, unit) {
        Some(line) => write!(out, "line {line}, "),
        None => Ok(()),
    }
}

/// What is told of a program that the verifier refuses.
fn write_program(
    alloc: Global,
    out: &mut String,
    line: &FileCommand<'_>,
    refused: &RefusedCommand<'_>,
    fault: CheckFault,
) -> Result<(), AllocError> {
    let file = refused.file;
    let form = form_of(line);
    let source = refused.bytes.as_slice();
    let Ok(text) = program(alloc, form, source) else {
        return Err(AllocError);
    };
    write!(out, "{file}, ")?;
    write_unit_line(out, form, source, &text, fault)?;
    match explain(alloc, &text, lengths_of(line), fault)? {
        Some(told) => out.push_str(told.as_str()),
        None => out.push('\n'),
    }
}

/// What a journal asks of the event that breaks it.
fn of_journal(fault: ReplayFault) -> &'static str {
    match fault {
        ReplayFault::Form { event: 0 } => "It does not begin with the head of a journal.",
        ReplayFault::Form { .. } => "The bytes are cut there, or of no form of an event.",
        ReplayFault::Mismatch { .. } =>
            "No node's calls give this event there, or its answer is not what the program gives.",
        ReplayFault::OutOfMemory => "",
    }
}

/// What is told of a command's refusal.
fn write_reason(
    alloc: Global,
    out: &mut String,
    line: &FileCommand<'_>,
    refused: &RefusedCommand<'_>,
) -> Result<(), AllocError> {
    let file = refused.file;
    match refused.refusal {
        Refusal::FileFailed => write_no_text(out, line, refused),
        Refusal::Script(_) | Refusal::Fraction(_) | Refusal::Cluster(_) => write_script(
            out,
            refused,
            ScriptKind::Events,
        ),
        Refusal::Assembler(fault) => write_assembler(out, refused, fault),
        Refusal::Bytes(fault) => write_bytes(alloc, out, refused, fault),
        Refusal::Program(fault) => write_program(alloc, out, line, refused, fault),
        Refusal::Records(RecordsFault::Line { line, fault }) => {
            let source = text_of(refused.bytes.as_slice());
            write_form(out, line_of(file, source, line), of_record(fault))
        }
        Refusal::Journal(fault) => {
            let words = of_journal(fault);
            writeln!(out, "{file}: {words}")
        }
        Refusal::Records(RecordsFault::OutOfMemory) | Refusal::OutOfMemory => Ok(()),
    }
}

/// Whether something is told of a refusal.
fn is_explained(refused: &RefusedCommand<'_>) -> bool
    ensures { Meets result (IsExplained refused.now.refusal refused.now.bytes.items) }
{
    match refused.refusal {
        Refusal::FileFailed => str::from_utf8(refused.bytes.as_slice()).is_err(),
        refusal => refusal.reason().number() != 99,
    }
}

/// What explains a command's refusal, from the bytes that are refused; none where memory ran out, and of a file that
/// was not read, of which [`Folder`] tells.
///
/// The one error is that memory ran out (99 OutOfMemory).
///
/// [`Folder`]: q_outside::Folder
pub fn advice(
    alloc: Global,
    line: &FileCommand<'_>,
    refused: &RefusedCommand<'_>,
) -> Result<Option<String>, AllocError>
    ensures told { IfOk result (IsToldOf refused.now.refusal refused.now.bytes.items) }
{
    if !is_explained(refused) {
        return Ok(None);
    }
    let mut out = String::new(alloc);
    write_reason(alloc, &mut out, line, refused)?;
    Ok(Some(out))
}

/// Whether a refusal of `cluster` is one of its script, or of the nodes that it founds.
fn is_of_nodes(refusal: Refusal) -> bool
    ensures { result ≡ is_of_nodes refusal }
{
    match refusal {
        Refusal::FileFailed | Refusal::Script(_) | Refusal::Fraction(_) => true,
        Refusal::Cluster(_) => refusal.reason().number() == 49,
        _ => false,
    }
}

/// What explains why `cluster` refuses its script, from the bytes that are refused; none of what its lines or its nodes
/// come to.
///
/// The one error is that memory ran out (99 OutOfMemory).
pub fn nodes_advice(
    alloc: Global,
    refused: &RefusedCommand<'_>,
) -> Result<Option<String>, AllocError>
    ensures told { is_of_nodes refused.now.refusal ≡ true → IfOk result (IsToldOf refused.now.refusal refused.now.bytes.items) }
    ensures none { is_of_nodes refused.now.refusal ≡ false → IfOk result (λ told. told ≡ None) }
{
    if !is_of_nodes(refused.refusal) {
        return Ok(None);
    }
    if !is_explained(refused) {
        return Ok(None);
    }
    let mut out = String::new(alloc);
    write_script(&mut out, refused, ScriptKind::Nodes)?;
    Ok(Some(out))
}
