//! Commands, run over files and a writer.

ghost use Rattle.std.specs.Prelude.{◌≡◌, ◌≢◌, ℕ, List, false, Ok, Err, IfOk, IfErr, string_bytes};
ghost use Rattle.bq_sound.specs.Passes.{Passes};
ghost use Rattle.bq_verify.specs.Least.{AreLeast};
ghost use Rattle.q_command.specs.Perform.{Answers, AnswersCheck, AnswersFile, AnswersRun, AnswersScript, Computes, Disassembles, Ends, IsSimulated, IsUnaccepted, IsUnlisted, IsUnmade, IsUnread, IsUnspelled, IsUnsimulated, Lists, Makes, Refuses, RefusesBeforeWrites, RefusesFile, RefusesRun, Spells, end_of, failures_after, longest_text, status_of};

use crate::answer::Answer;
use crate::auditor::audit;
use crate::check::{Check, checked};
use crate::lister::listing;
use crate::refused_command::RefusedCommand;
use crate::sources::{certified, program, utf8};
use crate::told::{tell_lines, tell_refusal};
use crate::words::{FileCommand, ProgramForm};
use bq_asm::disassemble;
use bq_check::Certified;
use bq_frame::Block;
use bq_state::Bounds;
use q_outside::{Counted, Files, LONGEST_TEXT};
use q_script::{Script, read_records};
use q_session::run_fold;
use q_sim::{Printed, simulate};
use q_told::{Refusal, put_refusal};
use std::alloc::Global;
use std::io::Write;

/// The most bytes that a journal has which is read: 1,024 MB.
pub const LONGEST_JOURNAL: usize = 1024 * 1024 * 1024;

/// How a command ended.
#[derive(Drop)]
pub enum CommandEnding<'a> {
    /// It wrote its answer, and each file that it was to write.
    Answered,
    /// It wrote its answer, but a journal or notes were not written.
    Unsaved,
    /// It wrote its answer and each file, but is strict, and a line was refused.
    LineRefused,
    /// It wrote its refusal.
    Refused(RefusedCommand<'a>),
    /// The writer failed.
    Unwritten,
}

impl CommandEnding<'_> {
    /// The exit status: 0, or 1 after a refusal, where a journal or notes were not written or a line of a strict script
    /// was refused, or where the writer failed.
    pub fn status(&self) -> u8
        ensures { result ≡ status_of self.now }
    {
        match self {
            CommandEnding::Answered => 0,
            CommandEnding::Unsaved
            | CommandEnding::LineRefused
            | CommandEnding::Refused(_)
            | CommandEnding::Unwritten => 1,
        }
    }
}

/// The listing of the program that assembler text spells, refused as [`program`].
fn listed(alloc: Global, source: &[u8]) -> Result<String, Refusal>
    ensures listed { IfOk result (λ lines. Lists source.now (string_bytes lines)) }
    ensures refused { IfErr result (IsUnspelled ProgramForm.Text source.now) }
{
    let text = program(alloc, ProgramForm::Text, source)?;
    Ok(listing(alloc, &text)?)
}

/// The assembler text of the program of these bytes, refused as [`program`].
fn disassembled(alloc: Global, source: &[u8]) -> Result<String, Refusal>
    ensures written { IfOk result (λ lines. Disassembles source.now (string_bytes lines)) }
    ensures refused { IfErr result (IsUnspelled ProgramForm.Bytes source.now) }
{
    let text = program(alloc, ProgramForm::Bytes, source)?;
    Ok(disassemble(alloc, &text)?)
}

/// What `run` prints of a program over the records that a text lists.
fn computed(
    alloc: Global,
    certified: &Certified,
    start: u64,
    listed: &[u8],
) -> Result<String, Refusal>
    ensures computed { IfOk result (λ lines. (held : _) (source : List ℕ) → Spells held source certified.now.text → Computes held certified.now.lengths source start listed.now (string_bytes lines)) }
    ensures refused { IfErr result (IsUnlisted certified.now.lengths listed.now) }
{
    let listed = utf8(listed)?;
    let view = read_records(alloc, listed, certified.lengths())?;
    let mut block = Block::new(alloc)?;
    let ran = run_fold(certified, &view, start, &mut block);
    let acc = ran.acc;
    let steps = ran.steps;
    Ok(format!(in alloc; "acc {acc} steps {steps}\n")?)
}

/// What `sim` prints of a script, whose journals are written. Refused are 87 FileFailed, where the bytes are not UTF-8,
/// 9 Syntax with the least line of another form, and what [`simulate`] refuses, in this order.
fn simulated<F: Files>(alloc: Global, source: &[u8], files: &mut F) -> Result<Printed, Refusal>
    ensures simulated { IfOk result (λ p. IsSimulated F.write_gives source.now files.old (string_bytes p.lines) p.unsaved p.refused files.new) }
    ensures refused { IfErr result (IsUnsimulated source.now) }
    ensures unbegun { IfErr result (λ r. r ≢ Refusal.OutOfMemory → files.new ≡ files.old) }
{
    let source = utf8(source)?;
    let script = Script::read(alloc, source)?;
    simulate(alloc, script, files)
}

/// The bytes of a file, which has no more than `most`.
fn read<'a, F: Files>(
    alloc: Global,
    file: &'a str,
    most: usize,
    files: &mut F,
) -> Result<Vec<u8>, RefusedCommand<'a>>
    ensures read { IfOk result (λ bytes. F.read_gives most files.old file.now (Ok bytes.items) files.new) }
    ensures refused { IfErr result (λ refused. IsUnread (F.read_gives most) file.now files.old refused files.new) }
{
    match files.read(alloc, file, most) {
        Ok(bytes) => Ok(bytes),
        Err(fault) => Err(RefusedCommand {
            refusal: Refusal::from(fault),
            file,
            bytes: Vec::new(alloc),
        }),
    }
}

/// What was made of the bytes of a file; or its refusal, with those bytes.
fn or_refused<'a, T>(
    made: Result<T, Refusal>,
    file: &'a str,
    bytes: Vec<u8>,
) -> Result<T, RefusedCommand<'a>>
    ensures made { IfOk result (λ it. made ≡ Ok it) }
    ensures refused { IfErr result (λ refused. (made ≡ Err refused.refusal) × (refused.file.now ≡ file.now) × (refused.bytes.items ≡ bytes.items)) }
{
    match made {
        Ok(it) => Ok(it),
        Err(refusal) => Err(RefusedCommand {
            refusal,
            file,
            bytes,
        }),
    }
}

/// What a command prints that writes no file and of which no line is refused.
fn told(alloc: Global, lines: String) -> Answer
    ensures { (result.printed.lines ≡ lines) × (result.printed.unsaved ≡ false) × (result.printed.refused ≡ false) }
{
    Answer {
        printed: Printed {
            lines,
            unsaved: false,
            refused: false,
            faults: Vec::new(alloc),
        },
        source: Vec::new(alloc),
    }
}

/// What a command makes of the bytes of its one file.
#[derive(Clone, Copy)]
enum Work {
    /// `asm`: the listing of the program that they spell.
    Listing,
    /// `dis`: the assembler text of the program that they are.
    Disassembly,
    /// `audit`: the answers of the journal that they are.
    Audit,
}

/// What is made of these bytes.
fn made(alloc: Global, work: Work, bytes: &[u8]) -> Result<String, Refusal>
    ensures made { IfOk result (λ lines. Makes work bytes.now (string_bytes lines)) }
    ensures refused { IfErr result (IsUnmade work bytes.now) }
{
    match work {
        Work::Listing => listed(alloc, bytes),
        Work::Disassembly => disassembled(alloc, bytes),
        Work::Audit => audit(alloc, bytes),
    }
}

/// What a command prints of its one file, which has no more than so many bytes.
fn file_answer<'a, F: Files>(
    alloc: Global,
    work: Work,
    file: &'a str,
    most: usize,
    files: &mut F,
) -> Result<Answer, RefusedCommand<'a>>
    ensures answered { IfOk result (λ p. AnswersFile (F.read_gives most) (Makes work) file.now files.old (string_bytes p.printed.lines) p.printed.unsaved p.printed.refused files.new) }
    ensures refused { IfErr result (λ refused. RefusesFile (F.read_gives most) (IsUnmade work) file.now files.old refused files.new) }
{
    let bytes = read(alloc, file, most, files)?;
    let lines = made(alloc, work, bytes.as_slice());
    Ok(told(alloc, or_refused(lines, file, bytes)?))
}

/// What `check` prints.
fn check_answer<'a, F: Files>(
    alloc: Global,
    file: &'a str,
    check: &Check<'_>,
    files: &mut F,
) -> Result<Answer, RefusedCommand<'a>>
    ensures answered { IfOk result (λ p. AnswersCheck (F.read_gives longest_text) F.write_gives check.now file.now files.old (string_bytes p.printed.lines) p.printed.unsaved p.printed.refused files.new) }
    ensures refused { IfErr result (λ refused. RefusesBeforeWrites (F.read_gives longest_text) (IsUnaccepted check.now.form check.now.lengths) file.now files.old refused files.new) }
{
    let source = read(alloc, file, LONGEST_TEXT, files)?;
    let printed = checked(alloc, check, source.as_slice(), files);
    Ok(Answer {
        printed: or_refused(printed, file, source)?,
        source: Vec::new(alloc),
    })
}

/// The program of a file, with its certificate for records of these lengths.
fn certified_file<'a, F: Files>(
    alloc: Global,
    file: &'a str,
    form: ProgramForm,
    lengths: Bounds,
    files: &mut F,
) -> Result<Certified, RefusedCommand<'a>>
    ensures certified { IfOk result (λ c. (source : List ℕ) × F.read_gives longest_text files.old file.now (Ok source) files.new × Spells form source c.text) }
    ensures lengths { IfOk result (λ c. c.lengths ≡ lengths) }
    ensures passes { IfOk result (λ c. Passes lengths c.text c.notes) }
    ensures least { IfOk result (λ c. AreLeast lengths c.text c.notes) }
    ensures refused { IfErr result (λ refused. RefusesFile (F.read_gives longest_text) (IsUnaccepted form lengths) file.now files.old refused files.new) }
{
    let source = read(alloc, file, LONGEST_TEXT, files)?;
    let certified = certified(alloc, form, source.as_slice(), lengths);
    or_refused(certified, file, source)
}

/// What `run` prints of a program over the records of a file.
fn computed_file<'a, F: Files>(
    alloc: Global,
    certified: &Certified,
    start: u64,
    records: &'a str,
    files: &mut F,
) -> Result<Answer, RefusedCommand<'a>>
    ensures answered { IfOk result (λ p. (held : _) (source : List ℕ) → Spells held source certified.now.text → AnswersFile (F.read_gives longest_text) (Computes held certified.now.lengths source start) records.now files.old (string_bytes p.printed.lines) p.printed.unsaved p.printed.refused files.new) }
    ensures refused { IfErr result (λ refused. RefusesFile (F.read_gives longest_text) (IsUnlisted certified.now.lengths) records.now files.old refused files.new) }
{
    let listed = read(alloc, records, LONGEST_TEXT, files)?;
    let lines = computed(alloc, certified, start, listed.as_slice());
    Ok(told(alloc, or_refused(lines, records, listed)?))
}

/// What `run` prints.
fn run_answer<'a, F: Files>(
    alloc: Global,
    file: &'a str,
    form: ProgramForm,
    start: u64,
    records: &'a str,
    lengths: Bounds,
    files: &mut F,
) -> Result<Answer, RefusedCommand<'a>>
    ensures answered { IfOk result (λ p. AnswersRun (F.read_gives longest_text) form lengths file.now start records.now files.old (string_bytes p.printed.lines) p.printed.unsaved p.printed.refused files.new) }
    ensures refused { IfErr result (λ refused. RefusesRun (F.read_gives longest_text) form lengths file.now records.now files.old refused files.new) }
{
    let certified = certified_file(alloc, file, form, lengths, files)?;
    computed_file(alloc, &certified, start, records, files)
}

/// What `sim` prints.
fn sim_answer<'a, F: Files>(
    alloc: Global,
    script: &'a str,
    files: &mut F,
) -> Result<Answer, RefusedCommand<'a>>
    ensures answered { IfOk result (λ p. AnswersScript (F.read_gives longest_text) F.write_gives script.now files.old (string_bytes p.printed.lines) p.printed.unsaved p.printed.refused files.new) }
    ensures refused { IfErr result (λ refused. RefusesBeforeWrites (F.read_gives longest_text) IsUnsimulated script.now files.old refused files.new) }
{
    let source = read(alloc, script, LONGEST_TEXT, files)?;
    match simulated(alloc, source.as_slice(), files) {
        Ok(printed) => Ok(Answer { printed, source }),
        Err(refusal) => Err(RefusedCommand {
            refusal,
            file: script,
            bytes: source,
        }),
    }
}

/// What a command prints, or why it is refused.
fn answer<'a, F: Files>(
    alloc: Global,
    line: &FileCommand<'a>,
    files: &mut F,
) -> Result<Answer, RefusedCommand<'a>>
    ensures answered { IfOk result (λ p. Answers F.read_gives F.write_gives line.now files.old (string_bytes p.printed.lines) p.printed.unsaved p.printed.refused files.new) }
    ensures refused { IfErr result (λ refused. Refuses F.read_gives line.now files.old refused files.new) }
{
    match line {
        FileCommand::Asm { file } => file_answer(alloc, Work::Listing, file, LONGEST_TEXT, files),
        FileCommand::Dis { file } => {
            file_answer(alloc, Work::Disassembly, file, LONGEST_TEXT, files)
        }
        FileCommand::Check {
            file,
            form,
            lengths,
            states,
            notes,
        } => {
            let check = Check {
                form: *form,
                lengths: *lengths,
                states: *states,
                notes: *notes,
            };
            check_answer(alloc, file, &check, files)
        }
        FileCommand::Run {
            file,
            form,
            start,
            records,
            lengths,
        } => run_answer(alloc, file, *form, *start, records, *lengths, files),
        FileCommand::Sim { script, .. } => sim_answer(alloc, script, files),
        FileCommand::Audit { journal } => {
            file_answer(alloc, Work::Audit, journal, LONGEST_JOURNAL, files)
        }
    }
}

/// How a command ends that wrote its answer. That a file was not written comes before a line that was refused.
fn end_of<'a>(is_strict: bool, unsaved: bool, refused: bool) -> CommandEnding<'a>
    ensures { result ≡ end_of is_strict unsaved refused }
{
    if unsaved {
        return CommandEnding::Unsaved;
    }
    if is_strict && refused {
        return CommandEnding::LineRefused;
    }
    CommandEnding::Answered
}

/// Runs a command, and writes its answer or its refusal. What explains a refusal, and each refused line of a script,
/// goes to the notes; that they fail changes nothing else.
///
/// It gives up only where a write failed, which the writer counted.
pub fn carry_out<'a, F: Files, W: Write, N: Write>(
    alloc: Global,
    line: &FileCommand<'a>,
    files: &mut F,
    out: &mut Counted<W>,
    notes: &mut N,
) -> CommandEnding<'a>
    ensures ended { Ends F.read_gives F.write_gives line.now files.old (W.contents out.old.inner) result files.new (W.contents out.new.inner) }
    ensures counted { out.new.failures ≡ failures_after result out.old.failures }
{
    match answer(alloc, line, files) {
        Ok(answer) => {
            let written = out.put(answer.printed.lines.as_bytes());
            tell_lines(alloc, line, &answer, notes);
            let Printed {
                unsaved,
                refused,
                ..
            } = answer.printed;
            match written {
                Ok(()) => end_of(line.is_strict(), unsaved, refused),
                Err(_) => CommandEnding::Unwritten,
            }
        }
        Err(refused) => {
            let written = put_refusal(out, &refused.refusal);
            tell_refusal(alloc, line, &refused, notes);
            match written {
                Ok(()) => CommandEnding::Refused(refused),
                Err(_) => CommandEnding::Unwritten,
            }
        }
    }
}
