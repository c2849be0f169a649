//! The words of the command line.

ghost use Rattle.std.specs.Prelude.{◌≡◌, ℕ, codes, IfOk, IfErr, IsErrAnd, MatchOption, MatchResult, map, option_map, Some, false, true};
ghost use Rattle.std.specs.Option.{SomeIff};
ghost use Rattle.std.specs.Vec.Iter.{into_iter_items};
ghost use Rattle.bq_range.specs.Interval.{between};
ghost use Rattle.bq_state.specs.Kinds.{AreLengths};
ghost use Rattle.clap.specs.Words.{App, Rule, app_of, first_of, found_of, new_app, rows_of, with_rule, with_subcommand};
ghost use Rattle.clap.specs.declared.builder.command.Command.TheViews.{out-Command};
ghost use Rattle.q_command.specs.declared.words.WordsFault.TheVariants.{OutOfMemory};
ghost use Rattle.q_command.specs.Words.{Has, IsRule, check_app, run_app, script_app, gather_app, node_app, client_app, bare_app, bqview, commands, flag, operand, operands, option, optional, demanded, with_bytes, with_lengths, form_of, operand_of, operands_of, is_given, is_strict, AreBadRunners, AreGiven, AreBad, AreRunners, HasLengths, HasLineFault, IsMet, IsOneOf, IsRunners, Reads, Tells, TellsUngiven, exit_status};

use crate::help;
use crate::help::About;
use bq_state::Bounds;
use clap::error::ErrorKind;
use clap::{Arg, ArgAction, ArgMatches, Command, Error};
use q_script::{NodeWords, number};
use std::alloc::{AllocError, Global};
use std::convert::AsStr;
use std::env::Args;
use std::io;

/// What a file of a program holds.
#[derive(Clone, Copy, Debug, PartialEq, Eq)]
pub enum ProgramForm {
    /// Assembler text.
    Text,
    /// The bytes of the program, as `--bytes` says: eight a unit (RFC 9669, section 3.1).
    Bytes,
}

/// A command over files, with its operands.
#[derive(Clone, Copy)]
pub enum FileCommand<'a> {
    /// `asm FILE`: list the units of the program that a file of assembler text spells.
    Asm {
        /// The name of the file.
        file: &'a str,
    },
    /// `dis FILE`: write the program of these bytes as assembler text.
    Dis {
        /// The name of the file.
        file: &'a str,
    },
    /// `check FILE`: check the program of a file.
    Check {
        /// The name of the file.
        file: &'a str,
        /// What the file holds.
        form: ProgramForm,
        /// How many bytes a record may have.
        lengths: Bounds,
        /// Whether what is known of the registers at each unit is to be told.
        states: bool,
        /// The name of the file to which the program's notes are to be written, if they are.
        notes: Option<&'a str>,
    },
    /// `run FILE START RECORDS`: run the program of a file over records.
    Run {
        /// The name of the file.
        file: &'a str,
        /// What the file holds.
        form: ProgramForm,
        /// The accumulator that the program begins with.
        start: u64,
        /// The name of the file that lists the records.
        records: &'a str,
        /// How many bytes a record may have.
        lengths: Bounds,
    },
    /// `sim SCRIPT`: run a script over a cluster.
    Sim {
        /// The name of the file.
        script: &'a str,
        /// Whether a refused line is to be told by the exit status.
        strict: bool,
    },
    /// `audit JOURNAL`: replay the journal of a node.
    Audit {
        /// The name of the file.
        journal: &'a str,
    },
}

impl FileCommand<'_> {
    /// Whether a refused line is to be told by the exit status, as `sim --strict` asks.
    pub fn is_strict(&self) -> bool
        ensures { result ≡ is_strict self.now }
    {
        match self {
            FileCommand::Sim { strict, .. } => *strict,
            FileCommand::Asm { .. }
            | FileCommand::Dis { .. }
            | FileCommand::Check { .. }
            | FileCommand::Run { .. }
            | FileCommand::Audit { .. } => false,
        }
    }
}

/// What the words of a command line ask for.
#[derive(Drop)]
pub enum Invocation<'a> {
    /// A command over files.
    FileCommand(FileCommand<'a>),
    /// `cluster SCRIPT`: run a script by a thread for each node.
    Cluster {
        /// The name of the file.
        script: &'a str,
        /// Whether a line that is refused or unanswered is to be told by the exit status.
        strict: bool,
    },
    /// `gather JOURNAL..`: gather the journals of all nodes of a run.
    Gather {
        /// The names of the files, at least one.
        journals: Vec<&'a str>,
        /// Whether it is to be told where stores and later collects meet.
        pairs: bool,
    },
    /// `node FILE ID`: run a node of a cluster whose nodes run apart.
    Node(NodeWords<'a>),
    /// `client ADDR SCRIPT`: run a script over a connection with such a node.
    Client {
        /// Where the node is: a host and a port, or the path of a Unix socket.
        place: &'a str,
        /// The name of the file.
        script: &'a str,
        /// Whether a line that is refused or unanswered is to be told by the exit status.
        strict: bool,
    },
}

/// Why the words name no command. Its text is what the program prints.
#[derive(Debug, Drop, thiserror::Error)]
pub enum WordsFault<'a> {
    /// They ask for help or for the version, which is the text of this. It belongs to the standard output.
    #[error(transparent)]
    Help(Error),
    /// They are no command line. The text says what is wrong with them, and belongs to the standard
    /// error.
    #[error(transparent)]
    Wrong(Error),
    /// The START of `run` is no number. The text belongs to the standard error.
    #[error("error: START is the accumulator to begin with, and '{start}' is none: write a number from 0 to 18446744073709551615 in decimal, with no zero in front of other digits and no sign\n\nFor more information, try 'bqview run --help'.\n")]
    BadStart {
        /// What was given for START.
        start: &'a str,
    },
    /// The lengths of records are none. The text belongs to the standard error.
    #[error("error: --least '{least}' and --most '{most}' are not the fewest and the most bytes that a record may have: write numbers in decimal with 16 <= least <= most <= 128\n\nFor more information, try 'bqview {command} --help'.\n")]
    BadLengths {
        /// The command whose lengths they are.
        command: &'a str,
        /// What was given for `--least`, or stands for it.
        least: &'a str,
        /// What was given for `--most`, or stands for it.
        most: &'a str,
    },
    /// The notes of `check` would be written over its program. The text belongs to the standard error.
    #[error("error: --notes '{notes}' is the program's own file, which would be lost: name another\n\nFor more information, try 'bqview check --help'.\n")]
    NotesOverProgram {
        /// What was given for `--notes`, and for FILE.
        notes: &'a str,
    },
    /// The ID of `node` is no number. The text belongs to the standard error.
    #[error("error: ID is the node's id, and '{id}' is none: write a number from 0 to 18446744073709551615 in decimal, with no zero in front of other digits and no sign\n\nFor more information, try 'bqview node --help'.\n")]
    BadId {
        /// What was given for ID.
        id: &'a str,
    },
    /// The runners of `node` are none. The text belongs to the standard error.
    #[error("error: --runners '{runners}' is not the count of the threads that run programs: write a number in decimal from 1 to 64\n\nFor more information, try 'bqview node --help'.\n")]
    BadRunners {
        /// What was given for `--runners`, or stands for it.
        runners: &'a str,
    },
    /// A word of them is not UTF-8. The text belongs to the standard error.
    #[error("error: a word of the command line is not UTF-8 text\n\nFor more information, try 'bqview --help'.\n")]
    NotUtf8,
    /// 99: memory ran out. The text is that of a refusal, and belongs to the standard output.
    #[error("refused 99 OutOfMemory")]
    OutOfMemory,
}

impl WordsFault<'_> {
    /// The exit status of the program: 0 where help or the version was asked for, 1 where memory ran out, 2 where the
    /// words are no command line.
    pub fn status(&self) -> u8
        ensures { result ≡ exit_status self.now }
    {
        match self {
            WordsFault::Help(_) => 0,
            WordsFault::OutOfMemory => 1,
            WordsFault::Wrong(_)
            | WordsFault::BadStart { .. }
            | WordsFault::BadLengths { .. }
            | WordsFault::NotesOverProgram { .. }
            | WordsFault::BadId { .. }
            | WordsFault::BadRunners { .. }
            | WordsFault::NotUtf8 => 2,
        }
    }
}

impl From<Error> for WordsFault<'_> {
    ghost from_gives = { Tells };

    fn from(error: Error) -> Self {
        match error.kind() {
            ErrorKind::DisplayHelp | ErrorKind::DisplayVersion => WordsFault::Help(error),
            ErrorKind::OutOfMemory => WordsFault::OutOfMemory,
            _ => WordsFault::Wrong(error),
        }
    }
}

/// Why the system gives no words.
impl From<io::Error> for WordsFault<'_> {
    ghost from_gives = { TellsUngiven };

    fn from(error: io::Error) -> Self {
        match error.kind() {
            io::ErrorKind::OutOfMemory => WordsFault::OutOfMemory,
            _ => WordsFault::NotUtf8,
        }
    }
}

impl From<AllocError> for WordsFault<'_> {
    ghost from_gives = { λ _ e. e ≡ OutOfMemory };

    fn from(_error: AllocError) -> Self {
        WordsFault::OutOfMemory
    }
}

/// The version of the program, which `bqview --version` prints.
pub const VERSION: &str = "0.1.0";

/// A command of this name, with nothing below it yet.
fn new_command<'a>(alloc: Global, name: &'a str, told: About) -> Command<'a>
    ensures { (app_of result ≡ new_app name.entry.now) × ((out-Command result).has_globals ≡ false) }
{
    Command::new(alloc, name)
        .about(told.about)
        .after_help(told.after_help)
}

/// An operand, which must be there.
fn operand<'a>(alloc: Global, name: &'a str, help: &'a str) -> Arg<'a>
    ensures { IsRule result (operand name.entry.now) }
{
    Arg::new(alloc, name)
        .help(help)
        .required(true)
        .action(ArgAction::Set)
}

/// An operand of which there may be several, and must be one.
fn operands<'a>(alloc: Global, name: &'a str, help: &'a str) -> Arg<'a>
    ensures { IsRule result (operands name.entry.now) }
{
    operand(alloc, name, help).num_args(1..)
}

/// An option, which may be left out.
fn optional<'a>(alloc: Global, name: &'a str, help: &'a str, value: &'a str) -> Arg<'a>
    ensures { IsRule result (optional name.entry.now) }
{
    Arg::new(alloc, name)
        .long(name)
        .value_name(value)
        .help(help)
        .action(ArgAction::Set)
}

/// An option, which stands for `default` where it is not given.
fn option<'a>(
    alloc: Global,
    name: &'a str,
    help: &'a str,
    value: &'a str,
    default: &'a str,
) -> Arg<'a>
    ensures { IsRule result (option name.entry.now default.entry.now) }
{
    optional(alloc, name, help, value).default_value(default)
}

/// An option, which must be given.
fn demanded<'a>(alloc: Global, name: &'a str, help: &'a str, value: &'a str) -> Arg<'a>
    ensures { IsRule result (demanded name.entry.now) }
{
    optional(alloc, name, help, value).required(true)
}

/// A flag.
fn flag<'a>(alloc: Global, name: &'a str, help: &'a str) -> Arg<'a>
    ensures { IsRule result (flag name.entry.now) }
{
    Arg::new(alloc, name)
        .long(name)
        .help(help)
        .action(ArgAction::SetTrue)
}

/// The command, if there is one, with one more argument.
fn with_argument<'a>(
    command: Result<Command<'a>, AllocError>,
    argument: Arg<'a>,
) -> Result<Command<'a>, AllocError>
    ensures { (app : App) (rule : Rule) → Has command.entry app → IsRule argument.entry rule → Has result (with_rule app rule) }
{
    let Ok(command) = command else {
        return Err(AllocError);
    };
    command.arg(argument)
}

/// The command, if there is one, with the options `--least` and `--most`.
fn with_lengths<'a>(
    alloc: Global,
    command: Result<Command<'a>, AllocError>,
) -> Result<Command<'a>, AllocError>
    ensures { (app : App) → Has command.entry app → Has result (with_lengths app) }
{
    let least = with_argument(command, option(alloc, "least", help::LEAST, "BYTES", "16"));
    with_argument(least, option(alloc, "most", help::MOST, "BYTES", "128"))
}

/// The command, if there is one, with the flag `--bytes`.
fn with_bytes<'a>(
    alloc: Global,
    command: Result<Command<'a>, AllocError>,
) -> Result<Command<'a>, AllocError>
    ensures { (app : App) → Has command.entry app → Has result (with_bytes app) }
{
    with_argument(command, flag(alloc, "bytes", help::AS_BYTES))
}

/// A command with one operand, the name of a file.
fn file_command<'a>(
    alloc: Global,
    name: &'a str,
    told: About,
    file: &'a str,
    help: &'a str,
) -> Result<Command<'a>, AllocError>
    ensures { Has result (with_rule (new_app name.entry.now) (operand file.entry.now)) }
{
    let command = new_command(alloc, name, told);
    with_argument(Ok(command), operand(alloc, file, help))
}

/// A command `NAME SCRIPT`, with the flag `--strict`.
fn script_command<'a>(
    alloc: Global,
    name: &'a str,
    told: About,
    script: &'a str,
    strict: &'a str,
) -> Result<Command<'a>, AllocError>
    ensures { Has result (script_app name.entry.now) }
{
    let file = file_command(alloc, name, told, "SCRIPT", script);
    with_argument(file, flag(alloc, "strict", strict))
}

/// The command `check`.
fn check_command<'a>(alloc: Global) -> Result<Command<'a>, AllocError>
    ensures { Has result check_app }
{
    let file = file_command(alloc, "check", help::CHECK, "FILE", help::PROGRAM);
    let form = with_bytes(alloc, file);
    let states = with_argument(form, flag(alloc, "states", help::STATES));
    let notes = with_argument(states, optional(alloc, "notes", help::NOTES, "OUT"));
    with_lengths(alloc, notes)
}

/// The command `run`.
fn run_command<'a>(alloc: Global) -> Result<Command<'a>, AllocError>
    ensures { Has result run_app }
{
    let file = file_command(alloc, "run", help::RUN, "FILE", help::PROGRAM);
    let start = with_argument(file, operand(alloc, "START", help::START));
    let records = with_argument(start, operand(alloc, "RECORDS", help::RECORDS));
    let form = with_bytes(alloc, records);
    with_lengths(alloc, form)
}

/// The command `gather`.
fn gather_command<'a>(alloc: Global) -> Result<Command<'a>, AllocError>
    ensures { Has result gather_app }
{
    let command = new_command(alloc, "gather", help::GATHER);
    let journals = with_argument(Ok(command), operands(alloc, "JOURNAL", help::GATHERED));
    with_argument(journals, flag(alloc, "pairs", help::PAIRS))
}

/// The command `node`.
fn node_command<'a>(alloc: Global) -> Result<Command<'a>, AllocError>
    ensures { Has result node_app }
{
    let file = file_command(alloc, "node", help::NODE, "FILE", help::NODES);
    let id = with_argument(file, operand(alloc, "ID", help::ID));
    let clients = with_argument(id, demanded(alloc, "clients", help::CLIENTS, "ADDR"));
    let journal = with_argument(clients, demanded(alloc, "journal", help::JOURNAL, "FILE"));
    let console = with_argument(journal, optional(alloc, "console", help::CONSOLE, "PATH"));
    let resume = with_argument(console, flag(alloc, "resume", help::RESUME));
    let runners = with_argument(resume, option(alloc, "runners", help::RUNNERS, "R", "2"));
    with_argument(runners, flag(alloc, "sync", help::SYNC))
}

/// The command `client`.
fn client_command<'a>(alloc: Global) -> Result<Command<'a>, AllocError>
    ensures { Has result client_app }
{
    let place = file_command(alloc, "client", help::CLIENT, "ADDR", help::ADDRESS);
    let script = with_argument(place, operand(alloc, "SCRIPT", help::REQUESTS));
    with_argument(script, flag(alloc, "strict", help::UNANSWERED))
}

/// The command with one more command below it, if there are both.
fn with_command<'a>(
    command: Result<Command<'a>, AllocError>,
    below: Result<Command<'a>, AllocError>,
) -> Result<Command<'a>, AllocError>
    ensures { (app under : App) → Has command.entry app → Has below.entry under → Has result (with_subcommand app under.top) }
{
    let Ok(command) = command else {
        return Err(AllocError);
    };
    let Ok(below) = below else {
        return Err(AllocError);
    };
    command.subcommand(below)
}

/// The program, with no command below it yet.
fn bare_program<'a>(alloc: Global) -> Command<'a>
    ensures { (app_of result ≡ bare_app) × ((out-Command result).has_globals ≡ false) }
{
    new_command(alloc, "bqview", help::BQVIEW)
        .version(VERSION)
        .subcommand_required(true)
        .disable_help_subcommand(true)
}

/// The program's command line.
fn program<'a>(alloc: Global) -> Result<Command<'a>, AllocError>
    ensures { Has result bqview }
{
    let asm = file_command(alloc, "asm", help::ASM, "FILE", help::ASSEMBLER);
    let dis = file_command(alloc, "dis", help::DIS, "FILE", help::BYTES);
    let sim = script_command(alloc, "sim", help::SIM, help::EVENTS, help::REFUSED);
    let cluster = script_command(
        alloc,
        "cluster",
        help::CLUSTER,
        help::CALLS,
        help::UNANSWERED,
    );
    let audit = file_command(alloc, "audit", help::AUDIT, "JOURNAL", help::AUDITED);
    let with_asm = with_command(Ok(bare_program(alloc)), asm);
    let with_dis = with_command(with_asm, dis);
    let with_check = with_command(with_dis, check_command(alloc));
    let with_run = with_command(with_check, run_command(alloc));
    let with_sim = with_command(with_run, sim);
    let with_cluster = with_command(with_sim, cluster);
    let with_audit = with_command(with_cluster, audit);
    let with_gather = with_command(with_audit, gather_command(alloc));
    let with_node = with_command(with_gather, node_command(alloc));
    with_command(with_node, client_command(alloc))
}

/// The text of an operand.
fn operand_text<'a>(found: &ArgMatches<'a>, name: &str) -> &'a str
    ensures { result.now ≡ operand_of name.now (rows_of (found_of found.now)) }
{
    found.get_str(name).unwrap_or("")
}

/// Whether a flag was given.
fn is_given(found: &ArgMatches<'_>, name: &str) -> bool
    ensures { result ≡ is_given name.now (rows_of (found_of found.now)) }
{
    operand_text(found, name) == "true"
}

/// The text of an option that may be left out, if it was given.
fn optional_text<'a>(found: &ArgMatches<'a>, name: &str) -> Option<&'a str>
    ensures { option_map (λ text. text.now) result ≡ first_of name.now (rows_of (found_of found.now)) }
{
    found.get_str(name)
}

/// What the file of a program holds.
fn program_form(found: &ArgMatches<'_>) -> ProgramForm
    ensures { result ≡ form_of (rows_of (found_of found.now)) }
{
    if is_given(found, "bytes") {
        ProgramForm::Bytes
    } else {
        ProgramForm::Text
    }
}

/// The lengths from `least` to `most`, if they are in order and within 16 to 128.
fn bounds(least: u64, most: u64) -> Option<Bounds>
    ensures { SomeIff result (AreLengths (between least most)) (between least most) }
{
    let least = u8::try_from(least).ok()?;
    let most = u8::try_from(most).ok()?;
    Bounds::new(least, most)
}

/// The lengths of records that were given, if they are some.
fn lengths<'a>(found: &ArgMatches<'a>) -> Option<Bounds>
    ensures { MatchOption result (AreBad (rows_of (found_of found.now))) (AreGiven (rows_of (found_of found.now))) }
{
    let least = number(operand_text(found, "least"))?;
    let most = number(operand_text(found, "most"))?;
    bounds(least, most)
}

/// That what was given to a command for the lengths of records is none.
fn bad_lengths<'a>(found: &ArgMatches<'a>, command: &'a str) -> WordsFault<'a>
    requires { AreBad (rows_of (found_of found.now)) }
    ensures { HasLengths (command.entry.now, rows_of (found_of found.now)) → HasLineFault result (command.entry.now, rows_of (found_of found.now)) }
{
    WordsFault::BadLengths {
        command,
        least: operand_text(found, "least"),
        most: operand_text(found, "most"),
    }
}

/// The name under which notes are to be written, where that is the name of their program's file.
fn over_program<'a>(notes: Option<&'a str>, file: &str) -> Option<&'a str>
    ensures { MatchOption result
        (¬ (option_map (λ name. name.now) notes.entry ≡ Some file.now))
        (λ name. (name.now ≡ file.now) × (option_map (λ name. name.now) notes.entry ≡ Some file.now)) }
{
    match notes {
        Some(name) if name == file => Some(name),
        _ => None,
    }
}

/// The command `check` with what was found for its operands.
fn check_line<'a>(found: &ArgMatches<'a>) -> Result<Invocation<'a>, WordsFault<'a>>
    ensures { MatchResult result (λ invocation. IsMet invocation (codes "check", rows_of (found_of found.now))) (λ e. HasLineFault e (codes "check", rows_of (found_of found.now))) }
{
    let Some(lengths) = lengths(found) else {
        return Err(bad_lengths(found, "check"));
    };
    let file = operand_text(found, "FILE");
    let notes = optional_text(found, "notes");
    if let Some(notes) = over_program(notes, file) {
        return Err(WordsFault::NotesOverProgram { notes });
    }
    Ok(Invocation::FileCommand(FileCommand::Check {
        file,
        form: program_form(found),
        lengths,
        states: is_given(found, "states"),
        notes,
    }))
}

/// The command `run` with what was found for its operands.
fn run_line<'a>(found: &ArgMatches<'a>) -> Result<Invocation<'a>, WordsFault<'a>>
    ensures { MatchResult result (λ invocation. IsMet invocation (codes "run", rows_of (found_of found.now))) (λ e. HasLineFault e (codes "run", rows_of (found_of found.now))) }
{
    let text = operand_text(found, "START");
    let Some(start) = number(text) else {
        return Err(WordsFault::BadStart { start: text });
    };
    let Some(lengths) = lengths(found) else {
        return Err(bad_lengths(found, "run"));
    };
    Ok(Invocation::FileCommand(FileCommand::Run {
        file: operand_text(found, "FILE"),
        form: program_form(found),
        start,
        records: operand_text(found, "RECORDS"),
        lengths,
    }))
}

/// The command `sim` with what was found for its operand and its flag.
fn sim_line<'a>(found: &ArgMatches<'a>) -> Invocation<'a>
    ensures { IsMet result (codes "sim", rows_of (found_of found.now)) }
{
    Invocation::FileCommand(FileCommand::Sim {
        script: operand_text(found, "SCRIPT"),
        strict: is_given(found, "strict"),
    })
}

/// The command `cluster` with what was found for its operand and its flag.
fn cluster_line<'a>(found: &ArgMatches<'a>) -> Invocation<'a>
    ensures { IsMet result (codes "cluster", rows_of (found_of found.now)) }
{
    Invocation::Cluster {
        script: operand_text(found, "SCRIPT"),
        strict: is_given(found, "strict"),
    }
}

/// The texts of an operand of which there may be several. The one error is that memory ran out.
fn operand_texts<'a>(
    alloc: Global,
    found: &ArgMatches<'a>,
    name: &str,
) -> Result<Vec<&'a str>, WordsFault<'a>>
    ensures texts { IfOk result (λ texts. map (λ t. t.now) texts.items ≡ operands_of name.now (rows_of (found_of found.now))) }
    ensures memory { IfErr result (λ e. e ≡ OutOfMemory) }
{
    match found.get_strs(name) {
        Some(texts) => Ok(Vec::from_slice(alloc, texts)?),
        None => Ok(Vec::new(alloc)),
    }
}

/// The command `gather` with what was found for its operand and its flag.
fn gather_line<'a>(alloc: Global, found: &ArgMatches<'a>) -> Result<Invocation<'a>, WordsFault<'a>>
    ensures { MatchResult result (λ invocation. IsMet invocation (codes "gather", rows_of (found_of found.now))) (λ e. HasLineFault e (codes "gather", rows_of (found_of found.now))) }
{
    let journals = operand_texts(alloc, found, "JOURNAL")?;
    Ok(Invocation::Gather {
        journals,
        pairs: is_given(found, "pairs"),
    })
}

/// The count of threads that a text spells, if it spells one from 1 to 64.
fn runners(text: &str) -> Option<usize>
    ensures { MatchOption result ((n : ℕ) → IsRunners text.now n → ⊥) (IsRunners text.now) }
{
    let count = number(text)?;
    if count < 1 || count > 64 {
        return None;
    }
    Some(count as usize)
}

/// The command `node` with what was found for its operands and options.
fn node_line<'a>(found: &ArgMatches<'a>) -> Result<Invocation<'a>, WordsFault<'a>>
    ensures { MatchResult result (λ invocation. IsMet invocation (codes "node", rows_of (found_of found.now))) (λ e. HasLineFault e (codes "node", rows_of (found_of found.now))) }
{
    let id_text = operand_text(found, "ID");
    let Some(id) = number(id_text) else {
        return Err(WordsFault::BadId { id: id_text });
    };
    let runners_text = operand_text(found, "runners");
    let Some(runners) = runners(runners_text) else {
        return Err(WordsFault::BadRunners {
            runners: runners_text,
        });
    };
    Ok(Invocation::Node(NodeWords {
        file: operand_text(found, "FILE"),
        id,
        clients: operand_text(found, "clients"),
        journal: operand_text(found, "journal"),
        console: optional_text(found, "console"),
        resume: is_given(found, "resume"),
        runners,
        sync: is_given(found, "sync"),
    }))
}

/// The command `client` with what was found for its operands and its flag.
fn client_line<'a>(found: &ArgMatches<'a>) -> Invocation<'a>
    ensures { IsMet result (codes "client", rows_of (found_of found.now)) }
{
    let strict = is_given(found, "strict");
    Invocation::Client {
        place: operand_text(found, "ADDR"),
        script: operand_text(found, "SCRIPT"),
        strict,
    }
}

/// The words of the command line that the system gives, of which the first is the program's name.
pub fn given_words(
    alloc: Global,
    given: io::Result<Args>,
) -> Result<Vec<String>, WordsFault<'static>>
    ensures words { IfOk given (λ args. MatchResult result (λ words. words.items ≡ into_iter_items args) (λ e. e ≡ OutOfMemory)) }
    ensures ungiven { IfErr given (λ error. IsErrAnd result (TellsUngiven error)) }
{
    Ok(given?.collect(alloc)?)
}

/// The command of this name with what was found for its operands and options.
fn wanted_of<'a>(
    alloc: Global,
    name: &str,
    found: &ArgMatches<'a>,
) -> Result<Invocation<'a>, WordsFault<'a>>
    requires { IsOneOf name.now commands }
    ensures { MatchResult result (λ invocation. IsMet invocation (name.now, rows_of (found_of found.now))) (λ e. HasLineFault e (name.now, rows_of (found_of found.now))) }
{
    match name {
        "asm" => Ok(Invocation::FileCommand(FileCommand::Asm {
            file: operand_text(found, "FILE"),
        })),
        "dis" => Ok(Invocation::FileCommand(FileCommand::Dis {
            file: operand_text(found, "FILE"),
        })),
        "check" => check_line(found),
        "run" => run_line(found),
        "sim" => Ok(sim_line(found)),
        "cluster" => Ok(cluster_line(found)),
        "audit" => Ok(Invocation::FileCommand(FileCommand::Audit {
            journal: operand_text(found, "JOURNAL"),
        })),
        "gather" => gather_line(alloc, found),
        "node" => node_line(found),
        "client" => Ok(client_line(found)),
        _ => unreachable!(),
    }
}

/// Reads the words of the command line, of which the first is the program's name.
pub fn read_words<'a, S: AsStr>(
    alloc: Global,
    words: &'a [S],
) -> Result<Invocation<'a>, WordsFault<'a>>
    ensures { Reads (map S.text words.entry.now) result }
{
    let matches = program(alloc)?.try_get_matches_from(words)?;
    match matches.subcommand() {
        Some((name, found)) => wanted_of(alloc, name, found),
        None => unreachable!(),
    }
}
