//! The commands of the program `bqview`, over any files and any writer: their words, what each does, and what journals
//! tell together.
//!
//! - [`read_words`] reads the words of the command line with `clap`. Where it answers a command, that is the command
//!   with the operands which `clap`'s rules find in the words. Its fault prints what is wrong with them, or the help,
//!   and has the exit status that belongs to it.
//! - [`carry_out`] runs a command over files, and says how it ended. Where it answered, the writer took exactly the
//!   text that the command answers: the listing of the program that FILE spells; the assembler text of its bytes; the
//!   longest path of that program, whose notes pass, what those notes know at each unit, and the notes themselves in
//!   the file OUT; what that program means over the records that RECORDS lists, from START; what the script prints that
//!   SCRIPT spells; the answers that the journal JOURNAL recorded. It says whether a file was not written, or else
//!   whether a line was refused of a script that is strict. Where it was refused, the writer took exactly the line of
//!   the refusal, whose reason holds of the files, and what was read and refused is handed out ([`RefusedCommand`]). It
//!   gives up only where a write failed, which the writer counted.
//! - [`certified`] makes programs from assembler text and from bytes, with their certificates. [`listing`] is the text
//!   that `asm` prints, [`checked`] what `check` prints and writes, and [`audit`] what `audit` prints: the answers of a
//!   journal that is replayed.
//! - [`advice`] explains a refusal in words, from the bytes that were read: any but that memory ran out, and a file
//!   that was not read. [`nodes_advice`] explains so why the command `cluster`, which runs in another crate, refuses
//!   its script. What explains a refusal goes to the notes, of which no clause speaks.
//! - [`gather_files`] is the command `gather`: of nodes that ran apart, as processes of their own, their journals are
//!   all that is left. Of each file it takes the longest beginning that is a journal (`q_beginning`): a process that was
//!   killed, or whose disk was full, leaves a file whose last event is not whole, and that event is cut. Where the
//!   books of these gather into one cluster, it writes what they tell together ([`gathered`]): each recorded answer
//!   with the view that it saw, and where a store and a collect met. Where not, it writes exactly the line of the
//!   refusal, whose reason holds of the files.
//!
//! Scripts are run by [`simulate`], of the crate below: it takes each event of a script as one step of a cluster, whose
//! type keeps that every recorded answer is true, and answers the lines of what the steps tell.
//!
//! No journal is taken on trust: each is replayed, and they are merged in an order in which each message was sent
//! before it was delivered. There may be several such orders. [`every_gathered_answer_is_true`] is a law of all of
//! them, so also of the order in which things happened: each told answer is the meaning of its query's program over the
//! view that is told with it; that view is the one that the query's own collect returned, it has only what was stored
//! before, and it has each store that ended before the collect began and that meets it. Another law ([`laws`]): what
//! `dis` prints is assembled to the bytes that it was given.
//!
//! [`simulate`]: q_sim::simulate
//! [`every_gathered_answer_is_true`]: laws::every_gathered_answer_is_true
#![tactic(auto)]

mod advising;
mod answer;
mod auditor;
mod check;
mod gathered_answers;
mod gathered_ending;
mod gathered_teller;
mod help;
mod journal_files;
mod journal_notes;
mod journal_sources;
pub mod laws;
mod line;
mod lister;
mod perform;
mod refused_command;
mod sources;
mod told;
mod words;
pub mod worked;
pub mod worked_gathered;
pub mod worked_words;

pub use advising::{advice, nodes_advice};
pub use auditor::audit;
pub use check::{Check, checked};
pub use gathered_ending::GatherEnding;
pub use gathered_teller::gathered;
pub use journal_files::gather_files;
pub use lister::listing;
pub use perform::{CommandEnding, LONGEST_JOURNAL, carry_out};
pub use refused_command::RefusedCommand;
pub use sources::{certified, program, utf8};
pub use words::{
    FileCommand, Invocation, ProgramForm, VERSION, WordsFault, given_words, read_words,
};
