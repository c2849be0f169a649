//! The program `bqview`, as a function of its words: programs of RFC 9669 as files, from the command line.
//!
//! The commands, and what each prints:
//!
//! - `asm FILE`: each unit of the program as 16 lower-case hexadecimal digits, one a line.
//! - `dis FILE`: the assembler text of a program's bytes, one instruction a line.
//! - `check FILE`: `accepted longest L`: the program never faults, and does L steps for a record at most.
//! - `run FILE START RECORDS`: `acc A steps S`: the last accumulator, and all steps.
//! - `sim [--strict] SCRIPT`: what each event of a script tells, over a cluster in memory.
//! - `cluster [--strict] SCRIPT`: what each line of a script tells, over nodes with a thread and a UDP socket of
//!   loopback each.
//! - `audit JOURNAL`: `answer Q ACC STEPS` for each answer that a node recorded, by the numbers of its queries; then
//!   `journal ok`.
//! - `gather [--pairs] JOURNAL..`: each answer of the journals of all nodes, with its view; then `journals ok`.
//! - `node FILE ID --clients ADDR --journal JOURNAL`: where a node that runs by itself hears, what its console answers,
//!   and how many events its journal has.
//! - `client [--strict] ADDR SCRIPT`: what each line of a client's script tells, over a connection with a node that
//!   runs by itself.
//!
//! What each file, script and journal holds, what each line prints, which refusals a command prints and in which order,
//! and its exit status stand in `docs/FORMATS.md`. A file of the name `-` is the standard input. All that a command
//! over files prints it prints at its end. 99, out of memory, may stand in place of any answer, of any other refusal
//! and of what is said of a wrong command line. `--help` and `--version` print what they ask for.
//!
//! [`run`] takes the words that the system gives, files, an output and notes, and answers the exit status;
//! [`run_words`] does the same of any words. Their contracts say what the status is, and what the output took and the
//! files came to: where the words ask for a command over files, an end of [`carry_out`]; for `cluster`, one of
//! [`run_file`]; for `gather`, one of [`gather_files`]; for `client`, one of [`q_asker::run_file`];
//! for `node`, one of [`q_node::run_file`]; and where they ask for none ([`read_words`]), no file is
//! touched, and the output takes the help, the refusal 99, or nothing. What explains a refusal ([`carry_out`],
//! [`nodes_advice`]), a refused line of a script or a wrong command line goes to the notes, of which no clause speaks.
//! The program hands over the machine: its words, its files, its standard output, and its standard error as the notes.
//! Why the system refuses a file is told on the standard error, too.
//!
//! [`read_words`]: q_command::read_words
//! [`carry_out`]: q_command::carry_out
//! [`run_file`]: q_nodes::run_file
//! [`gather_files`]: q_command::gather_files
//! [`nodes_advice`]: q_command::nodes_advice
#![tactic(auto)]

mod client;
mod program;
pub mod worked;

pub use program::{run, run_words};
