//! A node of a cluster as a process of its own.
//!
//! [`run_node`] runs one over any socket, doors, journal's file, console and output; [`run_file`] is the command `node`,
//! which opens them by the words of the command line.
//!
//! Its threads, each with what it waits for and what it does then:
//!
//! - hearing: a datagram. It takes the message under the lock, settles, and sends with the lock free.
//! - asking again: a tenth of a second. It sends again what open operations still wait for, looks whether the journal's
//!   file is as the node left it, and watches the limits of the book.
//! - the runners: jobs. They run them; after each the node takes the result, settles and sends.
//! - the door: clients. It starts a thread for each, for as many as there are seats. When all 64 seats are taken, the
//!   client that has waited longest for a request gives its seat up; when none waits, the new client is refused (61).
//! - one for each client: a request. It reads it without the lock; takes it under the lock, settles, and sends; and
//!   replies when the reply is due.
//! - the caller's: a line of the console, `status`, `leave` or `end`. The console's lines may also come over connections
//!   at a Unix socket; then it has a door and threads as clients have. The end of the console's input does not end the
//!   node.
//!
//! All that may change the book ends with settling (`q_kept`): a node writes a journal entry before it sends any message
//! that results from it, and before it replies. After a write that failed, or when somebody else altered the journal's
//! file, the node is mute, which for the others is a crash. A client that sends nothing for a minute, has not sent a
//! whole request ten seconds after its first byte, or takes nothing for ten seconds, is closed; the end of a store is
//! waited for ten seconds, and an answer one.
//!
//! # A node that comes back
//!
//! A node that was ended or killed goes on from its journal: [`run_node`] takes the book of that journal, which the
//! command opens by `q_journal`. It asks again what it still asked, offers the jobs of running queries again, and goes
//! on with the numbers of its operations and queries. What is printed first says how many events its journal has.
//!
//! # Under the lock
//!
//! What the one lock keeps is an [`Own`], a type that says whose it is: a book of this node, and a file that holds, after
//! what it held at first, what the recorder counts of that book's journal. Each call of it is made while the lock is
//! held, keeps that true, and says what it does to what is kept. What is to be sent comes out of settling, or nothing if
//! the journal is not written. When the threads have ended [`Own::end`] writes what the file lacks.
//!
//! A lock gives no more of what it keeps than what the type says; so a call promises also what it answers of *some*
//! book of this node: the reply to a request, the status, that an operation has ended, what is said to `leave`; and
//! [`Own::end`] what the file holds then. The run of a node is written over a type with the node's id and what the file
//! held first ([`Start`]), since the type of what a lock keeps cannot speak of values.
//!
//! # At the console, and last
//!
//! A line of the console is a [`Command`]; what the node says to it, which [`put_said`] writes, is a [`Said`]: its
//! [`Status`], `ok`, or the line of a refusal. When the run has ended [`close`] writes the last line, by how the
//! conversation ended ([`Talk`]) and how the journal was written, and answers the [`NodeEnding`], which has the exit
//! status. A node that does not begin for a [`StartFault`] says so by [`print_refusal`], and nothing else. Over any
//! writer just these bytes are written, or a write failed, which is counted once; a status is that of the book that it
//! was made of.
//!
//! # What is promised
//!
//! Proved of a run ([`run_node`], [`run_file`]), if it returns: what is printed, line for line, with each line of the
//! console what a book of this node gives; and that the journal's file holds, after what it held at first, the whole
//! journal of a book of this node if the last line says so, and a beginning of it in any case. What clients are replied
//! is proved in `q_doors`, to which this node promises that its replies are those of its own books. Only tested: that
//! threads hear, send, wake and end, who gets a seat, how long all takes, and what a disk or a socket holds.
#![tactic(auto)]

mod again;
mod client;
mod clock;
mod command;
mod console;
mod doorway;
mod ending;
mod entrance;
mod fault;
mod front;
mod hearing;
mod job;
mod own;
mod peer;
mod process;
mod run;
mod seats;
mod start;
mod status;
mod talk;
mod talk_end;
mod threads;
mod watch;
pub mod worked;
pub mod worked_console;
pub mod worked_own;

pub use command::run_file;
pub use console::{Command, Said, put_said};
pub use doorway::NodeDoors;
pub use ending::{NodeEnding, close, print_refusal};
pub use fault::StartFault;
pub use own::{Answered, Ended, Heard, Left, Own};
pub use run::{NodeRun, Setup, run_node};
pub use start::Start;
pub use status::Status;
pub use talk_end::Talk;
