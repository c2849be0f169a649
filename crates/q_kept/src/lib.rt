//! What the one lock of a node that runs apart keeps: its book with the messages that wait, the recorder of its
//! journal, and what goes again. And that recorder: a journal that is written to a file while its book grows.
//!
//! Proved, over any file ([`Kept`]): settling pumps, then writes what the file lacks of the book's journal, and gives
//! the messages that wait only where that was written whole, so no message leaves before the journal that gave it is
//! written. After a write that failed the node is mute: no message is given at any later time, which for the others is
//! a crash. Messages that are not given, for want of memory too, wait on.
//!
//! What asks for answers goes again, since datagrams are lost ([`Question`]): what an open operation asks, to the nodes
//! that it has not counted, an enter until the node has joined, a join and a leave three times. Asking again changes
//! neither the book nor the file. A [`Letter`] is a message as bytes, with the node to which it goes.
//!
//! Who sends the letters, and when it is time to look, stands above.
//!
//! # The journal's file
//!
//! A [`Recorder`] has a file and knows how much of a book's journal stands there: the head, and how many entries. A
//! call of [`record`] appends just what lacks, the head before the first entry, and asks the system to keep it where
//! that is wanted. After a call that succeeds the file holds the whole journal of the book, behind what it held at
//! first. A write that fails leaves a beginning of the journal there, and nothing is written behind it at any later
//! time: a journal that is cut can be read up to the cut, and one with a hole cannot.
//!
//! A file that already holds the whole journal of a book gets a recorder that goes on after it ([`resumed`]). That
//! recorder appends only the entries that the book gets from now on. A [`look`] asks the system whether the file is
//! still there and has as many bytes as the recorder left. If someone else removed the file, cut it or wrote to it,
//! that counts as a write that failed: nothing is written any more. A file that cannot be asked counts as intact. The
//! contracts do not say when a look finds a change, since they do not say what a file of the system holds.
//!
//! Proved, over any file: after any calls for a book that grows, the file holds what it held at first and then a
//! beginning of the book's journal, which is the head and the entries that the recorder counts unless a write failed
//! (`IsRecorded`). Of what a file of the system holds, and keeps where the power fails, nothing is proved.
//!
//! - [`JournalFile`] is what a journal is written to: [`DiskFile`] is a file of the system, and [`MemoryFile`] is for
//!   tests.
//! - [`head_bytes`] and [`entries_bytes`] of `q_replay` are the bytes that are written.
//! - The laws say that a book grows by each of its calls, and by each call under the lock, and that what stands in the
//!   file stands there still.
//!
//! [`entries_bytes`]: q_replay::entries_bytes
//! [`head_bytes`]: q_replay::head_bytes
//! [`look`]: Recorder::look
//! [`record`]: Recorder::record
//! [`resumed`]: Recorder::resumed
#![tactic(auto)]

mod again;
mod fault;
mod file;
mod giving;
mod kept;
pub mod laws;
pub mod laws_recorder;
mod letter;
mod memory;
mod question;
mod recorder;
pub mod worked;
pub mod worked_recorder;

pub use fault::Unrecorded;
pub use file::{DiskFile, JournalFile};
pub use kept::Kept;
pub use letter::Letter;
pub use memory::MemoryFile;
pub use question::{Question, goes_again};
pub use recorder::Recorder;
