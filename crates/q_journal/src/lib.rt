//! The file of a node's journal as a start finds it, and the note of the machine's start beside it.
//!
//! A node writes a journal entry before it sends any message that results from it. So a process that is made of what
//! the file holds cannot be distinguished from a slow one, as long as the file has all that the node said. Whether it
//! has is decided here, before the node's threads run:
//!
//! - The bytes: a proper beginning of the node's own head says that the node said nothing yet; a journal of this node
//!   is replayed up to a torn last event, which is cut off; anything else is refused ([`start_from`]).
//! - The machine: where it has restarted, what was not synced may be lost. A [`BootNote`] beside the journal has the
//!   machine's start, and whether all of the journal is kept on the disk ([`course_of`]).
//!
//! [`open_journal`] does this on the disk, and writes the note. The note and the folder are synced before it returns,
//! and with `--sync` the file too. It explains in sentences why a start is refused.
//!
//! Proved over any file ([`StoredJournal`]): what a start makes of the bytes and of the note, and that a refused start
//! leaves the file as it is. Only tested: what a disk holds, and that the note is there when the power has failed.
#![tactic(auto)]

mod course;
mod disk;
mod explain;
mod fault;
mod note;
mod start;
mod stored;
pub mod worked;

pub use course::{Course, Standing, Unresumed, course_of};
pub use disk::{OpenedJournal, keep_journal, open_journal};
pub use fault::JournalFault;
pub use note::BootNote;
pub use start::{LONGEST_JOURNAL, Resumed, start_from};
pub use stored::{StoredFile, StoredJournal};
