//! Why a node does not start, in sentences: what is wrong, where, and what to do.

use crate::course::Unresumed;
use crate::fault::JournalFault;
use q_replay::ReplayFault;
use std::io;
use std::io::Write;

/// Writes why the node does not start with the journal of this name.
pub(crate) fn explain<N: Write>(notes: &mut N, name: &str, fault: JournalFault) -> io::Result<()> {
    match fault {
        JournalFault::BadNote => writeln!(
            notes,
            "{name}.boot: this note is not of the form `boot ID`, `start N`, `sync true` or `sync false`, one to a \
             line. Enter a node under a new id."
        ),
        JournalFault::Journal(fault) => explain_event(notes, name, fault),
        JournalFault::Unresumed(why) => {
            let sentences = why_not(why);
            writeln!(notes, "{name}: {sentences}")
        }
        JournalFault::Failed | JournalFault::OtherNode | JournalFault::OutOfMemory => {
            let sentences = why_unread(fault);
            writeln!(notes, "{name}: {sentences}")
        }
    }
}

/// Why the node may have said what the file lacks.
fn why_not(why: Unresumed) -> &'static str {
    match why {
        Unresumed::NoJournal => {
            "there is no journal of this name to resume. Leave --resume out to begin."
        }
        Unresumed::Gone => {
            "the journal is gone although this node has run here, so the node would contradict what it said. Enter a \
             node under a new id. Remove the note beside the journal (its name ends in .boot) only if it belongs to \
             another run."
        }
        Unresumed::Unnoted => {
            "the note beside the journal (its name ends in .boot) is missing, so nobody can tell whether the journal \
             has all that the node said. Enter a node under a new id."
        }
        Unresumed::PowerLost => {
            "the machine has restarted since this journal was written, and it was not written with --sync, or its \
             head is not whole, so the disk may lack what the node said. Enter a node under a new id."
        }
    }
}

/// Why the file is not read, or not taken.
fn why_unread(fault: JournalFault) -> &'static str {
    match fault {
        JournalFault::OtherNode => {
            "this is the journal of another node, or of this node with other fractions or founders. Give the journal \
             of this node, or the cluster's file with which it began."
        }
        JournalFault::OutOfMemory => {
            "memory ran out while the journal was read. Start the node again with more memory."
        }
        _ => {
            "the journal, or the note beside it (its name ends in .boot), cannot be opened, read or written, or the \
             journal has more than 1,024 MB. Check the disk and who may write there, and start the node again."
        }
    }
}

/// Writes at which event the bytes are not a journal.
fn explain_event<N: Write>(notes: &mut N, name: &str, fault: ReplayFault) -> io::Result<()> {
    match fault {
        ReplayFault::Form { event: 0 } => writeln!(
            notes,
            "{name}: the file does not begin with the head of a journal. Give the journal of this node."
        ),
        ReplayFault::Form { event } => writeln!(
            notes,
            "{name}, event {event}: the bytes have no form of an event, so the file was damaged or changed. Enter a \
             node under a new id."
        ),
        ReplayFault::Mismatch { event } => writeln!(
            notes,
            "{name}, event {event}: it does not follow from the events before it, so the file was damaged or changed. \
             Enter a node under a new id."
        ),
        ReplayFault::OutOfMemory => {
            let sentences = why_unread(JournalFault::OutOfMemory);
            writeln!(notes, "{name}: {sentences}")
        }
    }
}
