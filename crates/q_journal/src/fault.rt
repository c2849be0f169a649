//! Why a node does not start with the journal's file that is there.

ghost use Rattle.std.specs.Prelude.{◌≡◌};
ghost use Rattle.q_journal.specs.Faults.{fault_event, fault_of_file, fault_of_replay, reason};

use crate::course::Unresumed;
use q_outside::FileFault;
use q_replay::ReplayFault;
use reasons::Reason;
use std::alloc::AllocError;
use std::io;

/// Why a node does not start with the journal's file that is there.
#[derive(Clone, Copy, Debug, PartialEq, Eq)]
pub enum JournalFault {
    /// 87: the file or the note cannot be opened, read, written or cut, or the file has more than 1,024 MB.
    Failed,
    /// 87: the note beside the journal has another form.
    BadNote,
    /// 87: the node may have said what the file lacks, or `--resume` found no journal.
    Unresumed(Unresumed),
    /// 49: the journal is another node's, or this node's with other fractions, founders or another version.
    OtherNode,
    /// 57 or 58: the bytes are no journal.
    Journal(ReplayFault),
    /// 99: memory ran out.
    OutOfMemory,
}

impl JournalFault {
    /// The reason with which the start is refused.
    pub fn reason(self) -> Reason
        ensures { result ≡ reason self }
    {
        match self {
            JournalFault::Failed | JournalFault::BadNote | JournalFault::Unresumed(_) => {
                Reason::FileFailed
            }
            JournalFault::OtherNode => Reason::BadFounders,
            JournalFault::Journal(fault) => fault.reason(),
            JournalFault::OutOfMemory => Reason::OutOfMemory,
        }
    }
}

impl JournalFault {
    /// The event of the journal at which the fault is, counted from 1; the head is event 0.
    pub fn event(self) -> Option<usize>
        ensures { result ≡ fault_event self }
    {
        match self {
            JournalFault::Journal(fault) => fault.event(),
            _ => None,
        }
    }
}

impl From<AllocError> for JournalFault {
    ghost use Rattle.q_journal.specs.declared.fault.JournalFault.TheVariants.{OutOfMemory};

    ghost from_gives = { λ _ e. e ≡ OutOfMemory };

    fn from(_: AllocError) -> JournalFault {
        JournalFault::OutOfMemory
    }
}

impl From<FileFault> for JournalFault {
    ghost from_gives = { λ fault e. e ≡ fault_of_file fault };

    fn from(fault: FileFault) -> JournalFault {
        match fault {
            FileFault::Failed => JournalFault::Failed,
            FileFault::OutOfMemory => JournalFault::OutOfMemory,
        }
    }
}

impl From<ReplayFault> for JournalFault {
    ghost from_gives = { λ fault e. e ≡ fault_of_replay fault };

    fn from(fault: ReplayFault) -> JournalFault {
        match fault {
            ReplayFault::OutOfMemory => JournalFault::OutOfMemory,
            ReplayFault::Form { .. } | ReplayFault::Mismatch { .. } => JournalFault::Journal(fault),
        }
    }
}

impl From<io::Error> for JournalFault {
    fn from(error: io::Error) -> JournalFault {
        match error.kind() {
            io::ErrorKind::OutOfMemory => JournalFault::OutOfMemory,
            _ => JournalFault::Failed,
        }
    }
}
