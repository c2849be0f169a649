//! Why a node does not begin.

ghost use Rattle.std.specs.Prelude.{◌≡◌};
ghost use Rattle.q_node.specs.Faults.{place_of, reason};
ghost use Rattle.q_node.specs.declared.fault.StartFault.TheVariants.{OutOfMemory};

use q_book::BookFault;
use q_journal::JournalFault;
use q_outside::FileFault;
use q_script::ClusterFileFault;
use q_told::RefusalPlace;
use reasons::Reason;
use std::alloc::AllocError;

/// Why a node does not begin.
#[derive(Clone, Copy, Debug, PartialEq, Eq)]
pub enum StartFault {
    /// 87: the file of the cluster is not read, has more than 16 MiB, or is no UTF-8.
    FileFailed,
    /// 9, 45, 49, 44 or 99: the text of the file is refused.
    Cluster(ClusterFileFault),
    /// 81: the file lacks the node.
    NoSuchNode,
    /// 62: there are not 1 to 64 runners.
    BadCount,
    /// 49 or 99: the book of the node is refused.
    Book(BookFault),
    /// 86: the node's socket or its door cannot be opened.
    TransportFailed,
    /// 87, 49, 57, 58 or 99: the node neither begins nor comes back with its journal's file.
    Journal(JournalFault),
    /// 99: memory ran out.
    OutOfMemory,
}

impl StartFault {
    /// The reason by which the fault is told.
    pub fn reason(self) -> Reason
        ensures { result ≡ reason self }
    {
        match self {
            StartFault::FileFailed => Reason::FileFailed,
            StartFault::Journal(fault) => fault.reason(),
            StartFault::Cluster(fault) => fault.reason(),
            StartFault::NoSuchNode => Reason::NoSuchNode,
            StartFault::BadCount => Reason::BadCount,
            StartFault::Book(reason) => reason,
            StartFault::TransportFailed => Reason::TransportFailed,
            StartFault::OutOfMemory => Reason::OutOfMemory,
        }
    }

    /// The line of the file of the cluster, or the event of the journal, that is faulty, if one is.
    pub fn place(self) -> RefusalPlace
        ensures { result ≡ place_of self }
    {
        match self {
            StartFault::Cluster(ClusterFileFault::Syntax { line }) => RefusalPlace::Line(line),
            StartFault::Journal(fault) => match fault.event() {
                Some(event) => RefusalPlace::Event(event),
                None => RefusalPlace::Untold,
            },
            _ => RefusalPlace::Untold,
        }
    }
}

impl From<AllocError> for StartFault {
    ghost from_gives = { λ _ e. e ≡ OutOfMemory };

    fn from(_: AllocError) -> StartFault {
        StartFault::OutOfMemory
    }
}

impl From<JournalFault> for StartFault {
    ghost use Rattle.std.specs.Prelude.{◌≡◌};
    ghost use Rattle.q_node.specs.declared.fault.StartFault.TheVariants.{Journal};

    ghost from_gives = { λ f e. e ≡ Journal f };

    fn from(fault: JournalFault) -> StartFault {
        StartFault::Journal(fault)
    }
}

impl From<FileFault> for StartFault {
    ghost use Rattle.std.specs.Prelude.{◌≡◌};
    ghost use Rattle.q_node.specs.Faults.{fault_of};

    ghost from_gives = { λ f e. e ≡ fault_of f };

    fn from(fault: FileFault) -> StartFault {
        match fault {
            FileFault::Failed => StartFault::FileFailed,
            FileFault::OutOfMemory => StartFault::OutOfMemory,
        }
    }
}
