//! Why nodes are not run, or a line of their script is refused.

ghost use Rattle.std.specs.Prelude.{◌≡◌, Some};
ghost use Rattle.q_nodes.specs.Faults.{bad_founders, no_such_node, place, reason, text, of_fault, memory, of_gather};
ghost use Rattle.q_told.specs.Refusal.{refusal_of};

use q_gather::GatherFault;
use q_outside::FileFault;
use q_told::{Refusal, RefusalPlace};
use reasons::{Reason, told};
use std::alloc::AllocError;
use std::fmt;

/// A refusal. Its text is the line that is printed, without the line feed.
#[derive(Clone, Copy, Debug, PartialEq, Eq)]
pub enum ClusterRunFault {
    /// 62: more than 16 nodes.
    BadCount,
    /// 86: a socket could not be opened.
    TransportFailed,
    /// What a simulated cluster may refuse too.
    Script(Refusal),
}

impl ClusterRunFault {
    /// 81: the cluster has no such node.
    pub fn no_such_node() -> ClusterRunFault
        ensures { result ≡ no_such_node }
    {
        ClusterRunFault::from(Reason::NoSuchNode)
    }

    /// 49: the cluster has no founders.
    pub fn bad_founders() -> ClusterRunFault
        ensures { result ≡ bad_founders }
    {
        ClusterRunFault::from(Reason::BadFounders)
    }

    /// The reason by which the refusal is told.
    pub fn reason(self) -> Reason
        ensures { result ≡ reason self }
    {
        told!(self, ClusterRunFault: BadCount, TransportFailed, Script(refusal))
    }

    /// Where the refusal arose, as its line tells it.
    pub fn place(&self) -> RefusalPlace
        ensures { result ≡ place self.now }
    {
        match self {
            ClusterRunFault::BadCount | ClusterRunFault::TransportFailed => RefusalPlace::Untold,
            ClusterRunFault::Script(refusal) => refusal.place(),
        }
    }
}

impl fmt::Display for ClusterRunFault {
    ghost output = { λ fault. Some (text fault) };

    fn fmt<W: fmt::Write>(&self, f: &mut fmt::Formatter<W>) -> fmt::Result {
        match self {
            ClusterRunFault::BadCount => write!(f, "refused {}", Reason::BadCount),
            ClusterRunFault::TransportFailed => write!(f, "refused {}", Reason::TransportFailed),
            ClusterRunFault::Script(refusal) => write!(f, "{refusal}"),
        }
    }
}

impl From<Reason> for ClusterRunFault {
    ghost from_gives = { λ refusal e. e ≡ of_fault refusal };

    fn from(reason: Reason) -> ClusterRunFault {
        ClusterRunFault::Script(Refusal::Cluster(reason))
    }
}

impl From<FileFault> for ClusterRunFault {
    ghost use Rattle.q_nodes.specs.declared.fault.ClusterRunFault.TheVariants.{Script};

    ghost from_gives = { λ fault e. e ≡ Script (refusal_of fault) };

    fn from(fault: FileFault) -> ClusterRunFault {
        ClusterRunFault::Script(Refusal::from(fault))
    }
}

impl From<AllocError> for ClusterRunFault {
    ghost from_gives = { λ _ e. e ≡ memory };

    fn from(_: AllocError) -> ClusterRunFault {
        ClusterRunFault::Script(Refusal::OutOfMemory)
    }
}

impl From<GatherFault> for ClusterRunFault {
    ghost from_gives = { λ refusal e. e ≡ of_gather refusal };

    fn from(fault: GatherFault) -> ClusterRunFault {
        match fault {
            GatherFault::Journal { fault, .. } => ClusterRunFault::Script(Refusal::Journal(fault)),
            GatherFault::IdUsed => ClusterRunFault::from(Reason::IdUsed),
            GatherFault::BadFounders => ClusterRunFault::bad_founders(),
            GatherFault::NeverSent => ClusterRunFault::from(Reason::NeverSent),
            GatherFault::OutOfMemory => ClusterRunFault::Script(Refusal::OutOfMemory),
        }
    }
}
