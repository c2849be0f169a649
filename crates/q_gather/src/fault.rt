//! Why journals are not gathered, and the reason that is told of each.

ghost use Rattle.std.specs.Prelude.{◌≡◌};
ghost use Rattle.q_gather.specs.Faults.{reason};
ghost use Rattle.q_gather.specs.declared.fault.GatherFault.TheVariants.{OutOfMemory};

use q_replay::ReplayFault;
use reasons::{Reason, told};
use std::alloc::{AllocError, AllocFailed};

/// Why journals are not gathered. Where several hold, the first of these is answered.
#[derive(Clone, Copy, Debug, PartialEq, Eq)]
pub enum GatherFault {
    /// 57 or 58: at this place, counted from 0, stand the first bytes that are no journal of a book.
    Journal { place: usize, fault: ReplayFault },
    /// 44: two journals are of one node.
    IdUsed,
    /// 49: the heads disagree on the version, the fractions or the founders, or the journal of a founder is missing.
    BadFounders,
    /// 82: the events that are left want messages that were not sent.
    NeverSent,
    /// 99: memory ran out. It may stand in place of any other answer.
    OutOfMemory,
}

impl GatherFault {
    /// The reason by which the fault is told.
    pub fn reason(self) -> Reason
        ensures { result ≡ reason self }
    {
        told!(self, GatherFault: Journal { fault, .. }, IdUsed, BadFounders, NeverSent, OutOfMemory)
    }
}

impl From<AllocError> for GatherFault {
    ghost from_gives = { λ _ e. e ≡ OutOfMemory };

    fn from(_: AllocError) -> GatherFault {
        GatherFault::OutOfMemory
    }
}

impl<T: Drop> From<AllocFailed<T>> for GatherFault {
    ghost from_gives = { λ _ e. e ≡ OutOfMemory };

    fn from(_: AllocFailed<T>) -> GatherFault {
        GatherFault::OutOfMemory
    }
}
