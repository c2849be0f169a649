//! Why bytes are no journal, and the reason that is told of each.

ghost use Rattle.std.specs.Prelude.{◌≡◌};
ghost use Rattle.q_replay.specs.Faults.{reason, fault_event};

use reasons::{Reason, told};
use std::alloc::AllocError;

/// What is first wrong with bytes that are no journal of a book. Events are counted from 1, and the head is event 0. At
/// one event 57 comes before 58.
#[derive(Clone, Copy, Debug, PartialEq, Eq)]
pub enum ReplayFault {
    /// 57: at this event the bytes are of no form of an event.
    Form { event: usize },
    /// 58: this event is refused, or its answer is not the right one; or the head's fractions or founders are refused.
    Mismatch { event: usize },
    /// 99: memory ran out. It may stand in place of any other answer.
    OutOfMemory,
}

impl ReplayFault {
    /// The reason by which the fault is told.
    pub fn reason(self) -> Reason
        ensures { result ≡ reason self }
    {
        told!(self, ReplayFault: Form { .. } => JournalForm, Mismatch { .. } => JournalMismatch, OutOfMemory)
    }

    /// The event at which the fault stands, counted from 1; the head is event 0.
    pub fn event(&self) -> Option<usize>
        ensures { result ≡ fault_event self.now }
    {
        match self {
            ReplayFault::Form { event } | ReplayFault::Mismatch { event } => Some(*event),
            ReplayFault::OutOfMemory => None,
        }
    }
}

impl From<AllocError> for ReplayFault {
    ghost use Rattle.q_replay.specs.declared.fault.ReplayFault.TheVariants.{OutOfMemory};

    ghost from_gives = { λ _ e. e ≡ OutOfMemory };

    fn from(_: AllocError) -> ReplayFault {
        ReplayFault::OutOfMemory
    }
}
