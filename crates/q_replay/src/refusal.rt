//! Why an event is not taken.
ghost use Rattle.std.specs.Prelude.{◌≡◌};
ghost use Rattle.q_replay.specs.Taking.{of_book, of_check};
ghost use Rattle.q_replay.specs.declared.refusal.Refusal.TheVariants.{Mismatch, OutOfMemory};

use bq_check::CheckFault;
use q_book::BookFault;
use reasons::passed_on;
use sc_members::BadFraction;
use std::alloc::{AllocError, AllocFailed};

/// Why an event is not taken, or no book begins with a head.
#[derive(Clone, Copy, Debug, PartialEq, Eq)]
pub(crate) enum Refusal {
    /// The call is refused, or an answer is not the right one.
    Mismatch,
    /// Memory ran out.
    OutOfMemory,
}

impl From<BookFault> for Refusal {
    ghost from_gives = { λ fault e. e ≡ of_book fault };

    fn from(fault: BookFault) -> Refusal {
        match fault {
            BookFault::OutOfMemory => Refusal::OutOfMemory,
            _ => Refusal::Mismatch,
        }
    }
}

impl From<CheckFault> for Refusal {
    ghost from_gives = { λ fault e. e ≡ of_check fault };

    fn from(fault: CheckFault) -> Refusal {
        passed_on!(fault, CheckFault as Refusal: OutOfMemory; else Mismatch)
    }
}

impl From<BadFraction> for Refusal {
    ghost from_gives = { λ _ e. e ≡ Mismatch };

    fn from(_: BadFraction) -> Refusal {
        Refusal::Mismatch
    }
}

impl From<AllocError> for Refusal {
    ghost from_gives = { λ _ e. e ≡ OutOfMemory };

    fn from(_: AllocError) -> Refusal {
        Refusal::OutOfMemory
    }
}

impl<T: Drop> From<AllocFailed<T>> for Refusal {
    ghost from_gives = { λ _ e. e ≡ OutOfMemory };

    fn from(_: AllocFailed<T>) -> Refusal {
        Refusal::OutOfMemory
    }
}
