//! Why a source is refused, and the reason that is told of each.

ghost use Rattle.std.specs.Prelude.{◌≡◌};
ghost use Rattle.bq_asm.specs.Source.{reason};
ghost use Rattle.bq_asm.specs.declared.fault.AsmFault.TheVariants.{OutOfMemory};

use reasons::{Reason, told};
use std::alloc::{AllocError, AllocFailed};

/// Why a source is not assembled. Lines are counted from 1, and end at line feeds.
#[derive(Clone, Copy, Debug, PartialEq, Eq)]
pub enum AsmFault {
    /// 9: the least line that is of no form.
    Syntax {
        /// Its number.
        line: usize,
    },
    /// 10: the least line that defines a name a second time, or whose jump names a label that no later
    /// line defines or that is too far for the jump's field. It stands only where each line is of a form.
    Label {
        /// Its number.
        line: usize,
    },
    /// 1: there is no instruction.
    BadLength,
    /// 2: there are more than 4,096 units.
    TooLong,
    /// 99: memory ran out. It may stand in place of any other answer, but of a first line that is of no form.
    OutOfMemory,
}

impl AsmFault {
    /// The reason by which the fault is told.
    pub fn reason(self) -> Reason
        ensures { result ≡ reason self }
    {
        told!(self, AsmFault: Syntax { .. }, Label { .. }, BadLength, TooLong, OutOfMemory)
    }
}

impl From<AllocError> for AsmFault {
    ghost from_gives = { λ _ e. e ≡ OutOfMemory };

    fn from(_error: AllocError) -> Self {
        AsmFault::OutOfMemory
    }
}

impl<T: Drop> From<AllocFailed<T>> for AsmFault {
    ghost from_gives = { λ _ e. e ≡ OutOfMemory };

    fn from(_error: AllocFailed<T>) -> Self {
        AsmFault::OutOfMemory
    }
}
