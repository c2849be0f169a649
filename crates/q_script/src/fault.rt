//! Why a file is refused.

ghost use Rattle.std.specs.Prelude.{◌≡◌};
ghost use Rattle.q_script.specs.File.{reason};
ghost use Rattle.q_script.specs.declared.fault.ClusterFileFault.TheVariants.{OutOfMemory};

use reasons::{Reason, told};
use std::alloc::{AllocError, AllocFailed};

/// Why a text is not read as a file.
#[derive(Clone, Copy, Debug, PartialEq, Eq)]
pub enum ClusterFileFault {
    /// 9: this is the least line of another form, counted from 1, or that of a 1025th node.
    Syntax {
        /// The line.
        line: usize,
    },
    /// 45: a fraction isn't num / den with 1 <= num <= den <= 1,000.
    BadFraction,
    /// 49: there is no founder, there are more than 256, or their ids do not rise from line to line.
    BadFounders,
    /// 44: two lines have one id or one address.
    IdUsed,
    /// 99: memory ran out.
    OutOfMemory,
}

impl ClusterFileFault {
    /// The reason by which the fault is told: 9, 45, 49, 44 or 99.
    pub fn reason(self) -> Reason
        ensures { result ≡ reason self }
    {
        told!(self, ClusterFileFault: Syntax { .. }, BadFraction, BadFounders, IdUsed, OutOfMemory)
    }
}

impl From<AllocError> for ClusterFileFault {
    ghost from_gives = { λ _ e. e ≡ OutOfMemory };

    fn from(_: AllocError) -> ClusterFileFault {
        ClusterFileFault::OutOfMemory
    }
}

impl<T: Drop> From<AllocFailed<T>> for ClusterFileFault {
    ghost from_gives = { λ _ e. e ≡ OutOfMemory };

    fn from(_: AllocFailed<T>) -> ClusterFileFault {
        ClusterFileFault::OutOfMemory
    }
}
