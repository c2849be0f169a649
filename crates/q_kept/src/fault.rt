//! Why a journal is not recorded, and the reason that is told of each.

ghost use Rattle.std.specs.Prelude.{◌≡◌};
ghost use Rattle.q_kept.specs.Faults.{reason};

use reasons::{Reason, told};
use std::alloc::AllocError;

/// Why a journal is not recorded.
#[derive(Clone, Copy, Debug, PartialEq, Eq)]
pub enum Unrecorded {
    /// 87: a write failed, now or before. Nothing is written from now on.
    Failed,
    /// 99: memory ran out, and nothing was written.
    OutOfMemory,
}

impl Unrecorded {
    /// The reason by which the fault is told, 87 or 99.
    pub fn reason(self) -> Reason
        ensures { result ≡ reason self }
    {
        told!(self, Unrecorded: Failed => FileFailed, OutOfMemory)
    }
}

impl From<AllocError> for Unrecorded {
    ghost use Rattle.q_kept.specs.declared.fault.Unrecorded.TheVariants.{OutOfMemory};

    ghost from_gives = { λ _ e. e ≡ OutOfMemory };

    fn from(_error: AllocError) -> Self {
        Unrecorded::OutOfMemory
    }
}
