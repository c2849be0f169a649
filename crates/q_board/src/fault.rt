//! Why a board refuses a call, and the reason that is told of each.

ghost use Rattle.std.specs.Prelude.{◌≡◌};
ghost use Rattle.q_board.specs.Faults.{reason};
ghost use Rattle.q_board.specs.declared.fault.OpenFault.TheVariants.{OutOfMemory};

use reasons::{Reason, told};
use std::alloc::AllocError;

/// 61: eight jobs of the seat are open.
#[derive(Clone, Copy)]
pub struct RowFull;

/// Why no board was opened.
#[derive(Clone, Copy)]
pub enum OpenFault {
    /// 62: there are not 1 to 16 askers and 1 to 64 runners.
    BadCount,
    /// 99.
    OutOfMemory,
}

impl RowFull {
    /// The reason by which the fault is told.
    pub fn reason(self) -> Reason
        ensures { result ≡ Reason.RowFull }
    {
        Reason::RowFull
    }
}

impl OpenFault {
    /// The reason by which the fault is told.
    pub fn reason(self) -> Reason
        ensures { result ≡ reason self }
    {
        told!(self, OpenFault: BadCount, OutOfMemory)
    }
}

impl From<AllocError> for OpenFault {
    ghost from_gives = { λ _ e. e ≡ OutOfMemory };

    fn from(_: AllocError) -> OpenFault {
        OpenFault::OutOfMemory
    }
}
