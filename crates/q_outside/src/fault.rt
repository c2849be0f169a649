//! Why reads, writes and datagrams fail, and the reason that is told of each.

ghost use Rattle.std.specs.Prelude.{◌≡◌, ◌↔◌, IsTrue};
ghost use Rattle.q_outside.specs.Counts.{one_fewer};
ghost use Rattle.q_outside.specs.Faults.{reason};

use reasons::{Reason, told};
use std::alloc::AllocError;

/// 86 TransportFailed: a read or a write failed, and was counted.
#[derive(Clone, Copy, Debug)]
pub struct TransportFailed;

/// Why a call of a transport fails.
#[derive(Clone, Copy, Debug)]
pub enum TransportFault {
    /// 86: the call failed, and was counted.
    Failed,
    /// 99: memory ran out.
    OutOfMemory,
}

impl TransportFault {
    /// The reason by which the fault is told, 86 or 99.
    pub fn reason(self) -> Reason
        ensures { result ≡ reason self }
    {
        told!(self, TransportFault: Failed => TransportFailed, OutOfMemory)
    }
}

impl From<AllocError> for TransportFault {
    ghost use Rattle.q_outside.specs.declared.fault.TransportFault.TheVariants.{OutOfMemory};

    ghost from_gives = { λ _ e. e ≡ OutOfMemory };

    fn from(_error: AllocError) -> Self {
        TransportFault::OutOfMemory
    }
}

/// Counts a call by the number of the one that is to fail: whether it is that one.
pub(crate) fn is_to_fail(failing: &mut u64) -> bool
    ensures told { IsTrue result ↔ (failing.old ≡ 1) }
    ensures counted { failing.new ≡ one_fewer failing.old }
{
    let fails = *failing == 1;
    *failing = failing.saturating_sub(1);
    fails
}
