//! Why no line of a script is told.

ghost use Rattle.std.specs.Prelude.{◌≡◌, ◌≤◌, ℕ};
ghost use Rattle.q_nodes.specs.Runs.{IsUntold};
ghost use Rattle.q_nodes.specs.Halts.{IsHalt};

use crate::fault::ClusterRunFault;
use q_board::OpenFault;
use std::alloc::AllocError;

/// Why no line of a script is told.
#[derive(Clone, Copy)]
pub enum Halt {
    /// There are not 1 to 16 nodes.
    BadCount,
    /// Memory ran out, or the thread of a runner was not started.
    OutOfMemory,
    /// The thread of this node was not started.
    Thread(u64),
    /// The lock of a node kept the book of another.
    Astray,
}

impl Halt {
    /// The refusal by which it is told.
    pub fn fault(self) -> ClusterRunFault
        ensures { (nodes : ℕ) → IsHalt nodes self → IsUntold nodes result }
    {
        match self {
            Halt::OutOfMemory | Halt::Thread(_) => ClusterRunFault::from(AllocError),
            Halt::Astray => ClusterRunFault::bad_founders(),
            Halt::BadCount => ClusterRunFault::BadCount,
        }
    }

    /// Why there is no board for so many nodes and four runners.
    pub(crate) fn of_board(fault: OpenFault, nodes: u64) -> Halt
        requires { fault ≡ OpenFault.BadCount → ¬ ((1 ≤ nodes) × (nodes ≤ 16)) }
        ensures { IsHalt nodes result }
    {
        match fault {
            OpenFault::BadCount => Halt::BadCount,
            OpenFault::OutOfMemory => Halt::OutOfMemory,
        }
    }
}

impl From<AllocError> for Halt {
    ghost use Rattle.std.specs.Prelude.{◌≡◌};
    ghost use Rattle.q_nodes.specs.declared.halt.Halt.TheVariants.{OutOfMemory};

    ghost from_gives = { λ _ h. h ≡ OutOfMemory };

    fn from(_: AllocError) -> Halt {
        Halt::OutOfMemory
    }
}
