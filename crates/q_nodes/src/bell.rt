//! The bell of the thread that makes the calls.

use q_board::Gate;
use std::sync::{Condvar, Wait};
use std::time::Duration;

/// Is rung where a store has ended and where a job was run, and wakes the thread that waits for that. As a gate it lets
/// every job pass at once.
#[derive(Drop)]
pub(crate) struct Bell {
    condition: Condvar,
}

impl Bell {
    /// One that was not rung.
    pub(crate) fn new() -> Bell {
        Bell {
            condition: Condvar::new(),
        }
    }

    /// Rings it.
    pub(crate) fn ring(&self) {
        self.condition.notify_one();
    }

    /// How often it was rung, wrapping.
    pub(crate) fn rings(&self) -> u64 {
        self.condition.notifications()
    }

    /// Sleeps until it is rung once more than so often, at most so long. It may return before.
    pub(crate) fn await_ring<R: Wait>(&self, rt: &R, rung: u64, most: Duration) {
        self.condition.sleep(rt, rung, most);
    }
}

impl Gate for Bell {
    ghost entered = { λ _ _. Unit {0} };

    ghost left = { λ _ _. Unit {0} };

    fn before(&self, _query: usize) {}

    fn after(&self, _query: usize) {
        self.ring();
    }
}
