//! There is a thread for each seat: as many runs are held at once as there are runners.

use crate::asker::Asker;
use crate::gate::NAP_MICROS;
use crate::many::ask_all;
use crate::step::StepOutcome;
use crate::trial::{Trial, passes_with};
use q_board::Gate;
use std::alloc::Global;
use std::sync::Wait;
use std::sync::atomic::AtomicU64;
use std::sync::atomic::Ordering::SeqCst;
use std::thread;
use std::thread::Threads;
use std::time::{Clock, Duration};

/// How many runs were let in, let out, and not held long enough, and how many are to be held at once.
#[derive(Drop)]
struct Tally {
    entered: AtomicU64,
    left: AtomicU64,
    late: AtomicU64,
    wanted: u64,
    looks: u64,
}

/// Holds each run until as many are held as are wanted, and no longer than so many looks.
#[derive(Drop)]
struct Muster<'a, R> {
    rt: &'a R,
    tally: &'a Tally,
}

impl Tally {
    /// Whether all that are wanted, and no more, were let in, held at once, and let out.
    fn is_full(&self) -> bool {
        self.entered.load(SeqCst) == self.wanted
            && self.left.load(SeqCst) == self.wanted
            && self.late.load(SeqCst) == 0
    }
}

impl<R: Clock> Muster<'_, R> {
    /// Looks until all runs are let in that are wanted. Whether they were.
    fn wait_for_all(&self) -> bool {
        for _ in 0..self.tally.looks {
            if self.tally.entered.load(SeqCst) >= self.tally.wanted {
                return true;
            }
            thread::sleep(self.rt, Duration::from_micros(NAP_MICROS));
        }
        false
    }
}

impl<R: Clock> Gate for Muster<'_, R> {
    ghost entered = { λ _ _. Unit {0} };

    ghost left = { λ _ _. Unit {0} };

    fn before(&self, _query: usize) {
        self.tally.entered.fetch_add(1, SeqCst);
        if !self.wait_for_all() {
            self.tally.late.fetch_add(1, SeqCst);
        }
    }

    fn after(&self, _query: usize) {
        self.tally.left.fetch_add(1, SeqCst);
    }
}

impl<R: Wait + Clock + Sync> Trial for Muster<'_, R> {
    fn ask(&self, alloc: Global, asker: &mut Asker<'_>) -> bool {
        ask_all(self.rt, alloc, asker, self.tally.wanted) == self.tally.wanted
    }

    fn is_passed(&self) -> bool {
        self.tally.is_full()
    }
}

/// Whether as many runs are held at once as there are runners, where each looks so often; refused where there is no
/// such board.
pub fn musters<R: Wait + Threads + Clock + Sync>(
    rt: &R,
    alloc: Global,
    runners: usize,
    looks: u64,
) -> StepOutcome {
    let tally = Tally {
        entered: AtomicU64::new(0),
        left: AtomicU64::new(0),
        late: AtomicU64::new(0),
        wanted: runners as u64,
        looks,
    };
    passes_with(rt, alloc, runners, &Muster { rt, tally: &tally })
}
