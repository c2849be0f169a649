//! A run that is held in its gate holds no other one up, where a second runner is there.

use crate::asker::Asker;
use crate::founder::Founder;
use crate::requests::furnished;
use crate::step::StepOutcome;
use crate::trial::{Trial, passes_with};
use q_board::Gate;
use std::alloc::Global;
use std::sync::Wait;
use std::sync::atomic::AtomicBool;
use std::sync::atomic::Ordering::SeqCst;
use std::thread;
use std::thread::Threads;
use std::time::{Clock, Duration};

/// How long a nap lasts, which each side takes between two looks at whether the other has come on.
pub const NAP_MICROS: u64 = 50;

/// What the two sides tell each other, and how often each looks.
#[derive(Drop)]
struct Signs {
    began: AtomicBool,
    answered: AtomicBool,
    late: AtomicBool,
    looks: u64,
}

/// Looks until the sign is given, and no longer than so many looks. Whether it was given.
fn wait_for<R: Clock>(rt: &R, sign: &AtomicBool, looks: u64) -> bool {
    for _ in 0..looks {
        if sign.load(SeqCst) {
            return true;
        }
        thread::sleep(rt, Duration::from_micros(NAP_MICROS));
    }
    false
}

/// Holds query 1 until it is told that query 2 is answered, and no longer than so many looks.
#[derive(Drop)]
struct Held<'a, R> {
    rt: &'a R,
    signs: &'a Signs,
}

impl<R: Clock> Gate for Held<'_, R> {
    ghost entered = { λ _ _. Unit {0} };

    ghost left = { λ _ _. Unit {0} };

    fn before(&self, query: usize) {
        if query == 1 {
            self.signs.began.store(true, SeqCst);
            if !wait_for(self.rt, &self.signs.answered, self.signs.looks) {
                self.signs.late.store(true, SeqCst);
            }
        }
    }

    fn after(&self, _query: usize) {}
}

/// Pumps until the query is answered. Whether it is.
fn pump_until_answered<R: Clock>(
    rt: &R,
    asker: &mut Asker<'_>,
    founder: &mut Founder,
    query: usize,
    looks: u64,
) -> bool {
    for _ in 0..looks {
        if asker.pump(&mut founder.book).is_err() {
            return false;
        }
        if founder.answer_of(query).is_some() {
            return true;
        }
        thread::sleep(rt, Duration::from_micros(NAP_MICROS));
    }
    false
}

/// Query 0 is answered first. Query 2 is asked once query 1 is held, and answered while it is; then query 1 is. Whether
/// all are, and right.
fn ask_three<R: Clock>(
    rt: &R,
    asker: &mut Asker<'_>,
    founder: &mut Founder,
    signs: &Signs,
) -> bool {
    let looks = signs.looks;
    let is_held = founder.collect(0)
        && pump_until_answered(rt, asker, founder, 0, looks)
        && founder.collect(1)
        && asker.pump(&mut founder.book).is_ok()
        && wait_for(rt, &signs.began, looks);
    if !(is_held && founder.collect(2) && pump_until_answered(rt, asker, founder, 2, looks)) {
        return false;
    }
    signs.answered.store(true, SeqCst);
    pump_until_answered(rt, asker, founder, 1, looks) && founder.count_right(3) == 3
}

/// Asks the three queries of a founder of its own. Whether all are answered, and right.
fn answers_three<R: Wait + Clock>(
    rt: &R,
    alloc: Global,
    asker: &mut Asker<'_>,
    signs: &Signs,
) -> bool {
    match furnished(rt, alloc) {
        Some(mut founder) => ask_three(rt, asker, &mut founder, signs),
        None => false,
    }
}

impl<R: Wait + Clock + Sync> Trial for Held<'_, R> {
    fn ask(&self, alloc: Global, asker: &mut Asker<'_>) -> bool {
        answers_three(self.rt, alloc, asker, self.signs)
    }

    /// Whether no run held up another.
    fn is_passed(&self) -> bool {
        !self.signs.late.load(SeqCst)
    }
}

/// Whether the gate is passed by so many runners, where each side looks so often; refused where there is no such board.
pub fn holds_none_up<R: Wait + Threads + Clock + Sync>(
    rt: &R,
    alloc: Global,
    runners: usize,
    looks: u64,
) -> StepOutcome {
    let signs = Signs {
        began: AtomicBool::new(false),
        answered: AtomicBool::new(false),
        late: AtomicBool::new(false),
        looks,
    };
    passes_with(rt, alloc, runners, &Held { rt, signs: &signs })
}
