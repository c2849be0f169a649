//! Many askers and many runners at once: each job gets one result, its own.

ghost use Rattle.std.specs.Prelude.{◌≡◌, All};
ghost use Rattle.q_board.specs.BoardId.{board_id};

use crate::asker::{Asker, askers};
use crate::founder::Founder;
use crate::requests::furnished;
use crate::step::StepOutcome;
use q_board::{Board, Open, RunnerSeat, with_runners};
use std::alloc::Global;
use std::sync::Wait;
use std::sync::atomic::AtomicU64;
use std::sync::atomic::Ordering::SeqCst;
use std::thread;
use std::thread::{Scope, Threads};

/// How often an asker pumps at most.
pub const PUMPS: u32 = 10_000_000;

/// Asks so many queries, each from its own number. Whether all were asked.
fn ask_each(founder: &mut Founder, queries: u64) -> bool {
    for query in 0..queries {
        if !founder.collect(query) {
            return false;
        }
    }
    true
}

/// Pumps until so many results were recorded. Whether they were, and no more.
fn pump_all(asker: &mut Asker<'_>, founder: &mut Founder, queries: u64) -> bool {
    let mut posted: u64 = 0;
    for _ in 0..PUMPS {
        match asker.pump(&mut founder.book) {
            Ok(more) => posted = posted.saturating_add(more.into()),
            Err(_) => return false,
        }
        if posted >= queries {
            return posted == queries;
        }
        thread::yield_now();
    }
    false
}

/// Asks so many queries, and pumps until all are answered; how many answers are right.
fn ask_of(asker: &mut Asker<'_>, founder: &mut Founder, queries: u64) -> u64 {
    if ask_each(founder, queries) && pump_all(asker, founder, queries) {
        founder.count_right(queries)
    } else {
        0
    }
}

/// The same of a founder of its own.
pub fn ask_all<R: Wait>(rt: &R, alloc: Global, asker: &mut Asker<'_>, queries: u64) -> u64 {
    match furnished(rt, alloc) {
        Some(mut founder) => ask_of(asker, &mut founder, queries),
        None => 0,
    }
}

/// Starts the thread of an asker. Whether it was started.
fn start<'s, E, R: Wait + Threads + Sync>(
    scope: &Scope<'s, E>,
    alloc: Global,
    rt: &'s R,
    mut asker: Asker<'s>,
    queries: u64,
    right: &'s AtomicU64,
) -> bool {
    scope
        .spawn(move || -> u64 { right.fetch_add(ask_all(rt, alloc, &mut asker, queries), SeqCst) })
        .is_ok()
}

/// Starts the threads of the askers.
fn start_all<'s, E, R: Wait + Threads + Sync>(
    scope: &Scope<'s, E>,
    alloc: Global,
    rt: &'s R,
    askers: Vec<Asker<'s>>,
    queries: u64,
    right: &'s AtomicU64,
) -> bool {
    for asker in askers {
        if !start(scope, alloc, rt, asker, queries, right) {
            return false;
        }
    }
    true
}

/// Runs all askers, each in a thread of its own, to their end.
fn ask_in_threads<R: Wait + Threads + Sync>(
    rt: &R,
    alloc: Global,
    askers: Vec<Asker<'_>>,
    queries: u64,
    right: &AtomicU64,
) -> bool {
    thread::scope(thread::scope_env(), rt, move |scope| -> bool {
        start_all(scope, alloc, rt, askers, queries, right)
    })
}

/// How many answers are right, while so many runners run; none where not all threads were started.
fn right_among<R: Wait + Threads + Sync>(
    rt: &R,
    alloc: Global,
    board: &Board,
    askers: Vec<Asker<'_>>,
    runners: Vec<RunnerSeat>,
    queries: u64,
) -> StepOutcome
    requires { All (λ s. s.table ≡ board_id board.now) runners.items }
{
    let right = AtomicU64::new(0);
    let right = &right;
    let all = with_runners(rt, alloc, board, runners, &Open, move || -> bool {
        ask_in_threads(rt, alloc, askers, queries, right)
    });
    match all {
        Ok(true) => StepOutcome::Count(right.load(SeqCst)),
        Ok(false) | Err(_) => StepOutcome::Nothing,
    }
}

/// How many of the answers are right, of so many askers, runners and queries of each asker; refused where there is no
/// such board.
pub fn right_answers<R: Wait + Threads + Sync>(
    rt: &R,
    alloc: Global,
    askers_count: usize,
    runners: usize,
    queries: u64,
) -> StepOutcome {
    match Board::open(alloc, askers_count, runners) {
        Ok((board, seats, runners)) => match askers(alloc, &board, seats) {
            Some(askers) => right_among(rt, alloc, &board, askers, runners, queries),
            None => StepOutcome::Nothing,
        },
        Err(fault) => StepOutcome::Refused(fault.reason().number()),
    }
}
