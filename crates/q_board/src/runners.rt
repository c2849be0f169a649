//! Runners in threads of their own.

ghost use Rattle.std.specs.Prelude.{◌≡◌, All, IfOk};
ghost use Rattle.q_board.specs.BoardId.{board_id};

use crate::board::{Board, MOST_ASKERS};
use crate::gate::Gate;
use crate::runner::run_some;
use crate::seats::RunnerSeat;
use bq_frame::Block;
use std::alloc::{AllocError, Global};
use std::sync::Wait;
use std::sync::atomic::AtomicBool;
use std::sync::atomic::Ordering::SeqCst;
use std::thread;
use std::thread::{Scope, Threads};
use std::time::Duration;

/// How many slots a runner's thread tries at once: as many as one asker has. More of them slow the askers down, whose
/// words they contend for.
const LOOKS: u32 = 8;

/// For how long a runner's thread sleeps at most where no slot was ready.
const NAP_MILLIS: u64 = 1_000;

/// Starts a thread for each seat, which runs the board's jobs over a block of its own. Once all are started, calls
/// `work` in this thread, and then stops and joins the others. Where a block or a thread can't be had, `work` isn't
/// called, the threads that were started are joined, and it is refused with 99 OutOfMemory. The seats are used up.
pub fn with_runners<R, G, T, W>(
    rt: &R,
    alloc: Global,
    board: &Board,
    seats: Vec<RunnerSeat>,
    gate: &G,
    work: W,
) -> Result<T, AllocError>
where
    R: Wait + Threads + Sync,
    G: Gate + Sync,
    T: Drop,
    W: FnOnce() -> T + Drop,
    requires seats { All (λ s. s.table ≡ board_id board.now) seats.items }
    requires work { W.pre work }
    ensures { IfOk result (λ answer. W.post work answer) }
{
    let over = AtomicBool::new(false);
    let over = &over;
    thread::scope(
        thread::scope_env(),
        rt,
        move |scope| -> Result<T, AllocError>
            requires seats { All (λ s. s.table ≡ board_id board.now) seats.items }
            requires work { W.pre work }
            ensures { IfOk result (λ answer. W.post work answer) }
        {
            let answer = if start_all(scope, rt, alloc, board, seats, gate, over) {
                Ok(work())
            } else {
                Err(AllocError)
            };
            over.store(true, SeqCst);
            board.wake_all();
            answer
        },
    )
}

// Starts a thread for each seat, until one has no block or can't be started. Answers whether all were.
fn start_all<'s, E, R: Wait + Threads + Sync, G: Gate + Sync>(
    scope: &Scope<'s, E>,
    rt: &'s R,
    alloc: Global,
    board: &'s Board,
    seats: Vec<RunnerSeat>,
    gate: &'s G,
    over: &'s AtomicBool,
) -> bool
    requires { All (λ s. s.table ≡ board_id board.now) seats.items }
{
    for seat in seats {
        let Ok(block) = Block::new(alloc) else {
            return false;
        };
        if !start(scope, rt, board, seat, block, gate, over) {
            return false;
        }
    }
    true
}

// Starts the thread of a seat. Answers whether it was started.
fn start<'s, E, R: Wait + Threads + Sync, G: Gate + Sync>(
    scope: &Scope<'s, E>,
    rt: &'s R,
    board: &'s Board,
    seat: RunnerSeat,
    block: Block,
    gate: &'s G,
    over: &'s AtomicBool,
) -> bool
    requires { seat.table ≡ board_id board.now }
{
    scope
        .spawn(
            move ||
                requires { seat.table ≡ board_id board.now }
            { run_until(rt, board, seat, block, gate, over) },
        )
        .is_ok()
}

// Runs the board's jobs until the work is over, and sleeps while none is ready.
fn run_until<R: Wait, G: Gate>(
    rt: &R,
    board: &Board,
    mut seat: RunnerSeat,
    mut block: Block,
    gate: &G,
    over: &AtomicBool,
)
    requires { seat.table ≡ board_id board.now }
{
    for _ in rt.forever() {
        if over.load(SeqCst) {
            break;
        }
        if !run_any(board, &mut seat, &mut block, gate) {
            nap(rt, board, &mut seat, &mut block, gate, over);
        }
    }
}

// Looks once more, as one who is about to sleep, and sleeps where there was nothing to do. So an offer that comes
// later, and the end of the work, end the sleep.
fn nap<R: Wait, G: Gate>(
    rt: &R,
    board: &Board,
    seat: &mut RunnerSeat,
    block: &mut Block,
    gate: &G,
    over: &AtomicBool,
)
    requires { seat.old.table ≡ board_id board.now }
    ensures { seat.new.table ≡ seat.old.table }
{
    let drowsy = board.drowse();
    if over.load(SeqCst) || run_any(board, seat, block, gate) {
        board.rouse(drowsy);
    } else {
        board.sleep(rt, drowsy, Duration::from_millis(NAP_MILLIS));
    }
}

// Tries as many slots as a board has at most, and gives way in between, until one was ready: whether one was.
fn run_any<G: Gate>(board: &Board, seat: &mut RunnerSeat, block: &mut Block, gate: &G) -> bool
    requires { seat.old.table ≡ board_id board.now }
    ensures { seat.new.table ≡ seat.old.table }
{
    for _ in 0..MOST_ASKERS {
        if run_some(board, seat, block, gate, LOOKS) > 0 {
            return true;
        }
        thread::yield_now();
    }
    false
}
