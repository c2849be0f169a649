//! Jobs over the board.

ghost use Rattle.std.specs.Prelude.{◌≡◌, ◌+◌, ◌*◌, ◌≤◌, All};
ghost use Rattle.q_board.specs.BoardId.{board_id};
ghost use Rattle.q_board.specs.Calls.{SameAsker, SameRunner};

use crate::jobs::Times;
use anyhow::{Result, anyhow, bail};
use bq_frame::Block;
use q_board::{AskerSeat, Board, Open, ROW, RunnerSeat, with_runners};
use q_session::{Done, Job, run_fold};
use std::alloc::{AllocError, Global};
use std::sync::Wait;
use std::thread;
use std::thread::Threads;
use std::time::{Clock, Instant};

/// Hands jobs over, one behind the other.
pub fn hand<R: Wait + Clock + Alloc<A = Global>>(rt: &R, jobs: Vec<Job>) -> Result<Times> {
    let mut block = Block::new(rt.alloc())?;
    let (board, mut askers, mut runners) = Board::open(rt.alloc(), 1, 1).map_err(|_| anyhow!(
        "no board"
    ))?;
    match (askers.pop(), runners.pop()) {
        (Some(asker), Some(runner)) => time_handing(rt, &board, asker, runner, &mut block, jobs),
        _ => bail!("no seats"),
    }
}

/// How long it takes to hand each job over.
fn time_handing<R: Wait + Clock>(
    rt: &R,
    board: &Board,
    asker: AskerSeat,
    runner: RunnerSeat,
    block: &mut Block,
    jobs: Vec<Job>,
) -> Result<Times>
    requires asker { asker.table ≡ board_id board.now }
    requires runner { runner.table ≡ board_id board.now }
    requires lanes { 8 * asker.number + 8 ≤ runner.lanes }
{
    let start = Instant::now(rt);
    let done = hand_all(board, asker, runner, block, jobs);
    Ok(Times::of(done, start?.elapsed(rt)?))
}

/// Hands each job over; how many results came back.
fn hand_all(
    board: &Board,
    mut asker: AskerSeat,
    mut runner: RunnerSeat,
    block: &mut Block,
    jobs: Vec<Job>,
) -> usize
    requires asker { asker.table ≡ board_id board.now }
    requires runner { runner.table ≡ board_id board.now }
    requires lanes { 8 * asker.number + 8 ≤ runner.lanes }
{
    let mut done: usize = 0;
    for job in jobs {
        if hand_one(board, &mut asker, &mut runner, block, job) {
            done = done.saturating_add(1);
        }
    }
    done
}

/// Offers a job, takes it, runs it, finishes it and takes its result: whether it came.
fn hand_one(
    board: &Board,
    asker: &mut AskerSeat,
    runner: &mut RunnerSeat,
    block: &mut Block,
    job: Job,
) -> bool
    requires asker { asker.old.table ≡ board_id board.now }
    requires runner { runner.old.table ≡ board_id board.now }
    requires lanes { 8 * asker.old.number + 8 ≤ runner.old.lanes }
    ensures asker { SameAsker asker.old asker.new }
    ensures runner { SameRunner runner.old runner.new }
{
    let Ok(slot) = board.offer(asker, job) else {
        return false;
    };
    let Some(claim) = board.try_take(runner, slot) else {
        return false;
    };
    let job = claim.job();
    let ran = run_fold(job.certified().certified(), job.view(), job.start(), block);
    board.finish(runner, claim, ran);
    board.poll(asker, slot).is_some()
}

/// Runs each job where it is; how many there were.
pub fn run_alone<R: Clock + Alloc<A = Global>>(rt: &R, jobs: Vec<Job>) -> Result<Times> {
    let mut block = Block::new(rt.alloc())?;
    time_alone(rt, &mut block, jobs)
}

/// How long it takes to run each job where it is.
fn time_alone<R: Clock>(rt: &R, block: &mut Block, jobs: Vec<Job>) -> Result<Times> {
    let start = Instant::now(rt);
    let done = run_each(block, jobs);
    Ok(Times::of(done, start?.elapsed(rt)?))
}

/// Runs each job; how many there were.
fn run_each(block: &mut Block, jobs: Vec<Job>) -> usize {
    let mut done: usize = 0;
    for job in jobs {
        let _done = Done::run(job, block);
        done = done.saturating_add(1);
    }
    done
}

/// Runs jobs by so many runners.
pub fn run<R>(rt: &R, jobs: Vec<Job>, runners: usize) -> Result<Times>
where
    R: Wait + Threads + Clock + Alloc<A = Global> + Sync,
{
    let (board, mut askers, seats) = Board::open(rt.alloc(), 1, runners).map_err(|_| anyhow!(
        "no board"
    ))?;
    match askers.pop() {
        Some(asker) => time_running(rt, &board, asker, seats, jobs),
        None => bail!("no asker"),
    }
}

/// How long it takes the runners to run all jobs.
fn time_running<R>(
    rt: &R,
    board: &Board,
    asker: AskerSeat,
    seats: Vec<RunnerSeat>,
    jobs: Vec<Job>,
) -> Result<Times>
where
    R: Wait + Threads + Clock + Alloc<A = Global> + Sync,
    requires asker { asker.table ≡ board_id board.now }
    requires runners { All (λ s. s.table ≡ board_id board.now) seats.items }
{
    let start = Instant::now(rt);
    let done = run_all(rt, rt.alloc(), board, asker, seats, jobs);
    Ok(Times::of(done?, start?.elapsed(rt)?))
}

/// Starts the runners, and offers all jobs to them; how many results came back.
fn run_all<R: Wait + Threads + Sync>(
    rt: &R,
    alloc: Global,
    board: &Board,
    asker: AskerSeat,
    seats: Vec<RunnerSeat>,
    jobs: Vec<Job>,
) -> Result<usize, AllocError>
    requires asker { asker.table ≡ board_id board.now }
    requires runners { All (λ s. s.table ≡ board_id board.now) seats.items }
{
    with_runners(
        rt,
        alloc,
        board,
        seats,
        &Open,
        move || -> usize
            requires { asker.table ≡ board_id board.now }
        { offer_all(rt, board, asker, jobs) },
    )
}

/// Offers all jobs, each as soon as there is room, and receives all results.
fn offer_all<R: Wait>(rt: &R, board: &Board, mut asker: AskerSeat, jobs: Vec<Job>) -> usize
    requires { asker.table ≡ board_id board.now }
{
    let mut done: usize = 0;
    for job in jobs {
        for _ in rt.forever() {
            if asker.room() > 0 {
                break;
            }
            done = done.saturating_add(receive(board, &mut asker));
        }
        let _slot = board.offer(&mut asker, job);
    }
    for _ in rt.forever() {
        if asker.room() == ROW {
            break;
        }
        done = done.saturating_add(receive(board, &mut asker));
    }
    done
}

/// Looks once at each open slot; how many results came.
fn receive(board: &Board, asker: &mut AskerSeat) -> usize
    requires { asker.old.table ≡ board_id board.now }
    ensures { asker.new.table ≡ asker.old.table }
{
    let mut done: usize = 0;
    for place in 0..ROW {
        if let Some(slot) = asker.held(place) {
            if board.poll(asker, slot).is_some() {
                done = done.saturating_add(1);
            }
        }
    }
    if done == 0 {
        thread::yield_now();
    }
    done
}
