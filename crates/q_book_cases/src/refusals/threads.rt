//! Runners in threads of their own.

ghost use Rattle.std.specs.Prelude.{◌≡◌, All};
ghost use Rattle.q_board.specs.BoardId.{board_id};

use crate::asker::{Asker, last_asker};
use crate::founder::Founder;
use crate::many::PUMPS;
use crate::refusals::again::again;
use crate::refusals::alone::{begin, end, found};
use crate::refusals::pump::pump;
use q_board::{AskerSeat, Board, Open, OpenFault, RunnerSeat, with_runners};
use std::sync::Wait;
use std::thread::Threads;
use std::{io, thread};

/// How many runners there are.
const RUNNERS: usize = 2;

/// Pumps until both queries are answered.
fn pump_all(rt: &HostRuntime, asker: &mut Asker<'_>, founder: &mut Founder) -> io::Result<()> {
    for _ in 0..PUMPS {
        pump(rt, asker, founder)?;
        if founder.answer_of(0).is_some() && founder.answer_of(1).is_some() {
            return Ok(());
        }
        thread::yield_now();
    }
    rt.println("no answers")
}

/// Asks two queries, and pumps until they are answered.
fn ask_and_pump(rt: &HostRuntime, asker: &mut Asker<'_>, founder: &mut Founder) -> io::Result<()> {
    begin(rt, founder)?;
    pump_all(rt, asker, founder)?;
    end(rt, founder)
}

/// Asks two queries of a founder, and pumps until they are answered.
fn work(rt: &HostRuntime, mut asker: Asker<'_>) -> io::Result<()> {
    match found(rt) {
        Some(mut founder) => ask_and_pump(rt, &mut asker, &mut founder),
        None => rt.println("no book"),
    }
}

/// The same while runners run. Refused where they cannot be started, before anything is done.
fn among_runners<T: Wait + Threads + Sync>(
    rt: &HostRuntime,
    threads: &T,
    board: &Board,
    askers: Vec<AskerSeat>,
    runners: Vec<RunnerSeat>,
) -> Result<io::Result<()>, OpenFault>
    requires askers { All (λ s. s.table ≡ board_id board.now) askers.items }
    requires runners { All (λ s. s.table ≡ board_id board.now) runners.items }
{
    let Some(asker) = last_asker(board, askers) else {
        return Ok(rt.println("no seat"));
    };
    let done = with_runners(
        threads,
        rt.alloc(),
        board,
        runners,
        &Open,
        move || -> io::Result<()> { work(rt, asker) },
    );
    match done {
        Ok(done) => Ok(done),
        Err(_) => Err(OpenFault::OutOfMemory),
    }
}

/// The same over a board of its own.
fn over_board<T: Wait + Threads + Sync>(
    rt: &HostRuntime,
    threads: &T,
) -> Result<io::Result<()>, OpenFault> {
    match Board::open(rt.alloc(), 1, RUNNERS) {
        Ok((board, askers, runners)) => among_runners(rt, threads, &board, askers, runners),
        Err(fault) => Err(fault),
    }
}

/// Asks two queries, which runners in threads answer.
pub fn run_threads<T: Wait + Threads + Sync>(rt: &HostRuntime, threads: &T) -> io::Result<()> {
    rt.println("-- runners in threads")?;
    match again!(rt, over_board(rt, threads)) {
        Ok(done) => done,
        Err(_) => rt.println("no board"),
    }
}
