//! The pump between a book and a board, with a runner in the same thread.

ghost use Rattle.std.specs.Prelude.{◌≡◌, All};
ghost use Rattle.q_board.specs.BoardId.{board_id};

use crate::asker::{Asker, last_asker};
use crate::founder::Founder;
use crate::refusals::again::again;
use crate::refusals::alone::{begin, end, found};
use crate::runner::runner_at;
use crate::step::StepOutcome;
use bq_frame::Block;
use q_board::{Board, OpenFault, RunnerSeat};
use std::io;

/// Pumps, and once more where memory is refused: what was posted and handed out before stands.
pub fn pump(rt: &HostRuntime, asker: &mut Asker<'_>, founder: &mut Founder) -> io::Result<()> {
    match again!(rt, asker.pump(&mut founder.book)) {
        Ok(_) => Ok(()),
        Err(reason) => println!(rt; "refused {} {}", reason.number(), reason.name()),
    }
}

/// The last of these runners looks at eight slots, and runs each job that it claims: how many.
fn run_round(rt: &HostRuntime, board: &Board, mut seats: Vec<RunnerSeat>) -> Option<StepOutcome>
    requires { All (λ s. s.table ≡ board_id board.now) seats.items }
{
    let block = again!(rt, Block::new(rt.alloc())).ok()?;
    match seats.pop() {
        Some(seat) => Some(runner_at(board, seat, block).run()),
        None => None,
    }
}

/// Hands jobs to the board, has them run, and posts their results.
fn pump_twice(
    rt: &HostRuntime,
    founder: &mut Founder,
    board: &Board,
    asker: &mut Asker<'_>,
    runners: Vec<RunnerSeat>,
) -> io::Result<()>
    requires { All (λ s. s.table ≡ board_id board.now) runners.items }
{
    pump(rt, asker, founder)?;
    match run_round(rt, board, runners) {
        Some(ran) => println!(rt; "ran {ran}")?,
        None => rt.println("no runner")?,
    }
    pump(rt, asker, founder)
}

/// The same over a board of its own. Refused where there is none, before anything is done.
fn over_board(rt: &HostRuntime, founder: &mut Founder) -> Result<io::Result<()>, OpenFault> {
    match Board::open(rt.alloc(), 1, 1) {
        Ok((board, askers, runners)) => match last_asker(&board, askers) {
            Some(mut asker) => Ok(pump_twice(rt, founder, &board, &mut asker, runners)),
            None => Ok(rt.println("no seat")),
        },
        Err(fault) => Err(fault),
    }
}

/// Asks two queries, which are answered over a board.
fn answer_over_board(rt: &HostRuntime, founder: &mut Founder) -> io::Result<()> {
    begin(rt, founder)?;
    match again!(rt, over_board(rt, founder)) {
        Ok(done) => done?,
        Err(_) => rt.println("no board")?,
    }
    end(rt, founder)
}

/// Asks two queries of a founder, which are answered over a board.
pub fn run_pump(rt: &HostRuntime) -> io::Result<()> {
    rt.println("-- a pump and a runner in one thread")?;
    match found(rt) {
        Some(mut founder) => answer_over_board(rt, &mut founder),
        None => rt.println("no book"),
    }
}
