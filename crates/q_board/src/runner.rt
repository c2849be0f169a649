//! A runner's round over the board.

ghost use Rattle.std.specs.Prelude.{◌≡◌, Some};
ghost use Rattle.q_board.specs.BoardId.{board_id};
ghost use Rattle.q_board.specs.Calls.{Finishes, is_at};
ghost use Rattle.q_board.specs.Served.{Served, Passed};

use crate::board::Board;
use crate::claim::Claim;
use crate::gate::Gate;
use crate::seats::RunnerSeat;
use bq_frame::Block;
use q_session::{Ran, run_fold};

/// Tries this many slots, in turn from where the seat left off. Runs each job that it claims over the block, between
/// the gate's two calls, and finishes it; gives none back. Answers how many it ran. Takes no memory, and returns if the
/// gate's calls do.
pub fn run_some<G: Gate>(
    board: &Board,
    seat: &mut RunnerSeat,
    block: &mut Block,
    gate: &G,
    looks: u32,
) -> u32
    requires { seat.old.table ≡ board_id board.now }
    ensures served { Served seat.old looks result seat.new }
    ensures passed { Passed (G.entered gate.now) (G.left gate.now) seat.old.finished seat.new.finished }
{
    let mut ran = 0;
    for _ in 0..looks {
        let slot = seat.next();
        if let Some(claim) = board.try_take(seat, slot) {
            run_claim(board, seat, block, gate, claim);
            ran += 1;
        }
    }
    ran
}

// Runs a claimed job over the block, between the gate's two calls, and finishes it. Answers what it came to.
fn run_claim<G: Gate>(
    board: &Board,
    seat: &mut RunnerSeat,
    block: &mut Block,
    gate: &G,
    claim: Claim,
) -> Ran
    requires board { seat.old.table ≡ board_id board.now }
    requires own { is_at seat.old.held claim.slot (Some claim.job) }
    ensures finished { Finishes seat.old claim.slot claim.job result seat.new }
    ensures entered { G.entered gate.now claim.job.query }
    ensures left { G.left gate.now claim.job.query }
{
    let job = claim.job();
    let query = job.query();
    gate.before(query);
    let ran = run_fold(job.certified().certified(), job.view(), job.start(), block);
    board.finish(seat, claim, ran);
    gate.after(query);
    ran
}
