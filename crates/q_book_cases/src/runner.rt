//! The seats of runners at their board.

ghost use Rattle.std.specs.Prelude.{◌≡◌, All};
ghost use Rattle.q_board.specs.BoardId.{board_id};

use crate::step::StepOutcome;
use bq_frame::Block;
use q_board::{Board, Open, RunnerSeat, run_some};
use std::alloc::Global;

/// At how many slots a runner looks: the row of one asker.
const LOOKS: u32 = 8;

/// A runner's seat, the board where it is, and the block over which it runs jobs.
#[derive(Drop)]
pub struct Runner<'b> {
    board: &'b Board,
    seat: RunnerSeat,
    block: Block,
    ghost seated: { seat.table ≡ board_id board.now },
}

/// A seat of the board, with a block.
pub fn runner_at(board: &Board, seat: RunnerSeat, block: Block) -> Runner<'_>
    requires { seat.table ≡ board_id board.now }
{
    Runner { board, seat, block }
}

/// Runners in these seats of a board; none where there is no memory.
pub fn runners(alloc: Global, board: &Board, seats: Vec<RunnerSeat>) -> Option<Vec<Runner<'_>>>
    requires { All (λ s. s.table ≡ board_id board.now) seats.items }
{
    let mut runners = Vec::new(alloc);
    for seat in seats {
        let Ok(block) = Block::new(alloc) else {
            return None;
        };
        if runners.push(runner_at(board, seat, block)).is_err() {
            return None;
        }
    }
    Some(runners)
}

impl Runner<'_> {
    /// Looks at eight slots, and runs each job that it claims: how many.
    pub fn run(&mut self) -> StepOutcome {
        let ran = run_some(self.board, &mut self.seat, &mut self.block, &Open, LOOKS);
        StepOutcome::Count(ran.into())
    }

    /// Looks at the next slot, and gives its job back: whether there was one.
    fn give_next_back(&mut self) -> bool {
        let slot = self.seat.next();
        match self.board.try_take(&mut self.seat, slot) {
            Some(claim) => {
                self.board.give_back(&mut self.seat, claim);
                true
            }
            None => false,
        }
    }

    /// Gives back the job of each of its next claims, so many: how many. It looks at eight slots for each.
    pub fn give_back(&mut self, claims: u64) -> StepOutcome {
        let mut given = 0;
        for _ in 0..claims.saturating_mul(LOOKS.into()) {
            if given < claims && self.give_next_back() {
                given += 1;
            }
        }
        StepOutcome::Count(given)
    }
}
