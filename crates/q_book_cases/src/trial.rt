//! What is asked over a board of its own while runners run, behind a gate.

ghost use Rattle.std.specs.Prelude.{◌≡◌, All};
ghost use Rattle.q_board.specs.BoardId.{board_id};

use crate::asker::{Asker, last_asker};
use crate::step::StepOutcome;
use q_board::{AskerSeat, Board, Gate, RunnerSeat, with_runners};
use std::alloc::Global;
use std::sync::Wait;
use std::thread::Threads;

/// A gate, and what is asked while runners run behind it.
pub trait Trial: Gate + Sync {
    /// Asks in a seat. Whether all answers are right.
    fn ask(&self, alloc: Global, asker: &mut Asker<'_>) -> bool;

    /// Whether the gate was passed as it is to be, once all runners have ended.
    fn is_passed(&self) -> bool;
}

/// Asks in the last of these seats while runners run. Whether the trial is passed.
fn passes<R: Wait + Threads + Sync, T: Trial>(
    rt: &R,
    alloc: Global,
    board: &Board,
    askers: Vec<AskerSeat>,
    runners: Vec<RunnerSeat>,
    trial: &T,
) -> bool
    requires askers { All (λ s. s.table ≡ board_id board.now) askers.items }
    requires runners { All (λ s. s.table ≡ board_id board.now) runners.items }
{
    let Some(mut asker) = last_asker(board, askers) else {
        return false;
    };
    let answered = with_runners(rt, alloc, board, runners, trial, move || -> bool {
        trial.ask(alloc, &mut asker)
    });
    match answered {
        Ok(answered) => answered && trial.is_passed(),
        Err(_) => false,
    }
}

/// Whether a trial is passed with so many runners; refused where there is no such board.
pub fn passes_with<R: Wait + Threads + Sync, T: Trial>(
    rt: &R,
    alloc: Global,
    runners: usize,
    trial: &T,
) -> StepOutcome {
    match Board::open(alloc, 1, runners) {
        Ok((board, askers, runners)) => {
            StepOutcome::of(passes(rt, alloc, &board, askers, runners, trial))
        }
        Err(fault) => StepOutcome::Refused(fault.reason().number()),
    }
}
