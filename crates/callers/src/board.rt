//! A caller of `q_board`.

ghost use Rattle.std.specs.Prelude.{◌≡◌, ◌+◌, ◌*◌, ◌≤◌, IfSome};
ghost use Rattle.q_session.specs.Done.{IsFinished};
ghost use Rattle.q_board.specs.BoardId.{board_id};

use bq_frame::Block;
use q_board::{AskerSeat, Board, RunnerSeat};
use q_session::{Done, Job, run_fold};

/// An asker offers a job, a runner runs the job of that slot if it gets one, and the asker looks once. What is done is
/// done right, whatever other threads do at the board; none also stands for eight open jobs.
pub fn offer_and_run(
    board: &Board,
    asker: &mut AskerSeat,
    runner: &mut RunnerSeat,
    block: &mut Block,
    job: Job,
) -> Option<Done>
    requires boards { (asker.old.table ≡ board_id board.now) × (runner.old.table ≡ board_id board.now) }
    requires lanes { 8 * asker.old.number + 8 ≤ runner.old.lanes }
    ensures { IfSome result IsFinished }
{
    let Ok(slot) = board.offer(asker, job) else {
        return None;
    };
    if let Some(claim) = board.try_take(runner, slot) {
        let job = claim.job();
        let ran = run_fold(job.certified().certified(), job.view(), job.start(), block);
        board.finish(runner, claim, ran);
    }
    board.poll(asker, slot)
}
