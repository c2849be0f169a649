//! A caller of `bq_run` and `bq_frame`.

ghost use Rattle.std.specs.Prelude.{◌≤◌, ℕ, List, length, IfOk};
ghost use Rattle.bq_range.specs.Interval.{IsIn};
ghost use Rattle.bq_meaning.specs.Answers.{zero_frame};
ghost use Rattle.bq_meaning.specs.Place.{Place, IsPlacement};
ghost use Rattle.bq_meaning.specs.Runs.{RecordRun};

use bq_check::Certified;
use bq_frame::Block;
use bq_meaning::Ended;
use bq_run::run;
use std::alloc::{AllocError, Global};

/// One record run from a frame of zeros: its answer and its steps are those that the text has at every placement.
pub fn run_once(
    alloc: Global,
    program: &Certified,
    record: &[u8],
    start: u64,
) -> Result<Ended, AllocError>
    requires { IsIn (length «record».now) program.now.lengths }
    ensures { IfOk result (λ ended. (after : List ℕ) × ((p : Place) → IsPlacement p
        → RecordRun p program.now.text start «record».now zero_frame ended.steps ended.acc after)) }
{
    let mut block = Block::new(alloc)?;
    let ended = run(program, record, start, &mut block);
    Ok(ended)
}
