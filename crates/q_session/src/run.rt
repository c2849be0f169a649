//! The fold of a program over a view by the loop without tests.

ghost use Rattle.q_session.specs.Records.{HasRecordsWithin};
ghost use Rattle.q_session.specs.Right.{IsRight};

use crate::ran::Ran;
use crate::view_fold::fold_view;
use bq_check::Certified;
use bq_frame::Block;
use sc_view::View;

/// What a certified program comes to over the records of a view, by the loop without tests: the meaning of its text, as
/// RFC 9669 says, over these records in rising order of ids. The first record run begins with the start value and a
/// frame of zeros, each later one with the accumulator and the frame that the one before left. The steps are at most
/// those of the longest path for each record. It runs over a block, whose frame it clears first. The program was
/// checked for records of the lengths that the view has, among others. Takes no memory, and has no failure.
pub fn run_fold(certified: &Certified, view: &View, start: u64, block: &mut Block) -> Ran
    requires { HasRecordsWithin certified.now.lengths view.now }
    ensures { IsRight certified.now view.now start result }
{
    let ended = fold_view(certified, view, start, block);
    Ran {
        acc: ended.acc,
        steps: ended.steps,
    }
}
