//! Record runs of certificates.

ghost use Rattle.std.specs.Prelude.{◌<◌, ◌≤◌, length, All};
ghost use Rattle.bq_meaning.specs.Place.{Place, IsPlacement};
ghost use Rattle.bq_meaning.specs.Runs.{RecordRun};
ghost use Rattle.bq_range.specs.Interval.{IsIn};

use crate::certified::Certified;
use bq_meaning::{Ended, FRAME_LENGTH, Placement, run_checked};

// Each byte is below 256.
fn are_bytes(bytes: &[u8])
    ensures { All (λ b. b < 256) bytes.now }
{
    let _count = bytes.len();
}

impl Certified {
    /// One record run of the text over a record of one of its lengths, from an accumulator and a frame. It has no
    /// fault and ends within the longest path.
    pub fn run_certified(
        &self,
        placement: &Placement,
        record: &[u8],
        frame: &mut [u8; FRAME_LENGTH],
        acc: u64,
    ) -> Ended
        requires { IsIn (length «record».now) self.now.lengths }

        // It is the record run at this placement.
        ensures run { RecordRun placement.now self.now.text acc «record».now frame.old result.steps result.acc frame.new }
        ensures within { result.steps ≤ self.now.longest }

        // Every other placement gives the same answer and the same frame.
        ensures alike { (p : Place) → IsPlacement p → RecordRun p self.now.text acc «record».now frame.old result.steps result.acc frame.new }
    {
        let _lengths = self.lengths();
        are_bytes(record);
        self.is_safe();
        placement.is_placement();
        let limit = u64::from(self.longest());
        match run_checked(self.text(), placement, record, frame, acc, limit) {
            Ok(ended) => ended,
            Err(_) => unreachable!(),
        }
    }
}
