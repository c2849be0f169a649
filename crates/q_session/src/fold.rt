//! The fold of a program over a view.

ghost use Rattle.std.specs.Prelude.{◌≡◌, ◌≤◌, ◌+◌, take, length};
ghost use Rattle.q_session.specs.Records.{record_bytes, HasRecordsWithin};
ghost use Rattle.q_session.specs.Right.{IsRight};

use crate::ran::Ran;
use bq_check::Certified;
use bq_meaning::laws::appended;
use bq_meaning::{FRAME_LENGTH, LEAST_RECORD, Placement, RECORD_ROOM};
use sc_view::{Stored, View};

/// Where the frame lies in each run. The answer is the same at every placement.
const FRAME: u64 = 4096;

/// Where the record lies.
const RECORD: u64 = 8192;

/// The reference for tests: what the record runs of a certified program come to over the entries of a view in rising
/// order of ids: the first with the start value and a frame of zeros, each later one with the accumulator and the frame
/// that the one before left. It is the answer at every placement, and takes at most the longest path for each entry.
/// The program was checked for records of their lengths, among others. Takes no memory.
pub fn fold_checked(certified: &Certified, view: &View, start: u64) -> Ran
    requires { HasRecordsWithin certified.now.lengths view.now }
    ensures right { IsRight certified.now view.now start result }
{
    let Some(placement) = Placement::new(FRAME, RECORD) else {
        unreachable!()
    };
    // A record run takes at most 4,096 steps.
    let _longest = certified.longest();
    certified.is_certified();
    let mut frame = [0; FRAME_LENGTH];
    let mut bytes = [0; RECORD_ROOM];
    let mut ran = Ran::begun(start);
    for (id, stored) in view.records() {
        appended();
        let length = write_record(&mut bytes, id, stored);
        let ended = certified.run_certified(&placement, &bytes[..length], &mut frame, ran.acc);
        ran = Ran {
            acc: ended.acc,
            steps: ran.steps + ended.steps,
        };
    }
    ran
}

// The bytes of an entry, which are put first; how many they are is answered.
fn write_record(bytes: &mut [u8; RECORD_ROOM], id: u64, stored: &Stored) -> usize
    ensures few { result ≤ 128 }
    ensures length { result ≡ 16 + length stored.now.value }
    ensures first { take result bytes.new ≡ record_bytes (id, stored.now) }
{
    let value = stored.value().bytes();
    let end = LEAST_RECORD + value.len();
    bytes[..8].copy_from_slice(&id.to_le_bytes());
    bytes[8..LEAST_RECORD].copy_from_slice(&stored.number().to_le_bytes());
    bytes[LEAST_RECORD..end].copy_from_slice(value);
    end
}
