//! The fold of a program over a view by the loop without tests.

ghost use Rattle.std.specs.Prelude.{◌≡◌, ◌+◌, ◌*◌, ◌^◌, ◌<◌, ◌≤◌, All, drop, length, map, take};
ghost use Rattle.bq_range.specs.Interval.{IsIn};
ghost use Rattle.q_session.specs.Folds.{GoesOn, IsFolded};
ghost use Rattle.q_session.specs.Records.{HasRecordsWithin, record_bytes};

use bq_check::Certified;
use bq_frame::Block;
use bq_meaning::laws::appended;
use bq_meaning::{Ended, LEAST_RECORD};
use bq_run::{Registers, run_placed};
use sc_view::{Entry, Stored, View};

/// What a certified program over the records of a view comes to, from a start value: the accumulator after the last
/// record, and all steps. It runs over a block, whose frame it clears first. The program was checked for records of the
/// lengths that the view has, among others. Takes no memory, and has no failure.
pub(crate) fn fold_view(certified: &Certified, view: &View, start: u64, block: &mut Block) -> Ended
    requires { HasRecordsWithin certified.now.lengths view.now }
    ensures { IsFolded certified.now view.now start result.acc result.steps }
{
    // A record run takes at most 4,096 steps.
    let _longest = certified.longest();
    certified.is_certified();
    block.is_block();
    block.clear_frame();
    let mut ran = Ended {
        acc: start,
        steps: 0,
    };
    let mut registers = Registers::new();
    let chunks = view.chunks();
    let mut k = 0;
    while let Some(entries) = chunks.get(k) {
        ran = fold_entries(certified, entries, ran, block, &mut registers);
        k += 1;
    }
    ran
}

// What has been run goes on over the entries of one chunk.
#[inline(always)]
fn fold_entries(
    certified: &Certified,
    entries: &[Entry],
    ran: Ended,
    block: &mut Block,
    registers: &mut Registers,
) -> Ended
    requires lengths { All (λ e. IsIn (16 + length e.1.value) certified.now.lengths) entries.now }
    requires room { ran.steps + certified.now.longest * length entries.now < 2 ^ 64 }
    ensures goes_on { GoesOn certified.now.text (map record_bytes entries.now) ran (take 512 block.old) result (take 512 block.new) }
    ensures within { result.steps ≤ ran.steps + certified.now.longest * length entries.now }
{
    let mut ran = ran;
    let mut rest = entries;
    while let Some((first, others)) = rest.split_first() {
        appended();
        let length = place(block, first.0, &first.1);
        let ended = run_placed(certified, length, ran.acc, block, registers);
        ran = Ended {
            acc: ended.acc,
            steps: ran.steps + ended.steps,
        };
        rest = others;
    }
    ran
}

// The bytes of an entry are put behind the frame; how many they are is answered.
#[inline(always)]
fn place(block: &mut Block, id: u64, stored: &Stored) -> usize
    ensures frame { take 512 block.new ≡ take 512 block.old }
    ensures length { result ≡ 16 + length stored.now.value }
    ensures record { take result (drop 512 block.new) ≡ record_bytes (id, stored.now) }
{
    let value = stored.value();
    let count = value.bytes().len();
    block.set_entry(id, stored.number(), value.room(), count);
    LEAST_RECORD + count
}
