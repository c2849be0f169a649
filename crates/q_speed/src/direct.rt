//! Folds over records as they lie in memory.

ghost use Rattle.bq_meaning.specs.Place.{record_length};
ghost use Rattle.bq_range.specs.Interval.{IsIn};

use bq_check::Certified;
use bq_frame::Block;
use bq_meaning::{FRAME_LENGTH, Placement, RECORD_LENGTH};
use bq_run::{Registers, run_placed};
use q_speed_program::{Folded, Way, certified};
use std::alloc::Global;

/// Where the frame lies for the machine.
const FRAME: u64 = 4096;

/// Where the record lies for it.
const RECORD: u64 = 8192;

/// One fold by the loop.
fn fold_by_loop(certified: &Certified, records: &[u8], folded: &mut Folded, block: &mut Block)
    requires { IsIn record_length certified.now.lengths }
{
    block.clear_frame();
    let mut registers = Registers::new();
    let mut acc = folded.acc;
    let mut steps = folded.steps;
    let (mut rest, _) = records.as_chunks::<RECORD_LENGTH>();
    while let Some((record, others)) = rest.split_first() {
        block.set_record(record);
        let ended = run_placed(certified, RECORD_LENGTH, acc, block, &mut registers);
        acc = ended.acc;
        steps = steps.wrapping_add(ended.steps);
        rest = others;
    }
    folded.acc = acc;
    folded.steps = steps;
}

/// One fold by the machine.
fn fold_by_machine(
    certified: &Certified,
    placement: &Placement,
    records: &[u8],
    folded: &mut Folded,
)
    requires { IsIn record_length certified.now.lengths }
{
    let mut frame = [0; FRAME_LENGTH];
    let (records, _) = records.as_chunks::<RECORD_LENGTH>();
    for record in records {
        let ended = certified.run_certified(placement, record, &mut frame, folded.acc);
        folded.acc = ended.acc;
        folded.steps = folded.steps.wrapping_add(ended.steps);
    }
}

/// So many folds.
pub(crate) fn folded(alloc: Global, program: &[u8], records: &[u8], way: &Way) -> Option<Folded> {
    let certified = certified(alloc, program)?;
    let placement = Placement::new(FRAME, RECORD)?;
    let mut block = Block::new(alloc).ok()?;
    let mut folded = Folded::from_start(way.start);
    for _ in 0..way.folds {
        folded.acc = way.start;
        if way.is_tested {
            fold_by_machine(&certified, &placement, records, &mut folded);
        } else {
            fold_by_loop(&certified, records, &mut folded, &mut block);
        }
    }
    Some(folded)
}
