//! Folds over a view, as a query is answered.

ghost use Rattle.std.specs.Prelude.{◌≤◌, IfSome};
ghost use Rattle.bq_state.specs.Kinds.{view_lengths};
ghost use Rattle.q_session.specs.Records.{HasRecordsWithin};

use bq_frame::Block;
use bq_meaning::RECORD_LENGTH;
use q_session::laws::records_of_values;
use q_session::{fold_checked, run_fold};
use q_speed_program::{Folded, Way, certified};
use sc_view::{Stored, VALUE_LENGTH, Value, View};
use std::alloc::Global;

/// The number in eight bytes.
fn number(bytes: &[u8; RECORD_LENGTH], at: usize) -> u64
    requires { at ≤ 56 }
{
    let mut word = [0; 8];
    word.copy_from_slice(&bytes[at..at + 8]);
    u64::from_le_bytes(word)
}

/// A view with the entries that these records spell.
fn view_of(alloc: Global, records: &[u8]) -> Option<View>
    ensures { IfSome result (HasRecordsWithin view_lengths) }
{
    records_of_values();
    let mut view = View::new(alloc);
    let (records, _) = records.as_chunks::<RECORD_LENGTH>();
    for record in records {
        let value = Value::new(&record[16..]).ok()?;
        let stored = Stored::new(number(record, 8), value)?;
        view.put(number(record, 0), stored).ok()?;
    }
    if !view.has_values_within(VALUE_LENGTH, VALUE_LENGTH) {
        return None;
    }
    Some(view)
}

/// So many folds.
pub(crate) fn folded(alloc: Global, program: &[u8], records: &[u8], way: &Way) -> Option<Folded> {
    let certified = certified(alloc, program)?;
    let view = view_of(alloc, records)?;
    let mut block = Block::new(alloc).ok()?;
    let mut folded = Folded::from_start(way.start);
    for _ in 0..way.folds {
        let ran = if way.is_tested {
            fold_checked(&certified, &view, way.start)
        } else {
            run_fold(&certified, &view, way.start, &mut block)
        };
        folded.acc = ran.acc;
        folded.steps = folded.steps.wrapping_add(ran.steps);
    }
    Some(folded)
}
