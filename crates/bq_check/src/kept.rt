//! What the types of ranges and offsets keep of all notes. It is known of a value once it is read, so each is read.

ghost use Rattle.bq_range.specs.Interval.{IsInterval};
ghost use Rattle.bq_state.specs.Offsets.{IsSpan};
ghost use Rattle.bq_check.specs.Spelling.{IsKind, IsState, IsNote, IsNotes};

use crate::form::NotesForm;
use crate::notes::Notes;
use bq_range::Range;
use bq_state::{Kind, Offsets, State};

pub(crate) fn is_interval(range: Range)
    ensures { IsInterval range }
{
    let _ends = (range.lo(), range.hi());
}

pub(crate) fn is_span(offsets: Offsets)
    ensures { IsSpan offsets }
{
    let _ends = (offsets.lo(), offsets.hi());
}

fn is_kind(kind: Kind)
    ensures { IsKind NotesForm.Second kind }
{
    match kind {
        Kind::Unset | Kind::Length => {}
        Kind::Number(range) => is_interval(range),
        Kind::Pointer(_, offsets) => is_span(offsets),
    }
}

fn is_state(state: &State)
    ensures { IsState NotesForm.Second state.now }
{
    let _least = state.lengths().least();
    for kind in state.kinds() {
        is_kind(*kind);
    }
}

fn is_note(note: &Option<State>)
    ensures { IsNote NotesForm.Second note.now }
{
    if let Some(state) = note {
        is_state(state);
    }
}

impl Notes {
    /// At most 4,096 notes. In each state the record has lengths within 16 to 128, and there are eleven kinds, of which
    /// each range is of words and each offset within -65,536 to 65,536, the least first. Its time is that of reading
    /// the notes; it takes no memory.
    pub fn are_notes(&self)
        ensures { IsNotes NotesForm.Second self.now }
    {
        for note in &self.states {
            is_note(note);
        }
    }
}
