//! Bytes to notes.

ghost use Rattle.std.specs.Prelude.{◌≡◌, ◌++◌, List, Option, IfSome, IfNone, IfOk, IfErr, MatchResult};
ghost use Rattle.bq_range.specs.Interval.{IsInterval};
ghost use Rattle.bq_state.specs.Offsets.{IsSpan};
ghost use Rattle.bq_state.specs.declared.kind.Kind.{Kind};
ghost use Rattle.bq_state.specs.Kinds.{StateKinds};
ghost use Rattle.spelling.specs.Codes.{BeginsNone};
ghost use Rattle.bq_check.specs.Spelling.{range_bytes, span_bytes, kind_bytes, kinds_bytes, lengths_bytes, note_bytes, state_bytes, notes_bytes, IsKind, IsKinds, HasLengths, IsState, IsNote, IsNotes};

use crate::fault::NotesFault;
use crate::form::NotesForm;
use crate::notes::Notes;
use bq_insn::MOST_UNITS;
use bq_range::Range;
use bq_state::{Bounds, Kind, Offsets, Region, State};
use spelling::{take_byte, take_u32, take_u64};
use std::alloc::Global;

/// What is left of the bytes of notes. After a refusal it is not used again.
#[derive(Drop)]
struct Reader<'a> {
    rest: &'a [u8],
}

impl<'a> Reader<'a> {
    fn range(&mut self) -> Option<Range>
        ensures legal { IfSome result IsInterval }
        ensures parts { IfSome result (λ r. self.old.rest.now ≡ range_bytes r ++ self.new.rest.now) }
        ensures none { IfNone result (BeginsNone range_bytes IsInterval self.old.rest.now) }
    {
        let lo = take_u64(&mut self.rest)?;
        let hi = take_u64(&mut self.rest)?;
        Range::new(lo, hi)
    }

    fn offsets(&mut self) -> Option<Offsets>
        ensures legal { IfSome result IsSpan }
        ensures parts { IfSome result (λ s. self.old.rest.now ≡ span_bytes s ++ self.new.rest.now) }
        ensures none { IfNone result (BeginsNone span_bytes IsSpan self.old.rest.now) }
    {
        let lo = take_u32(&mut self.rest)?.cast_signed();
        let hi = take_u32(&mut self.rest)?.cast_signed();
        Offsets::new(lo, hi)
    }

    fn kind(&mut self, form: NotesForm) -> Option<Kind>
        ensures legal { IfSome result (IsKind form) }
        ensures parts { IfSome result (λ k. self.old.rest.now ≡ kind_bytes k ++ self.new.rest.now) }
        ensures none { IfNone result (BeginsNone kind_bytes (IsKind form) self.old.rest.now) }
    {
        match take_byte(&mut self.rest)? {
            0 => Some(Kind::Unset),
            1 => Some(Kind::Number(self.range()?)),
            2 => Some(Kind::Pointer(Region::Frame, self.offsets()?)),
            3 => Some(Kind::Pointer(Region::Record, self.offsets()?)),
            4 => match form {
                NotesForm::First => None,
                NotesForm::Second => Some(Kind::Length),
            },
            _ => None,
        }
    }

    /// The kinds of the eleven registers.
    fn kinds(&mut self, form: NotesForm) -> Option<[Kind; 11]>
        ensures legal { IfSome result (IsKinds form) }
        ensures parts { IfSome result (λ ks. self.old.rest.now ≡ kinds_bytes ks ++ self.new.rest.now) }
        ensures none { IfNone result (BeginsNone kinds_bytes (IsKinds form) self.old.rest.now) }
    {
        let mut kinds = [Kind::Unset; 11];
        for register in 0..11 {
            let Some(kind) = self.kind(form) else {
                return None;
            };
            kinds[register] = kind;
        }
        Some(kinds)
    }

    /// The lengths that the record may have.
    fn lengths(&mut self, form: NotesForm) -> Option<Bounds>
        ensures legal { IfSome result (HasLengths form) }
        ensures parts { IfSome result (λ l. self.old.rest.now ≡ lengths_bytes form l ++ self.new.rest.now) }
        ensures none { IfNone result (BeginsNone (lengths_bytes form) (HasLengths form) self.old.rest.now) }
    {
        match form {
            NotesForm::First => Some(Bounds::of_views()),
            NotesForm::Second => {
                let least = take_byte(&mut self.rest)?;
                let most = take_byte(&mut self.rest)?;
                Bounds::new(least, most)
            }
        }
    }

    fn state(&mut self, form: NotesForm) -> Option<State>
        ensures legal { IfSome result (IsState form) }
        ensures parts { IfSome result (λ s. self.old.rest.now ≡ state_bytes form s ++ self.new.rest.now) }
        ensures none { IfNone result (BeginsNone (state_bytes form) (IsState form) self.old.rest.now) }
    {
        let lengths = self.lengths(form)?;
        let kinds = self.kinds(form)?;
        Some(State::new(kinds, lengths))
    }

    /// The state of one unit, or none.
    fn note(&mut self, form: NotesForm) -> Option<Option<State>>
        ensures legal { IfSome result (IsNote form) }
        ensures parts { IfSome result (λ s. self.old.rest.now ≡ note_bytes form s ++ self.new.rest.now) }
        ensures none { IfNone result (BeginsNone (note_bytes form) (IsNote form) self.old.rest.now) }
    {
        match take_byte(&mut self.rest)? {
            0 => Some(None),
            1 => Some(Some(self.state(form)?)),
            _ => None,
        }
    }

    fn notes(&mut self, alloc: Global, form: NotesForm) -> Result<Notes, NotesFault>
        ensures legal { IfOk result (IsNotes form) }
        ensures parts { IfOk result (λ n. self.old.rest.now ≡ notes_bytes form n ++ self.new.rest.now) }
        ensures fault { IfErr result (λ e. e ≡ NotesFault.NoteForm → BeginsNone (notes_bytes form) (IsNotes form) self.old.rest.now) }
    {
        let Some(count) = take_u32(&mut self.rest) else {
            return Err(NotesFault::NoteForm);
        };
        if count as usize > MOST_UNITS {
            return Err(NotesFault::NoteForm);
        }
        let mut states = Vec::new(alloc);
        for _ in 0..count {
            let Some(note) = self.note(form) else {
                return Err(NotesFault::NoteForm);
            };
            states.push(note)?;
        }
        Ok(Notes { states })
    }
}

/// The notes that the bytes spell in a form.
fn notes_of(alloc: Global, form: NotesForm, bytes: &[u8]) -> Result<Notes, NotesFault>
    ensures legal { IfOk result (IsNotes form) }
    ensures spelled { IfOk result (λ n. bytes.now ≡ notes_bytes form n) }
    ensures refused { IfErr result (λ e. e ≡ NotesFault.NoteForm → (n : List (Option StateKinds)) → IsNotes form n → bytes.now ≡ notes_bytes form n → ⊥) }
{
    let mut reader = Reader { rest: bytes };
    let notes = reader.notes(alloc, form)?;
    if !reader.rest.is_empty() {
        return Err(NotesFault::NoteForm);
    }
    Ok(notes)
}

impl Notes {
    /// The notes that the bytes spell, or 31 NoteForm where they spell none: a count of four bytes,
    /// at most 4,096, and for each unit a byte 0, or a byte 1, the least and the greatest length that
    /// the record may have, one byte each, in order and within 16 to 128, and the kinds of r0 to r10.
    /// A kind is a byte 0 for a register of which nothing is known; 1 and the least and the greatest of
    /// its numbers, eight bytes each; 2 for a pointer into the frame or 3 into the record, and the
    /// least and the greatest of its offsets, four bytes each in two's complement and within -65,536
    /// to 65,536; or 4 for the record's length. Numbers have their lowest byte first, and nothing
    /// follows the last note.
    ///
    /// 99 OutOfMemory may stand in place of either answer.
    pub fn read(alloc: Global, bytes: &[u8]) -> Result<Notes, NotesFault>
        // What is read are notes that are spelled so.
        ensures legal { IfOk result (IsNotes NotesForm.Second) }
        ensures spelled { IfOk result (λ n. bytes.now ≡ notes_bytes NotesForm.Second n) }

        // What spells notes is read as these, unless memory runs out.
        ensures all { (n : List (Option StateKinds)) → IsNotes NotesForm.Second n → bytes.now ≡ notes_bytes NotesForm.Second n → MatchResult result (λ m. m ≡ n) (λ e. e ≡ NotesFault.OutOfMemory) }
    {
        notes_of(alloc, NotesForm::Second, bytes)
    }

    /// The notes that the bytes spell in the first form, or 31 NoteForm where they spell none so: as those that
    /// [`Notes::read`] takes, but without the two lengths, and with no kind 4. Each state is for records of 64 bytes.
    ///
    /// 99 OutOfMemory may stand in place of either answer.
    pub fn read_v1(alloc: Global, bytes: &[u8]) -> Result<Notes, NotesFault>
        // What is read are notes that are spelled so.
        ensures legal { IfOk result (IsNotes NotesForm.First) }
        ensures spelled { IfOk result (λ n. bytes.now ≡ notes_bytes NotesForm.First n) }

        // What spells notes is read as these, unless memory runs out.
        ensures all { (n : List (Option StateKinds)) → IsNotes NotesForm.First n → bytes.now ≡ notes_bytes NotesForm.First n → MatchResult result (λ m. m ≡ n) (λ e. e ≡ NotesFault.OutOfMemory) }
    {
        notes_of(alloc, NotesForm::First, bytes)
    }
}
