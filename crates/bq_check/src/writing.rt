//! Notes to bytes.

ghost use Rattle.std.specs.Prelude.{◌≡◌, ◌↔◌, ◌<◌, ◌^◌, ◌++◌, Err, IfOk, OnOk};
ghost use Rattle.bq_state.specs.Kinds.{view_lengths};
ghost use Rattle.bq_sound.specs.Passes.{AllFitLengths};
ghost use Rattle.bq_check.specs.Spelling.{range_bytes, span_bytes, region_byte, kind_bytes, lengths_bytes, note_bytes, state_bytes, notes_bytes, IsNotes};

use crate::fault::NotesFault;
use crate::form::NotesForm;
use crate::notes::Notes;
use bq_range::Range;
use bq_state::{Bounds, Kind, Offsets, Region, State};
use spelling::{put_u32, put_u64};
use std::alloc::{AllocError, Global};

// After an error the vector may hold a part of what was to be written.

fn push_range(out: &mut Vec<u8>, range: Range) -> Result<(), AllocError>
    ensures { OnOk result (out.new.items ≡ out.old.items ++ range_bytes range) }
{
    put_u64(out, range.lo())?;
    put_u64(out, range.hi())
}

fn push_offsets(out: &mut Vec<u8>, offsets: Offsets) -> Result<(), AllocError>
    ensures { OnOk result (out.new.items ≡ out.old.items ++ span_bytes offsets) }
{
    put_u32(out, offsets.lo().cast_unsigned())?;
    put_u32(out, offsets.hi().cast_unsigned())
}

fn region_byte(region: Region) -> u8
    ensures { result ≡ region_byte region }
{
    match region {
        Region::Frame => 2,
        Region::Record => 3,
    }
}

fn push_kind(out: &mut Vec<u8>, kind: Kind) -> Result<(), AllocError>
    ensures { OnOk result (out.new.items ≡ out.old.items ++ kind_bytes kind) }
{
    match kind {
        Kind::Unset => Ok(out.push(0)?),
        Kind::Number(range) => {
            out.push(1)?;
            push_range(out, range)
        }
        Kind::Pointer(region, offsets) => {
            out.push(region_byte(region))?;
            push_offsets(out, offsets)
        }
        Kind::Length => Ok(out.push(4)?),
    }
}

fn push_lengths(out: &mut Vec<u8>, form: NotesForm, lengths: Bounds) -> Result<(), AllocError>
    ensures { OnOk result (out.new.items ≡ out.old.items ++ lengths_bytes form lengths) }
{
    match form {
        NotesForm::First => Ok(()),
        NotesForm::Second => {
            out.push(lengths.least())?;
            Ok(out.push(lengths.most())?)
        }
    }
}

fn push_state(out: &mut Vec<u8>, form: NotesForm, state: &State) -> Result<(), AllocError>
    ensures { OnOk result (out.new.items ≡ out.old.items ++ state_bytes form state.now) }
{
    push_lengths(out, form, state.lengths())?;
    for kind in state.kinds() {
        push_kind(out, *kind)?;
    }
    Ok(())
}

fn push_note(out: &mut Vec<u8>, form: NotesForm, note: &Option<State>) -> Result<(), AllocError>
    ensures { OnOk result (out.new.items ≡ out.old.items ++ note_bytes form note.now) }
{
    match note {
        None => Ok(out.push(0)?),
        Some(state) => {
            out.push(1)?;
            push_state(out, form, state)
        }
    }
}

impl Notes {
    // The bytes of the notes in a form.
    fn spelled(&self, alloc: Global, form: NotesForm) -> Result<Vec<u8>, AllocError>
        ensures { IfOk result (λ bytes. bytes.items ≡ notes_bytes form self.now) }
    {
        let mut out = Vec::new(alloc);
        put_u32(&mut out, self.states.len() as u32)?;
        for note in &self.states {
            push_note(&mut out, form, note)?;
        }
        Ok(out)
    }

    /// The bytes of the notes. They are the only bytes that [`Notes::read`] reads as these.
    ///
    /// The one error is that memory ran out (99 OutOfMemory).
    pub fn bytes(&self, alloc: Global) -> Result<Vec<u8>, AllocError>
        ensures legal { IfOk result (λ bytes. IsNotes NotesForm.Second self.now) }
        ensures spelled { IfOk result (λ bytes. bytes.items ≡ notes_bytes NotesForm.Second self.now) }
    {
        self.are_notes();
        self.spelled(alloc, NotesForm::Second)
    }

    /// The bytes of the notes in the first form, or 31 NoteForm where a state is not for records of 64 bytes alone: it
    /// knows a register as the record's length, or the record may have another length than 64. They are the only bytes
    /// that [`Notes::read_v1`] reads as these.
    ///
    /// The other error is that memory ran out (99 OutOfMemory).
    pub fn bytes_v1(&self, alloc: Global) -> Result<Vec<u8>, NotesFault>
        ensures legal { IfOk result (λ bytes. IsNotes NotesForm.First self.now) }
        ensures spelled { IfOk result (λ bytes. bytes.items ≡ notes_bytes NotesForm.First self.now) }

        // What is refused.
        ensures fits { IfOk result (λ bytes. AllFitLengths view_lengths self.now) }
        ensures refused { (result ≡ Err NotesFault.NoteForm) ↔ (AllFitLengths view_lengths self.now → ⊥) }
    {
        self.are_notes();
        if !self.all_fit_lengths(Bounds::of_views()) {
            return Err(NotesFault::NoteForm);
        }
        Ok(self.spelled(alloc, NotesForm::First)?)
    }
}
