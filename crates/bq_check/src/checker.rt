//! The checker: whether notes pass for a text, and else their first fault.

ghost use Rattle.std.specs.Prelude.{◌≡◌, ◌<◌, ◌≤◌, ◌↔◌, ℕ, length, IsTrue, IfSome, IfNone, IfOk, IfErr, OnOk, MatchResult, Some, ⊤};
ghost use Rattle.bq_insn.specs.Slots.{units, IsText};
ghost use Rattle.bq_flow.specs.Paths.{IsLongest};
ghost use Rattle.bq_state.specs.Edges.{edges};
ghost use Rattle.bq_state.specs.InPlace.{way};
ghost use Rattle.bq_state.specs.Kinds.{StateKinds, all_lengths};
ghost use Rattle.bq_sound.specs.Passes.{note_at, NoteCovers, AllCovered, IsFine, AllFine, Passes};
ghost use Rattle.bq_check.specs.Certified.{IsCertified};
ghost use Rattle.bq_check.specs.Faults.{MayHaveState, AllMayHaveStates, IsFirstWrongState, IsOpened, IsUnitFault, IsFirstFault};

use crate::certified::Certified;
use crate::fault::CheckFault;
use crate::lengths::fits_lengths;
use crate::notes::Notes;
use bq_code::lower;
use bq_flow::Flow;
use bq_insn::{Insn, Text};
use bq_state::laws::edges_are_ways;
use bq_state::{Bounds, Onward, State, way_on};
use std::alloc::Global;

impl Notes {
    /// Whether the state at a unit covers another; where there is none it does not.
    fn cover(&self, unit: usize, state: &State) -> bool
        ensures { IsTrue result ↔ NoteCovers self.now (unit, state.now) }
    {
        match self.note(unit) {
            Some(note) => note.covers(state),
            None => false,
        }
    }

    /// Whether one way on from an instruction is covered where it leads, given the state that the instruction leaves,
    /// which is used up.
    fn cover_way(&self, unit: usize, insn: &Insn, state: &mut State, jumps: bool) -> bool
        requires { unit < 4096 }
        ensures { IsTrue result ↔ AllCovered self.now (way unit insn.now jumps state.old) }
    {
        match state.follow(unit as u64, insn, jumps) {
            Some(next) => self.cover(next as usize, state),
            None => true,
        }
    }

    /// As [`Notes::cover_edges`], whatever the instruction.
    fn cover_ways(&self, unit: usize, insn: &Insn, after: &mut State) -> bool
        requires { unit < 4096 }
        ensures { IsTrue result ↔ AllCovered self.now (edges unit insn.now after.old) }
    {
        edges_are_ways();
        let mut behind = *after;
        self.cover_way(unit, insn, &mut behind, false) && self.cover_way(unit, insn, after, true)
    }

    /// Whether all edges of an instruction are covered where they lead, given the state that the instruction leaves,
    /// which is used up.
    fn cover_edges(&self, unit: usize, insn: &Insn, after: &mut State) -> bool
        requires { unit < 4096 }
        ensures { IsTrue result ↔ AllCovered self.now (edges unit insn.now after.old) }
    {
        match way_on(unit as u64, insn) {
            Onward::Nowhere => true,
            Onward::To(next) => self.cover(next as usize, after),
            Onward::Branches => self.cover_ways(unit, insn, after),
        }
    }
}

/// Whether a state may stand at a unit: an instruction begins there, and the state fits the lengths.
fn may_have_state(text: &Text, bounds: Bounds, unit: usize, state: &State) -> bool
    ensures { IsTrue result ↔ MayHaveState bounds text.now unit state.now }
{
    text.at(unit).is_some() && fits_lengths(bounds, state)
}

/// Whether every state may stand at a unit: an instruction begins there, and records have several lengths.
fn any_may_have_state(text: &Text, bounds: Bounds, unit: usize) -> bool
    ensures { IsTrue result → (state : StateKinds) → MayHaveState bounds text.now unit state }
{
    text.at(unit).is_some() && bounds.least() != bounds.most()
}

/// Whether the state at a unit, if there is one, may stand there.
fn note_holds(text: &Text, notes: &Notes, bounds: Bounds, unit: usize) -> bool
    ensures right { IsTrue result → (state : StateKinds) → note_at notes.now unit ≡ Some state → MayHaveState bounds text.now unit state }
    ensures wrong { (IsTrue result → ⊥) → (state : StateKinds) × (note_at notes.now unit ≡ Some state) × (MayHaveState bounds text.now unit state → ⊥) }
{
    any_may_have_state(text, bounds, unit)
        || match notes.note(unit) {
            Some(state) => may_have_state(text, bounds, unit, state),
            None => true,
        }
}

/// The first unit with a state that may not stand there.
fn first_wrong_state(text: &Text, notes: &Notes, bounds: Bounds) -> Option<usize>
    ensures found { IfSome result (IsFirstWrongState bounds text.now notes.now) }
    ensures none { IfNone result (AllMayHaveStates bounds text.now notes.now (units text.now)) }
{
    for unit in 0..text.units() {
        if !note_holds(text, notes, bounds, unit) {
            return Some(unit);
        }
    }
    None
}

/// Whether the instruction at a unit with a state is fine.
fn check_unit(notes: &Notes, unit: usize, insn: &Insn, state: &State) -> Result<(), CheckFault>
    requires { unit < 4096 }
    ensures fine { OnOk result (IsFine notes.now unit insn.now state.now) }
    ensures fault { IfErr result (IsUnitFault notes.now unit insn.now state.now) }
{
    let mut after = *state;
    if let Err(rule) = after.apply(insn) {
        return Err(CheckFault::Rule { unit, rule });
    }
    if notes.cover_edges(unit, insn, &mut after) {
        Ok(())
    } else {
        Err(CheckFault::NotCovered { unit })
    }
}

/// Whether all units with a state are fine, in rising order.
fn check_units(text: &Text, notes: &Notes, bounds: Bounds) -> Result<(), CheckFault>
    requires { IsOpened bounds text.now notes.now }
    ensures fine { OnOk result (AllFine text.now notes.now (units text.now)) }
    ensures fault { IfErr result (IsFirstFault bounds text.now notes.now) }
{
    for unit in 0..text.units() {
        if let Some(state) = notes.note(unit) {
            if let Some(insn) = text.at(unit) {
                check_unit(notes, unit, &insn, state)?;
            }
        }
    }
    Ok(())
}

/// What is looked at before the units: the count, the flow, where states stand and the entry. The longest
/// path is answered.
fn open(alloc: Global, text: &Text, notes: &Notes, bounds: Bounds) -> Result<u32, CheckFault>
    ensures legal { OnOk result (IsText text.now) }
    ensures opened { OnOk result (IsOpened bounds text.now notes.now) }
    ensures longest { IfOk result (IsLongest text.now) }
    ensures fault { IfErr result (IsFirstFault bounds text.now notes.now) }
{
    if notes.len() != text.units() {
        return Err(CheckFault::WrongCount);
    }
    let longest = Flow::of(alloc, text)?.longest();
    if let Some(unit) = first_wrong_state(text, notes, bounds) {
        return Err(CheckFault::NoteForm { unit });
    }
    if !notes.cover(0, &State::entry(bounds)) {
        return Err(CheckFault::Entry);
    }
    Ok(longest)
}

/// What [`check_within`] answers.
fn certify(alloc: Global, text: Text, notes: Notes, bounds: Bounds) -> Result<Certified, CheckFault>
    ensures same { IfOk result (λ c. (c.text ≡ text) × (c.notes ≡ notes) × (c.lengths ≡ bounds)) }
    ensures passes { IfOk result IsCertified }
    ensures fault { IfErr result (IsFirstFault bounds text notes) }
{
    let longest = open(alloc, &text, &notes, bounds)?;
    check_units(&text, &notes, bounds)?;
    let _least = bounds.least();
    match lower(alloc, &text) {
        Ok(codes) => Ok(Certified {
            text,
            notes,
            lengths: bounds,
            longest,
            codes,
        }),
        Err(_) => Err(CheckFault::OutOfMemory),
    }
}

/// The text with these notes as a certificate for records of these lengths, where the notes pass; else the first fault:
/// 21 WrongCount, the flow's first fault, 11 to 14, 31 NoteForm at the first unit whose state may not stand there, 22
/// Entry, and then the units with a state in rising order. At one unit that is the first rule that the instruction
/// breaks, 23 to 28 or 30, and then 29 NotCovered. A state may not stand at a second half of a wide instruction, and,
/// where records have one length alone, where it is for other lengths or knows a register as the record's length.
///
/// 99 OutOfMemory may stand in place of any of these answers.
pub fn check_within(
    alloc: Global,
    text: Text,
    notes: Notes,
    bounds: Bounds,
) -> Result<Certified, CheckFault>
    // A certificate is of this very text, these notes and these lengths, and they pass.
    ensures same { IfOk result (λ c. (c.text ≡ text) × (c.notes ≡ notes) × (c.lengths ≡ bounds)) }
    ensures passes { IfOk result IsCertified }

    // What passes is refused for want of memory alone.
    ensures all { Passes bounds text notes → MatchResult result (λ c. ⊤) (λ e. e ≡ CheckFault.OutOfMemory) }

    // Which fault it is.
    ensures fault { IfErr result (IsFirstFault bounds text notes) }
{
    certify(alloc, text, notes, bounds)
}

/// As [`check_within`] of records of all lengths, from 16 to 128 bytes.
pub fn check(alloc: Global, text: Text, notes: Notes) -> Result<Certified, CheckFault>
    ensures same { IfOk result (λ c. (c.text ≡ text) × (c.notes ≡ notes) × (c.lengths ≡ all_lengths)) }
    ensures passes { IfOk result IsCertified }
    ensures all { Passes all_lengths text notes → MatchResult result (λ c. ⊤) (λ e. e ≡ CheckFault.OutOfMemory) }
    ensures fault { IfErr result (IsFirstFault all_lengths text notes) }
{
    check_within(alloc, text, notes, Bounds::all())
}
