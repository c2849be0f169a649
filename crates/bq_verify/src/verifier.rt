//! The pass over the units.

ghost use Rattle.std.specs.Prelude.{◌≡◌, ◌≢◌, ℕ, ◌<◌, ◌≤◌, IfOk, IfErr, List, Option, Some, None, Ok, Err, length};
ghost use Rattle.bq_insn.specs.Slots.{units};
ghost use Rattle.bq_state.specs.declared.rule.Rule.{Rule};
ghost use Rattle.bq_state.specs.Kinds.{StateKinds, entry_state, all_lengths};
ghost use Rattle.bq_state.specs.Rules.{transfer};
ghost use Rattle.bq_state.specs.Edges.{edges};
ghost use Rattle.bq_state.specs.InPlace.{way};
ghost use Rattle.bq_sound.specs.Passes.{Passes, note_at};
ghost use Rattle.bq_verify.specs.States.{AreStates};
ghost use Rattle.bq_verify.specs.Refused.{IsRefused, IsBelow};
ghost use Rattle.bq_verify.specs.Least.{AreLeast, NonePass};
ghost use Rattle.bq_verify.specs.Table.{with_arrival, with_arrivals, IsFilled, AllWithin};

use crate::laws::{refused_has_no_notes, states_are_least, states_pass};
use bq_check::{CheckFault, Notes};
use bq_flow::Flow;
use bq_insn::{Insn, Text};
use bq_state::laws::edges_are_ways;
use bq_state::{Bounds, Onward, State, way_on};
use std::alloc::{AllocError, Global};

/// The states of so many units, of which the first alone has one: that of the entry.
fn entered(alloc: Global, units: usize, bounds: Bounds) -> Result<Vec<Option<State>>, AllocError>
    requires { 0 < units }
    ensures count { IfOk result (λ states. length states.items ≡ units) }
    ensures first { IfOk result (λ states. note_at states.items 0 ≡ Some (entry_state bounds)) }
    ensures others { IfOk result (λ states. (unit : ℕ) → 0 < unit → note_at states.items unit ≡ None) }
{
    let mut states = vec![in alloc; None; units]?;
    states[0] = Some(State::entry(bounds));
    Ok(states)
}

/// A state arrives at a unit.
#[inline(always)]
fn arrive(states: &mut Vec<Option<State>>, unit: usize, state: &State)
    requires { unit < length states.old.items }
    ensures { states.new.items ≡ with_arrival states.old.items (unit, state.now) }
{
    match &mut states[unit] {
        Some(joined) => joined.join_with(state),
        none => *none = Some(*state),
    }
}

/// Where one way on from an instruction leads, the state there arrives, given the state that the instruction leaves,
/// which is used up.
fn arrive_by(
    states: &mut Vec<Option<State>>,
    unit: usize,
    insn: &Insn,
    state: &mut State,
    jumps: bool,
)
    requires within { unit < 4096 }
    requires edges { AllWithin states.old.items (way unit insn.now jumps state.old) }
    ensures { states.new.items ≡ with_arrivals states.old.items (way unit insn.now jumps state.old) }
{
    if let Some(next) = state.follow(unit as u64, insn, jumps) {
        arrive(states, next as usize, state);
    }
}

/// As [`arrive_on`], whatever the instruction.
fn arrive_by_both(states: &mut Vec<Option<State>>, unit: usize, insn: &Insn, after: &mut State)
    requires within { unit < 4096 }
    requires edges { AllWithin states.old.items (edges unit insn.now after.old) }
    ensures { states.new.items ≡ with_arrivals states.old.items (edges unit insn.now after.old) }
{
    edges_are_ways();
    let mut behind = *after;
    arrive_by(states, unit, insn, &mut behind, false);
    arrive_by(states, unit, insn, after, true);
}

/// What the instruction at a unit leaves arrives where its feasible edges lead. The state is used up.
fn arrive_on(states: &mut Vec<Option<State>>, unit: usize, insn: &Insn, after: &mut State)
    requires within { unit < 4096 }
    requires edges { AllWithin states.old.items (edges unit insn.now after.old) }
    ensures { states.new.items ≡ with_arrivals states.old.items (edges unit insn.now after.old) }
{
    match way_on(unit as u64, insn) {
        Onward::Nowhere => {}
        Onward::To(next) => arrive(states, next as usize, after),
        Onward::Branches => arrive_by_both(states, unit, insn, after),
    }
}

/// What the instruction at a unit leaves of its state arrives where its feasible edges lead; or the rule that it
/// breaks is answered. The state is used up.
fn lead_on(
    states: &mut Vec<Option<State>>,
    unit: usize,
    insn: &Insn,
    state: &mut State,
) -> Result<(), CheckFault>
    requires within { unit < 4096 }
    requires edges { (after : StateKinds) → transfer insn.now state.old ≡ Ok after → AllWithin states.old.items (edges unit insn.now after) }
    ensures ok { IfOk result (λ _. (after : StateKinds) × (transfer insn.now state.old ≡ Ok after) × (states.new.items ≡ with_arrivals states.old.items (edges unit insn.now after))) }
    ensures err { IfErr result (λ fault. (rule : Rule) × (fault ≡ CheckFault.Rule unit rule) × (transfer insn.now state.old ≡ Err rule)) }
{
    if let Err(rule) = state.apply(insn) {
        return Err(CheckFault::Rule { unit, rule });
    }
    arrive_on(states, unit, insn, state);
    Ok(())
}

/// The states that the units below `end` lead to: those of the units up to `end` are done.
fn fill(
    alloc: Global,
    text: &Text,
    bounds: Bounds,
    end: usize,
) -> Result<Vec<Option<State>>, CheckFault>
    requires { end ≤ units text.now }
    ensures filled { IfOk result (λ states. IsFilled bounds text.now states.items end) }
    ensures refused { IfErr result (IsRefused bounds text.now) }
    ensures below { IfErr result (IsBelow end) }
{
    Flow::of(alloc, text)?;
    let Ok(mut states) = entered(alloc, text.units(), bounds) else {
        return Err(CheckFault::OutOfMemory);
    };
    for unit in 0..end {
        if let (Some(insn), Some(mut state)) = (text.at(unit), states[unit]) {
            lead_on(&mut states, unit, &insn, &mut state)?;
        }
    }
    Ok(states)
}

/// The notes of a text for records of these lengths: in rising order of the units the state of each is the join of what
/// its feasible predecessors leave, that of unit 0 of the entry too, and a unit that none of them reaches has none.
/// They pass the checker, and each is covered by the state there of all notes that pass: none say more.
///
/// Refused with the first fault of the flow (11 Backward, 12 OutsideText, 13 IntoWide, 14 FallsOff), or
/// with the first rule, in rising order of the units, that an instruction breaks in its state (23 to 28
/// and 30): for such a text no notes pass. Else with 99 OutOfMemory. One pass: its time is linear in the number of
/// units.
pub fn verify_within(alloc: Global, text: &Text, bounds: Bounds) -> Result<Notes, CheckFault>
    // The states of the text. They pass, and say the most of all notes that pass.
    ensures states { IfOk result (λ notes. AreStates bounds text.now notes (units text.now)) }
    ensures passes { IfOk result (Passes bounds text.now) }
    ensures least { IfOk result (AreLeast bounds text.now) }

    // What is refused, and no notes pass for it, unless memory ran out.
    ensures refused { IfErr result (IsRefused bounds text.now) }
    ensures none { IfErr result (λ fault. fault ≢ CheckFault.OutOfMemory → NonePass bounds text.now) }
{
    states_pass();
    states_are_least();
    refused_has_no_notes();
    let _least = bounds.least();
    let states = fill(alloc, text, bounds, text.units())?;
    Ok(Notes::new(states))
}

/// As [`verify_within`] for records of all lengths, from 16 to 128 bytes.
pub fn verify(alloc: Global, text: &Text) -> Result<Notes, CheckFault>
    ensures states { IfOk result (λ notes. AreStates all_lengths text.now notes (units text.now)) }
    ensures passes { IfOk result (Passes all_lengths text.now) }
    ensures least { IfOk result (AreLeast all_lengths text.now) }
    ensures refused { IfErr result (IsRefused all_lengths text.now) }
    ensures none { IfErr result (λ fault. fault ≢ CheckFault.OutOfMemory → NonePass all_lengths text.now) }
{
    verify_within(alloc, text, Bounds::all())
}

/// What is known where the instruction at a unit begins, from the units below it, for records of these lengths; none
/// where nothing reaches it. It tells why `verify_within` refuses a text at that unit. Behind the text it is none of
/// every text.
///
/// Refused as by `verify_within` where the flow is refused, or where an instruction below the unit breaks a rule: where
/// it answers, neither is so. 99 OutOfMemory may stand in place of any answer at a unit of the text.
pub fn state_at(
    alloc: Global,
    text: &Text,
    bounds: Bounds,
    unit: usize,
) -> Result<Option<State>, CheckFault>
    ensures state { IfOk result (λ state. unit < units text.now → (notes : List (Option StateKinds)) × IsFilled bounds text.now notes unit × (state ≡ note_at notes unit)) }
    ensures behind { units text.now ≤ unit → result ≡ Ok None }
    ensures refused { IfErr result (IsRefused bounds text.now) }
    ensures below { IfErr result (IsBelow unit) }
{
    if text.units() <= unit {
        return Ok(None);
    }
    let states = fill(alloc, text, bounds, unit)?;
    Ok(states[unit])
}
