//! Laws of the states of a text, each the contract of a function that does nothing. Whoever needs one at a
//! step calls it there.

ghost use Rattle.std.specs.Prelude.{◌≢◌, List, Option};
ghost use Rattle.bq_insn.specs.Slots.{units, IsText};
ghost use Rattle.bq_insn.specs.declared.insn.Insn.{Insn};
ghost use Rattle.bq_flow.specs.Paths.{IsLegalFlow};
ghost use Rattle.bq_range.specs.Interval.{Interval};
ghost use Rattle.bq_state.specs.Kinds.{StateKinds, AreLengths};
ghost use Rattle.bq_check.specs.declared.fault.CheckFault.{CheckFault};
ghost use Rattle.bq_check.specs.declared.fault.CheckFault.TheVariants.{OutOfMemory};
ghost use Rattle.bq_verify.specs.States.{AreStates, NoRuleBroken};
ghost use Rattle.bq_verify.specs.Refused.{IsRefused};
ghost use Rattle.bq_verify.specs.Least.{AreLeast, NonePass};
ghost use Rattle.bq_sound.specs.Passes.{Passes};

use bq_state::laws::{states_are_monotone, states_are_ordered, states_stay_plain};

/// The states of a text in which no instruction breaks a rule pass, where its flow is legal. Where records have one
/// length alone, they tell it by its number.
pub fn states_pass()
    ensures { (l : Interval) (text : List Insn) (notes : List (Option StateKinds)) → IsText text → IsLegalFlow text → AreStates l text notes (units text) → NoRuleBroken text notes (units text) → Passes l text notes }
{
    states_are_ordered();
    states_stay_plain();
}

/// The states of a text are covered by those of all notes that pass.
pub fn states_are_least()
    ensures { (l : Interval) (text : List Insn) (notes : List (Option StateKinds)) → AreLengths l → IsText text → AreStates l text notes (units text) → AreLeast l text notes }
{
    states_are_ordered();
    states_are_monotone();
}

/// For a text that is refused no notes pass, unless memory ran out.
pub fn refused_has_no_notes()
    ensures { (l : Interval) (text : List Insn) (fault : CheckFault) → AreLengths l → IsText text → IsRefused l text fault → fault ≢ OutOfMemory → NonePass l text }
{
    states_are_ordered();
    states_are_monotone();
}
