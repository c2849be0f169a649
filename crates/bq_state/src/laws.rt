//! Laws of states, each the contract of a function that does nothing. Whoever needs one at a step
//! calls it there.

ghost use Rattle.std.specs.Prelude.{◌≡◌, ◌++◌, ℕ, List, length, Bool, true, false, Option, Some, Ok};
ghost use Rattle.std.specs.List.{All};
ghost use Rattle.bq_word.specs.declared.Width.{Width};
ghost use Rattle.bq_word.specs.declared.Relation.{Relation};
ghost use Rattle.bq_insn.specs.declared.insn.Insn.{Insn};
ghost use Rattle.bq_insn.specs.declared.insn.Operand.{Operand};
ghost use Rattle.bq_meaning.specs.Place.{Place};
ghost use Rattle.bq_range.specs.Interval.{Interval};
ghost use Rattle.bq_state.specs.Covers.{StateHolds};
ghost use Rattle.bq_state.specs.Kinds.{StateKinds, StateCovers, join_states, entry_state};
ghost use Rattle.bq_state.specs.Rules.{transfer};
ghost use Rattle.bq_state.specs.Edges.{refined, edges};
ghost use Rattle.bq_state.specs.InPlace.{way};
ghost use Rattle.bq_state.specs.Monotone.{StatesAreOrdered, StatesAreMonotone};
ghost use Rattle.bq_state.specs.Plain.{StaysPlain};

use bq_range::laws::rows_are_monotone;

/// A state covers itself, what covers a state covers what that one covers, and the join of two states covers both and
/// no more than any state that covers both.
pub fn states_are_ordered()
    ensures { StatesAreOrdered }
{}

/// What a state says of a machine's registers and of the length of its record, each state that covers it says too.
pub fn covering_says_less()
    ensures { (p : Place) (len : ℕ) (a b : StateKinds) (registers : List (Option ℕ)) → StateCovers a b → StateHolds p len b registers → StateHolds p len a registers }
{}

/// Of less an instruction leaves less: where it breaks no rule of a state, it breaks none of a state that this one
/// covers, and what it leaves of that one is covered. So are each edge of a branch, the edges of an instruction and
/// the joins of covered states. It is said of states of eleven kinds, as the entry's is.
pub fn states_are_monotone()
    ensures { StatesAreMonotone }
{
    rows_are_monotone();
}

/// Where records have one length, the state at the entry knows no register as that length, and so does what comes of
/// such states: it tells the length by its number.
pub fn states_stay_plain()
    ensures { (n : ℕ) → StaysPlain n }
{}

/// The state at the entry has eleven kinds.
pub fn entry_has_eleven()
    ensures { (l : Interval) → length (entry_state l).kinds ≡ 11 }
{}

/// The join of two states of as many registers has as many.
pub fn join_keeps_count()
    ensures { (a b : StateKinds) → length a.kinds ≡ length b.kinds → length (join_states a b).kinds ≡ length a.kinds }
{}

/// An instruction leaves a state of as many registers.
pub fn transfer_keeps_count()
    ensures { (i : Insn) (a b : StateKinds) → transfer i a ≡ Ok b → length b.kinds ≡ length a.kinds }
{}

/// So does each edge of a branch.
pub fn refined_keeps_count()
    ensures { (a b : StateKinds) (w : Width) (r : Relation) (taken : Bool) (d : ℕ) (x : Operand) → refined a w r taken d x ≡ Some b → length b.kinds ≡ length a.kinds }
{}

/// So does each edge of an instruction.
pub fn edges_keep_count()
    ensures { (unit : ℕ) (i : Insn) (a : StateKinds) → All (λ e. length e.1.kinds ≡ length a.kinds) (edges unit i a) }
{}

/// The edges of an instruction are the one to a unit behind it and then that of its jump.
pub fn edges_are_ways()
    ensures { (unit : ℕ) (i : Insn) (a : StateKinds) → edges unit i a ≡ way unit i false a ++ way unit i true a }
{}
