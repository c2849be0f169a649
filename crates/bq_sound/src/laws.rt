//! Laws of notes that pass, each the contract of a function that does nothing. Whoever needs one at a
//! step calls it there. They hold for records of every length that the notes are for.

ghost use Rattle.std.specs.Prelude.{◌≡◌, ℕ, ◌^◌, ◌<◌, ◌≤◌, List, Option, Ok, All};
ghost use Rattle.bq_insn.specs.Insn.{IsInsn};
ghost use Rattle.bq_insn.specs.Slots.{IsText};
ghost use Rattle.bq_insn.specs.declared.insn.Insn.{Insn};
ghost use Rattle.bq_flow.specs.Paths.{IsLongest};
ghost use Rattle.bq_meaning.specs.Place.{Place, IsPlacement, record_room};
ghost use Rattle.bq_meaning.specs.Meaning.{perform};
ghost use Rattle.bq_meaning.specs.Memory.{MachineState as Machine};
ghost use Rattle.bq_range.specs.Interval.{Interval, IsIn};
ghost use Rattle.bq_state.specs.Kinds.{StateKinds, AreLengths};
ghost use Rattle.bq_state.specs.Covers.{StateHolds};
ghost use Rattle.bq_state.specs.Rules.{transfer};
ghost use Rattle.bq_state.specs.Edges.{edges};
ghost use Rattle.bq_sound.specs.Passes.{Passes};
ghost use Rattle.bq_sound.specs.Steps.{IsMachine, IsCovered};
ghost use Rattle.bq_sound.specs.Safe.{AreBytes, IsSafe, LimitIsFree, HasAnswer};

/// An instruction that breaks no rule of a state does not fault in a machine that the state covers. It
/// ends with a word, or goes on along a feasible edge, whose state covers the machine that it leaves.
pub fn step_is_covered()
    ensures { (len : ℕ) (p : Place) (i : Insn) (state after : StateKinds) (m : Machine) → len ≤ record_room → IsPlacement p → IsInsn i → IsMachine len m → StateHolds p len state m.registers → transfer i state ≡ Ok after → IsCovered len p (edges m.unit i after) (perform p i m) }
{}

/// A text whose notes pass never faults: from every accumulator, record of one of the lengths that the notes are for,
/// and frame its record run ends within the longest path, with one answer and one frame that are the same at every
/// placement.
pub fn passing_is_safe()
    ensures { (l : Interval) (text : List Insn) (notes : List (Option StateKinds)) (longest len : ℕ) → AreLengths l → IsText text → Passes l text notes → IsLongest text longest → IsIn len l → IsSafe len text longest }
{}

/// A text whose notes pass has the same record run, with the same outcome, under every limit of at least the longest
/// path.
pub fn limit_is_free()
    ensures { (l : Interval) (text : List Insn) (notes : List (Option StateKinds)) (longest len : ℕ) → AreLengths l → IsText text → Passes l text notes → IsLongest text longest → IsIn len l → LimitIsFree len text longest }
{}

/// A text that is safe for records of so many bytes has an answer over any of them from any start value. It is a word,
/// and takes at most the longest path for each record.
pub fn safe_folds()
    ensures { (len : ℕ) (text : List Insn) (longest : ℕ) (records : List (List ℕ)) (start : ℕ) → IsSafe len text longest → All (AreBytes len) records → start < 2 ^ 64 → HasAnswer text longest records start }
{}
