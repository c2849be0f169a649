//! Laws of notes and of their faults, each the contract of a function that does nothing. Whoever needs
//! one at a step calls it there.

ghost use Rattle.std.specs.Prelude.{◌≡◌, List, Option};
ghost use Rattle.bq_insn.specs.declared.insn.Insn.{Insn};
ghost use Rattle.bq_range.specs.Interval.{Interval};
ghost use Rattle.bq_state.specs.Kinds.{StateKinds};
ghost use Rattle.bq_sound.specs.Passes.{Passes};
ghost use Rattle.bq_check.specs.declared.fault.CheckFault.{CheckFault};
ghost use Rattle.bq_check.specs.declared.fault.CheckFault.TheVariants.{OutOfMemory};
ghost use Rattle.bq_check.specs.declared.form.NotesForm.{NotesForm};
ghost use Rattle.bq_check.specs.Faults.{IsFirstFault};
ghost use Rattle.bq_check.specs.Spelling.{notes_bytes, IsNotes};

/// Notes that pass have no fault but want of memory.
pub fn passing_has_no_fault()
    ensures { (l : Interval) (text : List Insn) (notes : List (Option StateKinds)) (fault : CheckFault) → Passes l text notes → IsFirstFault l text notes fault → fault ≡ OutOfMemory }
{}

/// A text with notes has one first fault at most, want of memory aside.
pub fn one_first_fault()
    ensures { (l : Interval) (text : List Insn) (notes : List (Option StateKinds)) (fault other : CheckFault) → IsFirstFault l text notes fault → IsFirstFault l text notes other → (fault ≡ OutOfMemory → ⊥) → (other ≡ OutOfMemory → ⊥) → fault ≡ other }
{}

/// In each form notes have bytes that no other notes have.
pub fn one_spelling()
    ensures { (form : NotesForm) (notes other : List (Option StateKinds)) → IsNotes form notes → IsNotes form other → notes_bytes form notes ≡ notes_bytes form other → notes ≡ other }
{}
