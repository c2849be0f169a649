//! Laws of runs and answers, each the contract of a function that does nothing, so whoever needs one at a
//! step calls it there.

ghost use Rattle.std.specs.Prelude.{◌≡◌, ◌+◌, ◌++◌, ℕ, List, [], ◌∷◌};
ghost use Rattle.bq_insn.specs.declared.insn.Insn.{Insn};
ghost use Rattle.bq_meaning.specs.Place.{Place, IsPlacement};
ghost use Rattle.bq_meaning.specs.Runs.{RecordRun};
ghost use Rattle.bq_meaning.specs.Answers.{FoldsTo, Folds, IsAnswer};
ghost use Rattle.bq_meaning.specs.Faults.{LeastFaultIsNamed};

/// An instruction faults exactly by the fault with the least number of those that hold of it: that it reads an unset
/// register (91), writes r10 (92), reaches outside the frame and the record (93), or writes into the record (94). It is
/// done exactly where none of them holds.
pub fn least_fault_is_named()
    ensures { LeastFaultIsNamed }
{}

/// From an accumulator, a record and a frame there is one record run at most at a placement.
pub fn one_run()
    ensures { (p : Place) (text : List Insn) (acc : ℕ) (bytes frame : List ℕ) (n answer m other : ℕ) (after left : List ℕ) → RecordRun p text acc bytes frame n answer after → RecordRun p text acc bytes frame m other left → (n ≡ m) × (answer ≡ other) × (after ≡ left) }
{}

/// Over records in turn there is one outcome at most at a placement.
pub fn one_fold()
    ensures { (p : Place) (text : List Insn) (records : List (List ℕ)) (acc : ℕ) (frame : List ℕ) (answer steps other count : ℕ) (after left : List ℕ) → FoldsTo p text records acc frame answer steps after → FoldsTo p text records acc frame other count left → (answer ≡ other) × (steps ≡ count) × (after ≡ left) }
{}

/// A fold over records and then a record run over one more is a fold over them all: what a loop over records keeps.
pub fn appended()
    ensures { (p : Place) (text : List Insn) (records : List (List ℕ)) (bytes : List ℕ) (acc : ℕ) (frame : List ℕ) (middle steps : ℕ) (between : List ℕ) (n answer : ℕ) (after : List ℕ) → FoldsTo p text records acc frame middle steps between → RecordRun p text middle bytes between n answer after → FoldsTo p text (records ++ bytes ∷ []) acc frame answer (steps + n) after }
{}

/// A text has one answer at most over records from a start value, in one count of steps.
pub fn one_answer()
    ensures { (text : List Insn) (records : List (List ℕ)) (start answer steps other count : ℕ) → IsAnswer text records start answer steps → IsAnswer text records start other count → (answer ≡ other) × (steps ≡ count) }
{}

/// Over no records the answer is the start value, in 0 steps.
pub fn empty_answer()
    ensures { (text : List Insn) (start : ℕ) → IsAnswer text [] start start 0 }
{}
