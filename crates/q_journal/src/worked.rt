//! Worked values of what a start makes of a journal's file and of its note.

ghost use Rattle.std.specs.Prelude.{◌≡◌, ◌++◌, ◌∷◌, ℕ, Bool, true, false, List, [], length, codes, string_bytes, Option, Some, None, Ok, Err};
ghost use Rattle.q_book.specs.State.{BookState};
ghost use Rattle.q_replay.specs.Head.{Head};
ghost use Rattle.q_replay.specs.Spelling.{head_bytes};
ghost use Rattle.q_replay.specs.Journal.{journal_of};
ghost use Rattle.q_journal.specs.Notes.{course_of, note_text};
ghost use Rattle.q_journal.specs.Found.{CutsTo, IsHeadless, IsResumed};
ghost use Rattle.q_journal.specs.Starts.{Starts};
ghost use Rattle.q_journal.specs.declared.note.BootNote.{BootNote};
ghost use Rattle.q_journal.specs.declared.course.Course.TheVariants as course;
ghost use Rattle.q_journal.specs.declared.course.Standing.TheVariants as standing;
ghost use Rattle.q_journal.specs.declared.course.Unresumed.TheVariants as unresumed;
ghost use Rattle.q_journal.specs.declared.fault.JournalFault.{JournalFault};
ghost use Rattle.q_journal.specs.declared.start.Resumed.{Resumed};

/// What a start does, row by row, and the text of a note.
pub fn worked_courses()
    // Without a file: a node begins, unless it has run here or is to resume.
    ensures none_to_resume { (boot : List ℕ) → course_of None boot standing.Missing true ≡ course.Refuse unresumed.NoJournal }
    ensures begins { (boot : List ℕ) → course_of None boot standing.Missing false ≡ course.Begin }
    ensures gone { (n : BootNote) (boot : List ℕ) (asked : Bool) → course_of (Some n) boot standing.Missing asked ≡ course.Refuse unresumed.Gone }

    // With less than a head: it begins, unless the machine has restarted.
    ensures headless { (boot : List ℕ) (asked : Bool) → course_of None boot standing.Headless asked ≡ course.Begin }
    ensures headless_here { (n : BootNote) (asked : Bool) → string_bytes n.boot ≡ codes "a1"
        → course_of (Some n) (codes "a1") standing.Headless asked ≡ course.Begin }
    ensures headless_anew { (n : BootNote) (asked : Bool) → string_bytes n.boot ≡ codes "a1"
        → course_of (Some n) (codes "a2") standing.Headless asked ≡ course.Refuse unresumed.PowerLost }

    // With a head: it comes back, where nothing that it said can be lost.
    ensures unnoted { (boot : List ℕ) (asked : Bool) → course_of None boot standing.Whole asked ≡ course.Refuse unresumed.Unnoted }
    ensures here { (n : BootNote) (asked : Bool) → string_bytes n.boot ≡ codes "a1"
        → course_of (Some n) (codes "a1") standing.Whole asked ≡ course.Resume }
    ensures anew_synced { (n : BootNote) (asked : Bool) → string_bytes n.boot ≡ codes "a1" → n.synced ≡ true
        → course_of (Some n) (codes "a2") standing.Whole asked ≡ course.Resume }
    ensures anew_unsynced { (n : BootNote) (asked : Bool) → string_bytes n.boot ≡ codes "a1" → n.synced ≡ false
        → course_of (Some n) (codes "a2") standing.Whole asked ≡ course.Refuse unresumed.PowerLost }
{}

/// The text of a note.
pub fn worked_notes()
    ensures synced { (n : BootNote) → string_bytes n.boot ≡ codes "a1" → n.start ≡ 12 → n.synced ≡ true
        → note_text n ≡ codes "boot a1\nstart 12\nsync true\n" }
    ensures unsynced { (n : BootNote) → string_bytes n.boot ≡ codes "a1" → n.start ≡ 1 → n.synced ≡ false
        → note_text n ≡ codes "boot a1\nstart 1\nsync false\n" }
{}

/// What bytes are to a node, and what a start leaves of them.
pub fn worked()
    // An empty file has less than the head. One that has the head, or a byte more, has not.
    ensures empty { (h : Head) → IsHeadless h [] }
    ensures head { (h : Head) → IsHeadless h (head_bytes h) → ⊥ }
    ensures longer { (h : Head) → IsHeadless h (head_bytes h ++ 1 ∷ []) → ⊥ }

    // A node comes back with no empty file, and no byte is left out of account.
    ensures no_journal { (h : Head) (b : BookState) (kept cut : ℕ) → IsResumed h [] b kept cut → ⊥ }
    ensures all { (h : Head) (b : BookState) → IsResumed h (journal_of b ++ 1 ∷ []) b (length (journal_of b)) 0 → ⊥ }

    // A byte that is torn is cut off, and a start that is refused cuts none.
    ensures cut { CutsTo 2 (Some (7 ∷ 8 ∷ 9 ∷ [])) (Some (7 ∷ 8 ∷ [])) }
    ensures uncut { CutsTo 2 (Some (7 ∷ 8 ∷ 9 ∷ [])) (Some (7 ∷ 8 ∷ 9 ∷ [])) → ⊥ }
    ensures torn { (h : Head) (n : Option BootNote) (boot : List ℕ) (asked : Bool) (r : Resumed) (bytes : List ℕ) → length bytes ≡ r.kept
        → Starts h n boot asked (Some (bytes ++ 1 ∷ [])) (Ok (Some r)) (Some (bytes ++ 1 ∷ [])) → ⊥ }
    ensures refused { (h : Head) (n : Option BootNote) (boot : List ℕ) (asked : Bool) (f : JournalFault)
        → Starts h n boot asked (Some (7 ∷ [])) (Err f) (Some []) → ⊥ }
{}
