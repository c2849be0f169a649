//! Worked values of what a recorder writes and of what stands in its file.

ghost use Rattle.std.specs.Prelude.{◌≡◌, ◌++◌, ℕ, List, [], ◌∷◌, length, take, Some, Ok, Err, true, false};
ghost use Rattle.std.specs.Io.KnownBytes.{WriteAppends};
ghost use Rattle.reasons.specs.declared.Reason.TheVariants as reasons;
ghost use Rattle.q_desk.specs.declared.journal.Entry.{Entry};
ghost use Rattle.q_book.specs.State.{BookState};
ghost use Rattle.q_replay.specs.Spelling.{head_bytes};
ghost use Rattle.q_replay.specs.Journal.{head_of, journal_of};
ghost use Rattle.q_kept.specs.State.{RecorderState};
ghost use Rattle.q_kept.specs.Faults.{reason};
ghost use Rattle.q_kept.specs.Recording.{Grows, IsKept, IsRecorded, Records, lacking_bytes, recorded_bytes};
ghost use Rattle.q_kept.specs.declared.fault.Unrecorded.TheVariants as fault;
ghost use Rattle.q_kept.specs.Sample.{both, hand_out};

/// What the definitions say at telling operands, of a book whose journal is a hand-out and a leave.
#[tactic(auto, unfolding(spelling::specs::Numbers::number_bytes))]
pub fn worked()
    ensures failed { reason fault.Failed ≡ reasons.FileFailed }

    // Of a journal that did not begin all lacks, from the head on, and else the entries behind those that were written.
    ensures all_lacks { (r : RecorderState) (b : BookState) → r.begun ≡ false → r.written ≡ 0 → lacking_bytes r b ≡ journal_of b }
    ensures head_lacks { (r : RecorderState) (b : BookState) → r.begun ≡ false
        → take 3 (lacking_bytes r b) ≡ 0x42 ∷ 0x51 ∷ 0x4a ∷ [] }
    ensures last_lacks { (r : RecorderState) (b : BookState) → b.desk.journal ≡ both → r.begun ≡ true → r.written ≡ 1 → lacking_bytes r b ≡ 1 ∷ 0 ∷ 0 ∷ 0 ∷ 0 ∷ [] }
    ensures none_lacks { (r : RecorderState) (b : BookState) → b.desk.journal ≡ both → r.begun ≡ true → r.written ≡ 2 → lacking_bytes r b ≡ [] }
    ensures first_is_there { (r : RecorderState) (b : BookState) → b.desk.journal ≡ both → r.begun ≡ true → r.written ≡ 1 → recorded_bytes r b ≡ head_bytes (head_of b) ++ (6 ∷ 0 ∷ 0 ∷ 0 ∷ 0 ∷ []) }

    // After a call that succeeds all that lacked stands in the file, to the last byte, and is counted.
    ensures appends_all { (r s : RecorderState) (b : BookState) (all : List ℕ)
        → b.desk.journal ≡ both → r.begun ≡ true → r.written ≡ 1 → r.file ≡ Some []
        → s.file ≡ Some all → Records r b (Ok (tt {0})) s → all ≡ 1 ∷ 0 ∷ 0 ∷ 0 ∷ 0 ∷ [] }
    ensures counts_all { (r s : RecorderState) (b : BookState) → b.desk.journal ≡ both
        → Records r b (Ok (tt {0})) s → s.written ≡ 2 }

    // A recorder that is broken writes nothing and never succeeds.
    ensures broken_writes_nothing { (r s : RecorderState) (b : BookState) → r.broken ≡ true → Records r b (Err fault.Failed) s → s ≡ r }
    ensures broken_fails { (r s : RecorderState) (b : BookState) → r.broken ≡ true → Records r b (Ok (tt {0})) s → ⊥ }
    ensures breaks { (r s : RecorderState) (b : BookState) → Records r b (Err fault.Failed) s → s.broken ≡ true }
    ensures kept { (r s : RecorderState) (b : BookState) (bytes : List ℕ) → r.keeps ≡ true → s.kept ≡ Some bytes → Records r b (Ok (tt {0})) s → s.file ≡ Some bytes }
    ensures not_kept { (r : RecorderState) → r.file ≡ Some (7 ∷ []) → r.kept ≡ Some [] → IsKept r → ⊥ }

    // A recorder that is resumed for a journal of one entry lacks no head, and only the entries that came since.
    ensures resumed_lacks { (r : RecorderState) (b c : BookState) → b.desk.journal ≡ hand_out ∷ [] → r.begun ≡ true → r.written ≡ length b.desk.journal → c.desk.journal ≡ both → lacking_bytes r c ≡ 1 ∷ 0 ∷ 0 ∷ 0 ∷ 0 ∷ [] }
    ensures resumed_has_all { (r : RecorderState) (b : BookState) → b.desk.journal ≡ both → r.begun ≡ true → r.written ≡ length b.desk.journal → lacking_bytes r b ≡ [] }

    // For a file that holds a journal, no recorder begins at its head again, or after its first entry.
    ensures not_again { (r : RecorderState) (b : BookState) → r.file ≡ Some (journal_of b) → r.begun ≡ false
        → r.broken ≡ false → IsRecorded (Some []) b r → ⊥ }
    ensures not_from_one { (r : RecorderState) (b : BookState) → b.desk.journal ≡ both → r.file ≡ Some (journal_of b)
        → r.begun ≡ true → r.written ≡ 1 → r.broken ≡ false → IsRecorded (Some []) b r → ⊥ }

    // After a look that found the file changed, nothing is written to it, and no call succeeds.
    ensures found_writes_nothing { (r s : RecorderState) (b : BookState) → Records (record r { broken = true }) b (Err fault.Failed) s → s.file ≡ r.file }
    ensures found_fails { (r s : RecorderState) (b : BookState) → Records (record r { broken = true }) b (Ok (tt {0})) s → ⊥ }

    // A file holds what it says that it took.
    ensures not_held { WriteAppends {E = ℕ} (Some []) (Some []) (Ok 1) (7 ∷ []) → ⊥ }

    // Of an empty file no head is said to be there.
    ensures no_head { (r : RecorderState) (b : BookState) → r.begun ≡ true → r.broken ≡ false → r.file ≡ Some []
        → IsRecorded (Some []) b r → ⊥ }

    // No entry is left out, also by a recorder that is broken, and a book does not grow by losing entries.
    ensures no_hole { (r : RecorderState) (b : BookState) → b.desk.journal ≡ both → r.file ≡ Some (head_bytes (head_of b) ++ (1 ∷ 0 ∷ 0 ∷ 0 ∷ 0 ∷ [])) → IsRecorded (Some []) b r → ⊥ }
    ensures no_shorter { (b c : BookState) (e : Entry) → b.desk.journal ≡ e ∷ [] → c.desk.journal ≡ [] → Grows b c → ⊥ }
{}
