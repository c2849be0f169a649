//! Worked values of faults, of rows and of the words of slots.

ghost use Rattle.std.specs.Prelude.{◌≡◌, [], ◌∷◌, Some, None};
ghost use Rattle.reasons.specs.Table as table;
ghost use Rattle.reasons.specs.declared.Reason.TheVariants as reasons;
ghost use Rattle.q_session.specs.declared.job.Job.{Job};
ghost use Rattle.q_session.specs.Done.{Finished};
ghost use Rattle.q_board.specs.Calls.{is_at};
ghost use Rattle.q_board.specs.Faults.{reason};
ghost use Rattle.q_board.specs.Places.{jobs};
ghost use Rattle.q_board.specs.declared.fault.OpenFault.TheVariants as fault;
ghost use Rattle.q_board.specs.Phase as phase;
ghost use Rattle.q_board.specs.Words.{found_of, word_of};
ghost use Rattle.q_board.specs.declared.found.Found.TheVariants as found;

/// What the definitions say of faults, and of a row with a job in the second of two slots.
pub fn worked()
    ensures bad_count { table.number (reason fault.BadCount) ≡ 62 }
    ensures out_of_memory { table.number (reason fault.OutOfMemory) ≡ 99 }
    ensures row_full { table.number reasons.RowFull ≡ 61 }
    ensures open { (j : Job) → is_at (None ∷ Some j ∷ []) 1 (Some j) }
    ensures not_free { (j : Job) → is_at (None ∷ Some j ∷ []) 1 None → ⊥ }
    ensures free { (j : Job) → is_at (None ∷ Some j ∷ []) 0 None }
    ensures open_jobs { (j : Job) → jobs (None ∷ Some j ∷ []) ≡ 1 }
{}

/// What the definitions say of words.
pub fn worked_slots()
    ensures empty { word_of found.Empty ≡ 0 }
    ensures ready { word_of found.Ready ≡ 1 }
    ensures finished { word_of found.Finished ≡ 2 }
    ensures claimed { word_of (found.Claimed 7) ≡ 10 }
    ensures of_a_job { (j : Job) → phase.code (phase.ready j) ≡ 1 }
    ensures of_a_result { (d : Finished) → phase.code (phase.finished d) ≡ 2 }
    ensures shows_finished { found_of 2 ≡ found.Finished }
    ensures shows_claimed { found_of 3 ≡ found.Claimed 0 }
{}
