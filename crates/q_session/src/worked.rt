//! Worked values of records, jobs and answers.

ghost use Rattle.std.specs.Prelude.{◌≡◌, [], ◌∷◌, Some, None};
ghost use Rattle.bq_check.specs.Certificate.{Certificate};
ghost use Rattle.sc_view.specs.Views.{ViewMap};
ghost use Rattle.q_session.specs.Done.{Finished};
ghost use Rattle.q_session.specs.Jobs.{JobValue, job_of, job_over};
ghost use Rattle.q_session.specs.Records.{record_bytes, view_records};
ghost use Rattle.q_session.specs.Right.{IsRight};
ghost use Rattle.q_session.specs.declared.query.Phase.TheVariants as phase;
ghost use Rattle.q_session.specs.declared.ran.Ran.{Ran as RanValue};

/// What the definitions say at telling operands.
pub fn worked()
    // The id of a record stands first, then the sequence number, each from its lowest byte.
    ensures bytes { record_bytes (258, record { number = 3; value = 9 ∷ [] }) ≡ 2 ∷ 1 ∷ 0 ∷ 0 ∷ 0 ∷ 0 ∷ 0 ∷ 0 ∷ 3 ∷ 0 ∷ 0 ∷ 0 ∷ 0 ∷ 0 ∷ 0 ∷ 0 ∷ 9 ∷ [] }

    // Over no records the answer is the start value, in no steps.
    ensures start { (c : Certificate) (v : ViewMap) (ran : RanValue) → view_records v ≡ [] → IsRight c v 7 ran → ran.acc ≡ 7 }
    ensures no_steps { (c : Certificate) (v : ViewMap) (ran : RanValue) → view_records v ≡ [] → IsRight c v 7 ran → ran.steps ≡ 0 }

    // A query has a job while it is ready or runs.
    ensures ready { (c : Certificate) (v : ViewMap) → job_of 1 2 (record { tag = 9; program = 3; start = 4; phase = phase.Ready v }) c ≡ Some (record { node = 1; query = 2; program = 3; start = 4; certified = c; view = v }) }
    ensures running { (c : Certificate) (v : ViewMap) → job_of 1 2 (record { tag = 9; program = 3; start = 4; phase = phase.Running v }) c ≡ Some (record { node = 1; query = 2; program = 3; start = 4; certified = c; view = v }) }
    ensures collecting { (c : Certificate) → job_of 1 2 (record { tag = 9; program = 3; start = 4; phase = phase.Collecting }) c ≡ None }
    ensures answered { (c : Certificate) (v : ViewMap) (ran : RanValue) → job_of 1 2 (record { tag = 9; program = 3; start = 4; phase = phase.Answered v ran }) c ≡ None }

    // A job from another start is another, and so is a result of other steps.
    ensures another_start { (c : Certificate) (v : ViewMap) → job_over 1 2 (record { tag = 9; program = 3; start = 4; phase = phase.Ready v }) c v ≡ job_over 1 2 (record { tag = 9; program = 3; start = 0; phase = phase.Ready v }) c v → ⊥ }
    ensures other_steps { (j : JobValue) → ◌≡◌ {A = Finished} (record { job = j; ran = record { acc = 5; steps = 6 } }) (record { job = j; ran = record { acc = 5; steps = 0 } }) → ⊥ }
{}
