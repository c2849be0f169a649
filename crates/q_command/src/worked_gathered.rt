//! Worked values of what is gathered, and of the lines that tell it.

ghost use Rattle.std.specs.Prelude.{◌≡◌, ◌++◌, ◌∷◌, ℕ, Bool, List, [], Some, false, length, codes};
ghost use Rattle.std.specs.FinMap as fin;
ghost use Rattle.sc_view.specs.Views.{ViewMap};
ghost use Rattle.q_session.specs.declared.query.Phase.TheVariants as phase;
ghost use Rattle.q_session.specs.declared.query.Query.{Query};
ghost use Rattle.q_session.specs.declared.ran.Ran.{Ran};
ghost use Rattle.q_book.specs.Replays.{IsReplay};
ghost use Rattle.q_book.specs.State.{BookState};
ghost use Rattle.q_outside.specs.Memory.{Reads};
ghost use Rattle.q_outside.specs.declared.memory_files.MemoryFiles.{MemoryFiles as Memory};
ghost use Rattle.q_gather.specs.Gather.{AreRefused};
ghost use Rattle.q_gather.specs.declared.fault.GatherFault.{GatherFault};
ghost use Rattle.q_gather.specs.declared.fault.GatherFault.TheVariants as gather_fault;
ghost use Rattle.q_history.specs.Headline.{ClusterState};
ghost use Rattle.q_command.specs.JournalFiles.{IsWritten, longest_journal, status_of};
ghost use Rattle.q_command.specs.GatheredLines.{answer_line, answers_of, journal_line};
ghost use Rattle.q_command.specs.Tells.{Tells};
ghost use Rattle.q_command.specs.declared.gathered_ending.GatherEnding.TheVariants as ending;

/// What the definitions say of a file, of answers, of what is gathered and of how that ends.
#[tactic(auto, using(crate::proofs::Alone::alone, crate::proofs::Outcomes::not_dropped, crate::proofs::Outcomes::second))]
pub fn worked()
    ensures whole { (b : BookState) → b.id ≡ 2 → length b.desk.journal ≡ 114 → journal_line (codes "j2") b 0 ≡ codes "j2 node 2 events 114\n" }
    ensures cut { (b : BookState) → b.id ≡ 2 → length b.desk.journal ≡ 114 → journal_line (codes "j2") b 144 ≡ codes "j2 node 2 events 114 cut 144 bytes\n" }
    ensures answered { (view : ViewMap) → fin.entries view ≡ (1, record { number = 2; value = [] }) ∷ (4, record { number = 1; value = [] }) ∷ [] → answer_line 4 0 (phase.Answered view (record { acc = 3; steps = 9 })) ≡ codes "answer 4 0 3 9 view 1:2 4:1\n" }
    ensures unanswered { answer_line 4 0 phase.Collecting ≡ [] }
    ensures gathered { status_of ending.Gathered ≡ 0 }
    ensures unwritten { status_of ending.Unwritten ≡ 1 }

    // A book's second query has its line under its own number; and where one is answered, its line is not left out.
    ensures second { (b : BookState) (q r : Query) (view : ViewMap) → b.id ≡ 4 → b.desk.queries ≡ q ∷ r ∷ []
        → q.phase ≡ phase.Collecting → r.phase ≡ phase.Answered view (record { acc = 3; steps = 9 })
        → fin.entries view ≡ [] → answers_of (b ∷ []) ≡ codes "answer 4 1 3 9 view\n" }
    ensures not_dropped { (c : ClusterState) (b : BookState) (q : Query) (view : ViewMap) (ran : Ran)
        → b.desk.queries ≡ q ∷ [] → q.phase ≡ phase.Answered view ran
        → Tells c (b ∷ []) false (codes "journals ok\n") → ⊥ }

    // The book of a lone founder to whom nothing has happened gathers, unless memory runs out.
    ensures alone { (b : BookState) (fault : GatherFault) → IsReplay b → b.founders ≡ Some (b.id ∷ [])
        → b.desk.journal ≡ [] → AreRefused (b ∷ []) fault → fault ≡ gather_fault.OutOfMemory }

    // Where the line of a refusal was written, nothing is told as gathered.
    ensures not_gathered { (names : List (List ℕ)) (pairs : Bool) (old new : Memory)
        → IsWritten (Reads longest_journal) names pairs old (Some []) ending.Gathered new
        (Some (codes "refused 87 FileFailed\n")) → ⊥ }
{}
