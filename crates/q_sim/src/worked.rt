//! Worked values of what scripts do.

ghost use Rattle.std.specs.Prelude.{◌≡◌, ℕ, List, [], ◌∷◌, true, false, Some, None, Ok, Err};
ghost use Rattle.std.specs.FinSet as set;
ghost use Rattle.q_book.specs.State.{BookState};
ghost use Rattle.q_cluster.specs.Acts.{book_at};
ghost use Rattle.q_outside.specs.Memory.{Writes, fails_next};
ghost use Rattle.q_outside.specs.declared.memory_files.MemoryFiles.{MemoryFiles as Memory};
ghost use Rattle.q_history.specs.Calls.{Takes};
ghost use Rattle.reasons.specs.declared.Reason.TheVariants.{OutOfMemory as memory};
ghost use Rattle.q_history.specs.Clusters.{stepped};
ghost use Rattle.q_history.specs.Headline.{ClusterState};
ghost use Rattle.q_history.specs.declared.event.ClusterStep.{ClusterStep};
ghost use Rattle.q_session.specs.declared.ran.Ran.{Ran};
ghost use Rattle.q_history.specs.declared.event.ClusterEvent.{ClusterEvent};
ghost use Rattle.q_history.specs.declared.event.ClusterEvent.TheVariants as event;
ghost use Rattle.reasons.specs.declared.Reason.TheVariants as reasons;
ghost use Rattle.q_script.specs.declared.line.ScriptLine.{ScriptLine};
ghost use Rattle.q_script.specs.declared.line.ScriptLine.TheVariants as line;
ghost use Rattle.q_script.specs.declared.founding.Founding.{Founding};
ghost use Rattle.q_sim.specs.Delivered.{Deliveries};
ghost use Rattle.q_sim.specs.Simulates.{Awaits, Begins, DeliversAll, Plays, Saves, SavesBook, SimState, Tries, WantsMemory, at_next_line, event_of, or_refused, with_fault};
ghost use Rattle.q_sim.specs.Truths.{AreTrueLines, IsTrueAnswer};
ghost use Rattle.q_told.specs.declared.refusal.Refusal.TheVariants as refused;

/// What the definitions say of deliveries, refused lines and scripts, over files in memory.
pub fn worked()
    // Deliveries.
    ensures delivered { let none : Deliveries = set.empty in set.contains (set.insert none (7, 3)) (7, 3) ≡ true }
    ensures to_another_node { let none : Deliveries = set.empty in set.contains (set.insert none (7, 3)) (7, 0) ≡ false }

    // Deliveries of `all`: where one is awaited, an `all` that prints nothing has tried one, and it is tried no more; a
    // try is that event of the cluster; want of memory is no try, and is a refusal.
    ensures one_is_tried { (s t : SimState) → Awaits s 7 3 → DeliversAll 1 s [] t → (m n : ℕ) × Tries s m n t }
    ensures never_silent { (s : SimState) → Awaits s 7 3 → DeliversAll 1 s [] s → ⊥ }
    ensures tried_is_taken { (s t : SimState) (said : ClusterStep) (d : ClusterState) → ((ran : Ran) → stepped ran s.cluster (event.Deliver 7 3) ≡ Ok (said, d)) → Tries s 7 3 t → t.cluster ≡ d }
    ensures want_of_memory_is_no_try { (s t : SimState) (h : Tries s 7 3 t) → h.result ≡ Err memory → ⊥ }
    ensures want_of_memory_is_a_refusal { (s t : SimState) (text : List ℕ) → WantsMemory s text t → t.faults ≡ with_fault s.line refused.OutOfMemory s.faults }

    // Which lines were refused: a refused event's is one, and no delivery that `all` tries is. The first event of a
    // script is on line 2.
    ensures refused_event { or_refused 7 (Err reasons.NoSuchJob) [] ≡ (record { line = 7; refusal = refused.Cluster reasons.NoSuchJob }) ∷ [] }
    ensures refused_delivery { (s t : SimState) (h : Tries s 7 3 t) → t.faults ≡ s.faults }
    ensures first_event { (f : Founding) (s : SimState) → Begins f s → (at_next_line s).line ≡ 2 }

    // What a script does: it plays its first line, which takes its event where it is one; and a journal is that of
    // the node.
    ensures message_first { event_of (line.Deliver 7 3) ≡ Some (event.Deliver 7 3) }
    ensures event { (l : ScriptLine) (e : ClusterEvent) (s t : SimState) (before after : Memory) (text : List ℕ) → event_of l ≡ Some e → Plays (Writes {X = Unit {0}}) (l ∷ []) s before text t after → (result : _) × Takes s.cluster e t.cluster result }
    ensures no_such_node { (name text : List ℕ) (s t : SimState) (before after : Memory) → book_at s.cluster 3 ≡ None → Saves (Writes {X = Unit {0}}) 3 name s before text t after → after ≡ before }
    ensures file_fails { (book : BookState) (name text : List ℕ) (s t : SimState) (before after : Memory) → fails_next before.passing ≡ true → SavesBook (Writes {X = Unit {0}}) book name s before text t after → t.unsaved ≡ true }

    // Where no line was refused, a `run` prints an answer that the cluster has recorded.
    ensures unrefused_run { (c : ClusterState) (text : List ℕ) → AreTrueLines c false (line.Run 4 ∷ []) text → IsTrueAnswer c text }
{}
