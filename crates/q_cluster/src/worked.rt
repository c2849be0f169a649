//! Worked values of what events make of a cluster.

ghost use Rattle.std.specs.Prelude.{◌≡◌, [], ◌∷◌, Some, None, Ok, Err, true, false, slice_get};
ghost use Rattle.std.specs.FinMap as fin;
ghost use Rattle.std.specs.FinSet as set;
ghost use Rattle.sc_members.specs.Members.{Config};
ghost use Rattle.sc_msg.specs.declared.version.Version.{Version};
ghost use Rattle.sc_view.specs.Views.{ViewMap};
ghost use Rattle.q_session.specs.declared.job.Job.{Job};
ghost use Rattle.q_session.specs.declared.query.Query.{Query};
ghost use Rattle.q_session.specs.declared.query.Phase.TheVariants.{Answered};
ghost use Rattle.q_session.specs.declared.ran.Ran.{Ran};
ghost use Rattle.sc_node.specs.Nodes.{founder};
ghost use Rattle.q_book.specs.State.{BookState};
ghost use Rattle.q_book.specs.Books as book;
ghost use Rattle.q_history.specs.Calls.{Takes, Runs};
ghost use Rattle.q_history.specs.Clusters.{enters, live_at, handed, with_job, start, started};
ghost use Rattle.q_history.specs.Headline.{AnswersStay, ClusterState};
ghost use Rattle.q_history.specs.declared.event.ClusterEvent.{ClusterEvent};
ghost use Rattle.q_history.specs.declared.event.ClusterEvent.TheVariants as event;
ghost use Rattle.reasons.specs.declared.Reason.{Reason};
ghost use Rattle.reasons.specs.declared.Reason.TheVariants as reasons;
ghost use Rattle.q_cluster.specs.Acts.{book_at};

/// What the definitions say at telling operands.
pub fn worked()
    // Founders, and nodes that enter, have books of their own, of the cluster's version.
    ensures founded { (version : Version) (config : Config) → started version config (1 ∷ 2 ∷ []) ≡ Ok (start version config (1 ∷ 2 ∷ [])) }
    ensures book_of_a_founder { (version : Version) (config : Config) → fin.get (start version config (1 ∷ 2 ∷ [])).books 2 ≡ Some (book.new_book version 2 config (Some (1 ∷ 2 ∷ [])) (founder config (1 ∷ 2 ∷ []) 2)) }
    ensures book_of_one_that_enters { (c : ClusterState) → fin.get (enters c 7 (book.entered c.version c.past.config 7)).1.books 7 ≡ Some (book.entered c.version c.past.config 7).0 }

    // A new id is taken, and events are refused by their own places.
    ensures taken { (c d : ClusterState) → fin.get c.books 7 ≡ None → Takes c (event.Enter 7) d (Err reasons.NoSuchJob) → ⊥ }
    ensures own_place { (c d : ClusterState) (e : ClusterEvent) (f : Reason) → Runs c (e ∷ []) d (Err (1, f)) → ⊥ }

    // A node is there until it leaves or crashes, and its book stays.
    ensures live { (c : ClusterState) (b : BookState) → set.contains c.past.crashed 7 ≡ false → fin.get c.books 7 ≡ Some b → b.node.gone ≡ false → live_at c 7 ≡ Some b }
    ensures gone { (c : ClusterState) (b : BookState) → set.contains c.past.crashed 7 ≡ false → fin.get c.books 7 ≡ Some b → b.node.gone ≡ true → live_at c 7 ≡ None }
    ensures crashed { (c : ClusterState) → set.contains c.past.crashed 7 ≡ true → live_at c 7 ≡ None }
    ensures book { (c : ClusterState) (b : BookState) → fin.get c.books 7 ≡ Some b → book_at c 7 ≡ Some b }

    // An answer that was recorded is not forgotten with its book.
    ensures forgotten { (c d : ClusterState) (b : BookState) (q : Query) (view : ViewMap) (ran : Ran) → fin.get c.books 7 ≡ Some b → slice_get b.desk.queries 0 ≡ Some q → q.phase ≡ Answered view ran → fin.get d.books 7 ≡ None → AnswersStay c d → ⊥ }

    // A job's number is its place.
    ensures number { (j k : Job) → handed (j ∷ []) (Some k) ≡ Some (record { job = 1; query = k.query }) }
    ensures place { (j k : Job) → with_job (j ∷ []) (Some k) ≡ j ∷ k ∷ [] }
{}
