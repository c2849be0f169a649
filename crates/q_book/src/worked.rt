//! Worked values of what the calls of a book do.

ghost use Rattle.std.specs.Prelude.{◌≡◌, [], ◌∷◌, ℕ, List, length, is_some, true, false, Some, None, Ok, Err, MatchResult};
ghost use Rattle.std.specs.FinMap as fin;
ghost use Rattle.std.specs.Ordering.{nat_cmp};
ghost use Rattle.forms.specs.Calls.{Steps, mapped};
ghost use Rattle.bq_check.specs.Certificate.{Certificate};
ghost use Rattle.bq_range.specs.Interval.{Interval, between, single};
ghost use Rattle.sc_view.specs.Views.{ViewMap};
ghost use Rattle.sc_msg.specs.Lengths.{fits};
ghost use Rattle.sc_msg.specs.declared.version.Version.TheVariants.{First, Second};
ghost use Rattle.sc_msg.specs.declared.message.Message.{Message};
ghost use Rattle.sc_node.specs.Nodes.{is_view_full, stored_view};
ghost use Rattle.sc_node.specs.State.{NodeState};
ghost use Rattle.sc_operations.specs.declared.progress.OpResult.TheVariants as op_result;
ghost use Rattle.reasons.specs.declared.Reason.TheVariants as reasons;
ghost use Rattle.sc_operations.specs.declared.session.Session.{Session};
ghost use Rattle.q_session.specs.declared.job.Job.{Job};
ghost use Rattle.q_session.specs.declared.query.Phase.TheVariants.{Collecting, Ready};
ghost use Rattle.q_session.specs.declared.ran.Ran.{Ran};
ghost use Rattle.q_desk.specs.Desks as desk;
ghost use Rattle.q_desk.specs.Sample.{query};
ghost use Rattle.q_desk.specs.State.{DeskState, new_desk};
ghost use Rattle.q_desk.specs.declared.completed.Completed.TheVariants as completed;
ghost use Rattle.q_desk.specs.declared.journal.Call.TheVariants as call;
ghost use Rattle.q_desk.specs.declared.journal.Entry.TheVariants as entry;
ghost use Rattle.q_book.specs.Books.{record_lengths, registered, asked, stored, delivers, delivered, left, handed_out, posted, room_for_post};
ghost use Rattle.q_book.specs.Called.{called};
ghost use Rattle.reasons.specs.declared.Reason.TheVariants.{OutOfMemory as memory};
ghost use Rattle.q_book.specs.Replays.{IsBookOf, IsOther};
ghost use Rattle.q_book.specs.Sample.{there, node_there};
ghost use Rattle.q_book.specs.State.{BookState};
ghost use Rattle.q_book.specs.declared.answer.Asked.{Asked};
ghost use Rattle.q_book.specs.declared.reply.Reply.TheVariants as reply;
ghost use Rattle.reasons.specs.declared.Reason.{Reason};

/// What the definitions say at telling operands.
pub fn worked()
    // The desk's calls.
    ensures registered { (b : BookState) (n : NodeState) (c : Certificate) → registered (there b n (new_desk (between 16 128))) (record c { lengths = between 16 128 }) ≡ Ok (0, there b n (record (new_desk (between 16 128)) { programs = record c { lengths = between 16 128 } ∷ []; journal = entry.Call (call.Register (record c { lengths = between 16 128 })) ∷ [] })) }
    ensures posted { (b : BookState) (n : NodeState) (d e : DeskState) (j : Job) (ran : Ran) → desk.posted d b.id j ran ≡ Ok (tt, e) → posted (there b n d) j ran ≡ Ok (tt, there b n e) }
    ensures no_room { (b : BookState) (n : NodeState) (d : DeskState) → length d.journal ≡ 65536 → room_for_post (there b n d) ≡ Err reasons.BookFull }

    // A query waits for the collect that begins with it, the sixth operation. A refused one is not kept.
    ensures asked { (b : BookState) (n : NodeState) (c : Certificate) (l : Interval) → MatchResult (asked (there b n (record (new_desk l) { programs = c ∷ [] })) 0 7) (λ r. r.1.desk.queries ≡ query 5 Collecting ∷ []) (λ _. ⊥) }
    ensures not_kept { (b : BookState) (n : NodeState) (e : Reason) (l : Interval) → Steps {A = Asked} memory (asked (there b n (new_desk l)) 0 7) (there b n (new_desk l)) (there b n (record (new_desk l) { queries = query 5 Collecting ∷ [] })) (Err e) → ⊥ }

    // A new book of version 1 registers programs for 64 bytes, where values have 48; one of version 2 for 16 to 128.
    ensures first_records { record_lengths First ≡ single 64 }
    ensures second_records { record_lengths Second ≡ between 16 128 }
    ensures wrong_bounds { (b : BookState) (n : NodeState) (c : Certificate) → registered (there b n (new_desk (record_lengths Second))) (record c { lengths = single 64 }) ≡ Err reasons.WrongBounds }
    ensures gone { (b : BookState) (n : NodeState) (c : Certificate) (l : Interval) → registered (record b { node = record n { gone = true }; desk = new_desk l }) c ≡ Err reasons.Gone }

    // In version 1 values have 48 bytes, in version 2 at most 112.
    ensures stored { (b : BookState) (n : NodeState) (value : List ℕ) (l : Interval) → length value ≡ 48 → is_view_full (stored_view (node_there n) value) ≡ false → MatchResult (stored (there (record b { version = First }) n (new_desk l)) value) (λ r. r.1.desk.journal ≡ entry.Call (call.Store value) ∷ []) (λ _. ⊥) }
    ensures stored_any { (b : BookState) (n : NodeState) (value : List ℕ) (l : Interval) → length value ≡ 112 → is_view_full (stored_view (node_there n) value) ≡ false → MatchResult (stored (there (record b { version = Second }) n (new_desk l)) value) (λ r. r.1.desk.journal ≡ entry.Call (call.Store value) ∷ []) (λ _. ⊥) }
    ensures stored_shorter { (b : BookState) (n : NodeState) (d : DeskState) → stored (there (record b { version = First }) n d) (7 ∷ []) ≡ Err reasons.BadValue }
    ensures stored_longer { (b : BookState) (n : NodeState) (d : DeskState) (value : List ℕ) → length value ≡ 113 → stored (there (record b { version = Second }) n d) value ≡ Err reasons.BadValue }
    ensures told_shorter { (b : BookState) (n : NodeState) (d : DeskState) (m : Message) → fits First m ≡ false → delivered (there (record b { version = First }) n d) m ≡ Err reasons.BadValue }

    // Each call as a value is its own.
    ensures leave { (b : BookState) → called b call.Leave ≡ mapped reply.Left (left b) }
    ensures ask { (b : BookState) (program start : ℕ) → called b (call.Ask program start) ≡ mapped reply.Asked (asked b program start) }
    ensures hand_out { (b : BookState) → called b call.HandOut ≡ mapped reply.HandedOut (handed_out b) }

    // The view of a collect that ended goes to its query, and it is told that the query has it.
    ensures returned { (b : BookState) (n : NodeState) (v : ViewMap) (l : Interval) → (delivers b (record (new_desk l) { queries = query 9 Collecting ∷ [] }) (record { outs = []; progress = None; ended = Some (record { tag = 9; what = op_result.Returned v }) }) n).1.desk ≡ record (new_desk l) { queries = query 9 (Ready v) ∷ [] } }
    ensures told { (b : BookState) (n : NodeState) (v : ViewMap) (l : Interval) → (delivers b (record (new_desk l) { queries = query 9 Collecting ∷ [] }) (record { outs = []; progress = None; ended = Some (record { tag = 9; what = op_result.Returned v }) }) n).0.completed ≡ Some (completed.Returned 0) }

    // A book is of one node, and not of another then.
    ensures of_one_node { (b : BookState) → IsBookOf 1 b → IsBookOf 2 b → ⊥ }
    ensures not_another { (b : BookState) → IsBookOf 1 b → IsOther 1 b → ⊥ }

    // An operation is open under its own tag.
    ensures open { (s : Session) → is_some (fin.get (fin.insert {R = nat_cmp} fin.empty 5 s) 5) ≡ true }
    ensures not_open { (s : Session) → is_some (fin.get (fin.insert {R = nat_cmp} fin.empty 5 s) 2) ≡ false }
{}
