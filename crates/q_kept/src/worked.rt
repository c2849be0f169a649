//! Worked values of letters, of what goes again, and of what settling says.

ghost use Rattle.std.specs.Prelude.{◌≡◌, ◌++◌, ℕ, List, [], ◌∷◌, Option, Some, None, Ok, Err, true, false, length};
ghost use Rattle.std.specs.FinMap as fin;
ghost use Rattle.std.specs.FinSet as set;
ghost use Rattle.sc_view.specs.declared.view.Stored.{Stored as Value};
ghost use Rattle.sc_view.specs.Views.{ViewMap};
ghost use Rattle.sc_msg.specs.Lengths.{fits};
ghost use Rattle.sc_msg.specs.declared.message.Body.TheVariants as body;
ghost use Rattle.sc_msg.specs.declared.message.CollectReply.{CollectReply as ReplyFields};
ghost use Rattle.sc_msg.specs.declared.message.Store.{Store as StoreFields};
ghost use Rattle.sc_msg.specs.declared.message.StoreAck.{StoreAck as AckFields};
ghost use Rattle.sc_msg.specs.declared.message.Message.{Message as Said};
ghost use Rattle.sc_msg.specs.declared.version.Version.{Version as Wire};
ghost use Rattle.sc_operations.specs.declared.session.Phase.{Phase as Waiting};
ghost use Rattle.sc_operations.specs.declared.session.Session.TheVariants as operation;
ghost use Rattle.sc_operations.specs.declared.session.StoreBack.{StoreBack as Back};
ghost use Rattle.sc_node.specs.State.{NodeState};
ghost use Rattle.q_book.specs.State.{BookState};
ghost use Rattle.q_replay.specs.Spelling.{head_bytes};
ghost use Rattle.q_replay.specs.Journal.{head_of, journal_of};
ghost use Rattle.q_kept.specs.State.{RecorderState};
ghost use Rattle.q_kept.specs.Recording.{IsRecorded, Records};
ghost use Rattle.q_kept.specs.declared.fault.Unrecorded.TheVariants as fault;
ghost use Rattle.q_held.specs.declared.losses.Unsent.{Unsent as Counts};
ghost use Rattle.q_kept.specs.Giving.{Gives, Outbox, outbox};
ghost use Rattle.q_kept.specs.Letters.{Spells, addressed};
ghost use Rattle.q_kept.specs.Questions.{IsFor, asking_phase, goes_again, is_due, is_kept, looked_at, new_question, targets, uncounted};
ghost use Rattle.q_kept.specs.Settling.{GivesNone, GivesWritten};
ghost use Rattle.q_kept.specs.declared.letter.Letter.{Letter as Sent};
ghost use Rattle.q_kept.specs.declared.question.Question.{Question as Asking};
ghost use Rattle.q_kept.specs.Sample.{both, hand_out};

/// To whom messages go, and which go again.
pub fn worked()
    ensures to_one { (from : ℕ) (ack : AckFields) → (addressed (record { from = from; body = body.StoreAck ack })).to ≡ Some ack.to }
    ensures to_all { (from : ℕ) → (addressed (record { from = from; body = body.CollectQuery 7 })).to ≡ None }

    // The letter of an acknowledgement goes to the one node that asked, and to no other.
    ensures acknowledgement { (v : Wire) (from : ℕ) (ack : AckFields) (letter : Sent)
        → Spells v (addressed (record { from = from; body = body.StoreAck ack })) letter → letter.to ≡ Some ack.to }

    // What asks goes again, and no reply or echo does.
    ensures again { (s : StoreFields) → (goes_again body.Enter ≡ true) × (goes_again body.Join ≡ true) × (goes_again body.Leave ≡ true) × (goes_again (body.Store s) ≡ true) × (goes_again (body.CollectQuery 7) ≡ true) }
    ensures not_again { (ack : AckFields) (reply : ReplyFields) (v : ViewMap) → (goes_again (body.StoreAck ack) ≡ false) × (goes_again (body.StoreEcho v) ≡ false) × (goes_again (body.CollectReply reply) ≡ false) × (goes_again (body.JoinEcho 3) ≡ false) × (goes_again (body.LeaveEcho 3) ≡ false) }
{}

/// For how long a question is kept.
pub fn worked_keeping()
    // An enter until the node has joined, or has left.
    ensures enters { (n : NodeState) → n.gone ≡ false → n.joined ≡ false → is_kept n 1000 body.Enter ≡ true }
    ensures has_joined { (n : NodeState) → n.gone ≡ false → n.joined ≡ true → is_kept n 0 body.Enter ≡ false }
    ensures has_left { (n : NodeState) (s : StoreFields) → n.gone ≡ true → (is_kept n 0 body.Enter ≡ false) × (is_kept n 0 (body.Store s) ≡ false) × (is_kept n 0 (body.CollectQuery 7) ≡ false) }

    // A join and a leave up to the third look at which they are due.
    ensures tells { (n : NodeState) → (is_kept n 4 body.Join ≡ true) × (is_kept n 4 body.Leave ≡ true) }
    ensures told { (n : NodeState) → (is_kept n 5 body.Join ≡ false) × (is_kept n 5 body.Leave ≡ false) }

    // What an operation asks while its phase is open.
    ensures ended { (n : NodeState) (s : StoreFields) → fin.get n.sessions s.tag ≡ None → (is_kept n 0 (body.Store s) ≡ false) × (is_kept n 0 (body.CollectQuery s.tag) ≡ false) }
    ensures queries { (n : NodeState) (p : Waiting) → n.gone ≡ false → fin.get n.sessions 7 ≡ Some (operation.Querying p) → is_kept n 1000 (body.CollectQuery 7) ≡ true }
    ensures stores { (n : NodeState) (e : Value) (b : Back) (s : StoreFields) → n.gone ≡ false → fin.get n.sessions s.tag ≡ Some (operation.Store e b) → (is_kept n 1000 (body.Store s) ≡ true) × (is_kept n 0 (body.CollectQuery s.tag) ≡ false) }
    ensures stores_back { (n : NodeState) (p : Waiting) (b : Back) (s : StoreFields) → n.gone ≡ false → fin.get n.sessions s.tag ≡ Some (operation.StoringBack p b) → (is_kept n 1000 (body.Store s) ≡ true) × (is_kept n 0 (body.CollectQuery s.tag) ≡ false) }
{}

/// To whom a question goes, and at which looks.
pub fn worked_asking()
    ensures uncounted { (p : Waiting) → set.contains p.counted 3 ≡ true → set.contains p.counted 4 ≡ false → uncounted (Some p) (3 ∷ 4 ∷ []) ≡ 4 ∷ [] }
    ensures to_all { (n : NodeState) (nodes : List ℕ) → (targets n nodes body.Enter ≡ None ∷ []) × (targets n nodes body.Join ≡ None ∷ []) × (targets n nodes body.Leave ≡ None ∷ []) }

    // No letter goes again to a node that the operation has counted.
    ensures not_counted { (n : NodeState) (p : Waiting) → asking_phase n (body.CollectQuery 7) ≡ Some p
        → set.contains p.counted 3 ≡ true → IsFor n (3 ∷ 4 ∷ []) (body.CollectQuery 7) (Some 3) → ⊥ }
    ensures asked { (n : NodeState) (p : Waiting) → asking_phase n (body.CollectQuery 7) ≡ Some p → set.contains p.counted 3 ≡ true → set.contains p.counted 4 ≡ false → targets n (3 ∷ 4 ∷ []) (body.CollectQuery 7) ≡ Some 4 ∷ [] }

    // A question is due after 1, 2, 4, 8 .. looks, and not as it is given.
    ensures due { (v : Wire) (m : Said) → fits v m ≡ true → (is_due v (record { message = m; looks = 1 }) ≡ true) × (is_due v (record { message = m; looks = 2 }) ≡ true) × (is_due v (record { message = m; looks = 4 }) ≡ true) × (is_due v (record { message = m; looks = 8 }) ≡ true) }
    ensures not_due { (v : Wire) (m : Said) → (is_due v (new_question m) ≡ false) × (is_due v (record { message = m; looks = 3 }) ≡ false) × (is_due v (record { message = m; looks = 5 }) ≡ false) × (is_due v (record { message = m; looks = 6 }) ≡ false) × (is_due v (record { message = m; looks = 7 }) ≡ false) }
    ensures looked { (m : Said) → looked_at (new_question m) ≡ record { message = m; looks = 1 } }
    ensures most { (m : Said) → looked_at (record { message = m; looks = 4294967295 }) ≡ record { message = m; looks = 4294967295 } }
{}

/// What settling says.
pub fn worked_settling()
    // Where the file was empty at first, it holds the whole journal where messages are given.
    ensures written { (r : RecorderState) (b c : BookState) (old : Outbox) (letters : List Sent) (r' : RecorderState) (new : Outbox) → IsRecorded (Some []) b r → GivesWritten r b c old letters r' new → r'.file ≡ Some (journal_of c) }

    // No message leaves before the journal that gave it is written: not while its last entry is not in the file, not
    // where a write failed, and not where memory for what lacks ran out.
    ensures not_before { (r : RecorderState) (b c : BookState) (old : Outbox) (letters : List Sent) (r' : RecorderState)
        (new : Outbox) → IsRecorded (Some []) b r → c.desk.journal ≡ both
        → r'.file ≡ Some (head_bytes (head_of c) ++ (6 ∷ 0 ∷ 0 ∷ 0 ∷ 0 ∷ []))
        → GivesWritten r b c old letters r' new → ⊥ }
    ensures not_failed { (r : RecorderState) (b c : BookState) (old : Outbox) (letters : List Sent) (r' : RecorderState)
        (new : Outbox) → Records r c (Err fault.Failed) r' → GivesWritten r b c old letters r' new → ⊥ }
    ensures not_short { (r : RecorderState) (b c : BookState) (old : Outbox) (letters : List Sent) (r' : RecorderState)
        (new : Outbox) → c.desk.journal ≡ both → r.written ≡ 1
        → Records r c (Err fault.OutOfMemory) r' → GivesWritten r b c old letters r' new → ⊥ }

    // Nor where the book got one entry more after its journal was written.
    ensures not_later { (r : RecorderState) (b c d : BookState) (old : Outbox) (letters : List Sent) (r' : RecorderState)
        (new : Outbox) → c.desk.journal ≡ hand_out ∷ [] → d.desk.journal ≡ hand_out ∷ hand_out ∷ []
        → Records r c (Ok (tt {0})) r' → GivesWritten r b d old letters r' new → ⊥ }

    // A node is mute once a write failed: it gives no message at any later time, and stays mute.
    ensures sound { (r : RecorderState) (b c : BookState) (old : Outbox) (letters : List Sent) (r' : RecorderState) (new : Outbox) → GivesWritten r b c old letters r' new → (r.broken ≡ false) × (r'.broken ≡ false) }
    ensures mute { (r : RecorderState) (b c : BookState) (old : Outbox) (letters : List Sent) (r' : RecorderState)
        (new : Outbox) → r.broken ≡ true → GivesWritten r b c old letters r' new → ⊥ }
    ensures stays_mute { (r : RecorderState) (c : BookState) (old : Outbox) (r' : RecorderState) (new : Outbox)
        → r.broken ≡ true → GivesNone r c old r' new → (r'.broken ≡ true) × (new ≡ old) }

    // Messages that are not given wait on, and where none waits none is given.
    ensures waits { (r : RecorderState) (c : BookState) (old : Outbox) (r' : RecorderState) (new : Outbox) → GivesNone r c old r' new → new.waiting ≡ old.waiting }
    ensures nothing_waits { (v : Wire) (qs asks : List Asking) (u w : Counts) (letters : List Sent) (has : List Said) → Gives v (outbox [] qs u) letters (outbox has asks w) → (length letters ≡ 0) × (has ≡ []) }
{}
