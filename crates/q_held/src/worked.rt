//! Worked values of losses, of what is done under a lock, of addressees, and of what a node that comes back asks again.

ghost use Rattle.std.specs.Prelude.{◌≡◌, ◌++◌, ℕ, List, [], codes, length, Ok, Err, Option, Some, None, Result, true, false, ◌∷◌};
ghost use Rattle.std.specs.FinMap as fin;
ghost use Rattle.sc_msg.specs.declared.fault.MessageFault.{MessageFault};
ghost use Rattle.sc_msg.specs.declared.message.Message.{Message as Sent};
ghost use Rattle.sc_msg.specs.declared.message.Body.TheVariants as body;
ghost use Rattle.sc_msg.specs.declared.message.CollectReply.{CollectReply as ReplyFields};
ghost use Rattle.sc_msg.specs.declared.message.EnterEcho.{EnterEcho as EchoFields};
ghost use Rattle.sc_msg.specs.declared.message.Store.{Store as StoreFields};
ghost use Rattle.sc_msg.specs.declared.message.StoreAck.{StoreAck as AckFields};
ghost use Rattle.sc_view.specs.Views.{ViewMap};
ghost use Rattle.sc_view.specs.declared.view.Stored.{Stored as Value};
ghost use Rattle.sc_operations.specs.declared.session.Phase.{Phase as Waiting};
ghost use Rattle.sc_operations.specs.declared.session.Session.TheVariants as operation;
ghost use Rattle.sc_operations.specs.declared.session.StoreBack.{StoreBack as Back};
ghost use Rattle.sc_node.specs.State.{NodeState};
ghost use Rattle.sc_node.specs.declared.answer.Begun.{Begun as Started};
ghost use Rattle.q_session.specs.declared.job.Job.{Job as Work};
ghost use Rattle.q_board.specs.AskerModel.{AskerModel};
ghost use Rattle.q_board.specs.Places.{jobs};
ghost use Rattle.q_desk.specs.Desks.{running_job};
ghost use Rattle.q_desk.specs.declared.completed.Completed.{Completed};
ghost use Rattle.q_book.specs.State.{BookState};
ghost use Rattle.q_book.specs.Books.{asked, delivered, stored};
ghost use Rattle.q_book.specs.declared.answer.Asked.{Asked};
ghost use Rattle.q_book.specs.declared.answer.Delivery.{Delivery};
ghost use Rattle.reasons.specs.declared.Reason.TheVariants as reasons;
ghost use Rattle.q_board.specs.Pumped.{Pumped};
ghost use Rattle.q_held.specs.LiveNodes.{Asks, Delivers, Hears, Receives, Stores, both_unsent, counted, losses_text, no_losses, sum_of, together, unsent_text, with_one};
ghost use Rattle.q_held.specs.Addressees.{addressee_of, asking_tag};
ghost use Rattle.q_held.specs.Resumed.{OffersFirst, asked_under, bodies_asked, operations_asked, running_jobs, still_asked};
ghost use Rattle.q_held.specs.declared.live_node.LossReason.{LossReason};
ghost use Rattle.q_held.specs.declared.live_node.LossReason.TheVariants as lost;
ghost use Rattle.q_held.specs.declared.losses.LossCounts.{LossCounts as Counts};

/// What counts as lost, and what as not sent.
pub fn worked()
    // Datagrams that changed nothing, by why, up to the greatest value.
    ensures none { no_losses ≡ record { bytes = 0; book = 0; memory = 0 } }
    ensures no_message { (f : MessageFault) → with_one (record { bytes = 1; book = 2; memory = 3 }) (lost.Bytes f) ≡ record { bytes = 2; book = 2; memory = 3 } }
    ensures by_the_book { with_one (record { bytes = 1; book = 2; memory = 3 }) (lost.Book reasons.BadValue) ≡ record { bytes = 1; book = 3; memory = 3 } }
    ensures for_memory { with_one (record { bytes = 1; book = 2; memory = 3 }) lost.OutOfMemory ≡ record { bytes = 1; book = 2; memory = 4 } }
    ensures heard { counted (Ok None) (record { bytes = 1; book = 2; memory = 3 }) ≡ record { bytes = 1; book = 2; memory = 3 } }
    ensures not_heard { counted (Err lost.OutOfMemory) (record { bytes = 1; book = 2; memory = 3 }) ≡ record { bytes = 1; book = 2; memory = 4 } }
    ensures most { sum_of 18446744073709551615 1 ≡ 18446744073709551615 }
    ensures both { together (record { bytes = 1; book = 2; memory = 3 }) (record { bytes = 10; book = 20; memory = 30 }) ≡ record { bytes = 11; book = 22; memory = 33 } }

    // What was not sent.
    ensures not_sent { both_unsent (record { sends = 1; messages = 2 }) (record { sends = 10; messages = 20 }) ≡ record { sends = 11; messages = 22 } }
{}

/// Which lines tell it.
pub fn worked_texts()
    ensures losses_line { losses_text (record { bytes = 1; book = 2; memory = 3 }) ≡ codes "refused datagrams: 1 that spell no message, 2 by books, 3 for want of memory" }
    ensures unsent_line { unsent_text (record { sends = 1; messages = 2 }) ≡ codes "not sent: 1 datagrams that failed, 2 messages that have no bytes" }
{}

/// What is done under a lock, where the call of the book answers this.
pub fn worked_calls()
    ensures delivered { (m : Sent) (b c d : BookState) (had has : List Sent) (o : Option Completed) (a : Delivery) → delivered b m ≡ Ok (a, d) → Delivers m b had (Ok o) c has → (c ≡ d) × (o ≡ a.completed) × (has ≡ had ++ a.outs) }
    ensures bell { (b c : BookState) (had has : List Sent) (l k : Counts) (o : Option Completed) → Receives [] b had l o c has k → (c ≡ b) × (has ≡ had) × (o ≡ None) × (k ≡ l) }
    ensures no_bell { (b c : BookState) (had has : List Sent) (l k : Counts) (o : Option Completed) → Receives (1 ∷ []) b had l o c has k → (r : Result (Option Completed) LossReason) × (k ≡ counted r l) × Hears (1 ∷ []) b had r c has }
    ensures not_spelled { (b c : BookState) (had has : List Sent) (f : MessageFault) → Hears [] b had (Err (lost.Bytes f)) c has → (c ≡ b) × (has ≡ had) }
    ensures stored { (value : List ℕ) (tag : ℕ) (b c d : BookState) (had has : List Sent) (a : Started) → stored b value ≡ Ok (a, d) → Stores value b had (Ok tag) c has → (tag ≡ a.tag) × (has ≡ had ++ a.outs) }
    ensures asked { (program start query : ℕ) (b c d : BookState) (had has : List Sent) (a : Asked) → asked b program start ≡ Ok (a, d) → Asks program start b had (Ok query) c has → (query ≡ a.query) × (has ≡ had ++ a.begun.outs) }
    ensures pumped { (a a' : AskerModel) (b b' : BookState) (p : Pumped a b 0 a' b') → p.carries.accepted ≡ [] }
{}

/// For whom a message is meant, and which operation waits for answers to it.
pub fn worked_addressees()
    ensures acknowledgement { (ack : AckFields) → addressee_of (body.StoreAck ack) ≡ Some ack.to }
    ensures reply { (r : ReplyFields) → addressee_of (body.CollectReply r) ≡ Some r.to }
    ensures all { (s : StoreFields) (v : ViewMap) → (addressee_of (body.Store s) ≡ None) × (addressee_of (body.StoreEcho v) ≡ None) × (addressee_of (body.CollectQuery 7) ≡ None) }
    ensures entering { (e : EchoFields) → addressee_of (body.EnterEcho e) ≡ None }
    ensures asks { (s : StoreFields) → (asking_tag (body.Store s) ≡ Some s.tag) × (asking_tag (body.CollectQuery 7) ≡ Some 7) }
    ensures asks_nothing { (ack : AckFields) (v : ViewMap) → (asking_tag (body.StoreAck ack) ≡ None) × (asking_tag (body.StoreEcho v) ≡ None) }
{}

/// What a node that comes back asks again.
pub fn worked_asked()
    // A node that left says only that, also where operations are open. Each message is from the node itself.
    ensures left { (founders : Option (List ℕ)) (n : NodeState) → n.gone ≡ true → bodies_asked founders n ≡ body.Leave ∷ [] }
    ensures own { (b : BookState) → b.id ≡ 7 → b.node.gone ≡ true → still_asked b ≡ record { from = 7; body = body.Leave } ∷ [] }

    // A node that entered asks to enter until it has joined, and says that it joined from then on. A founder says neither.
    ensures enters { (n : NodeState) → n.gone ≡ false → n.joined ≡ false → n.operations ≡ 0 → bodies_asked None n ≡ body.Enter ∷ [] }
    ensures has_joined { (n : NodeState) → n.gone ≡ false → n.joined ≡ true → n.operations ≡ 0 → bodies_asked None n ≡ body.Join ∷ [] }
    ensures founder { (n : NodeState) → n.gone ≡ false → n.joined ≡ true → n.operations ≡ 0 → bodies_asked (Some (1 ∷ 2 ∷ [])) n ≡ [] }

    // An open operation asks under its tag: for views while its query phase is open, and else to store its view.
    ensures queries { (n : NodeState) (p : Waiting) → n.gone ≡ false → n.operations ≡ 1 → fin.get n.sessions 0 ≡ Some (operation.Querying p) → bodies_asked (Some (1 ∷ [])) n ≡ body.CollectQuery 0 ∷ [] }
    ensures stores { (n : NodeState) (e : Value) (b : Back) → fin.get n.sessions 3 ≡ Some (operation.Store e b) → asked_under n 3 ≡ body.Store (record { tag = 3; view = b.view }) ∷ [] }
    ensures stores_back { (n : NodeState) (p : Waiting) (b : Back) → fin.get n.sessions 3 ≡ Some (operation.StoringBack p b) → asked_under n 3 ≡ body.Store (record { tag = 3; view = b.view }) ∷ [] }

    // All open operations ask, by rising tags, after what the node says of its membership. One that ended asks nothing.
    ensures in_turn { (n : NodeState) (p q : Waiting) → n.operations ≡ 3 → fin.get n.sessions 0 ≡ Some (operation.Querying p) → fin.get n.sessions 1 ≡ None → fin.get n.sessions 2 ≡ Some (operation.Querying q) → operations_asked n ≡ body.CollectQuery 0 ∷ body.CollectQuery 2 ∷ [] }
    ensures after { (n : NodeState) (p : Waiting) → n.gone ≡ false → n.joined ≡ true → n.operations ≡ 1 → fin.get n.sessions 0 ≡ Some (operation.Querying p) → bodies_asked None n ≡ body.Join ∷ body.CollectQuery 0 ∷ [] }
{}

/// Which jobs a node that comes back offers again.
pub fn worked_offered()
    // Those of the queries that run, by rising numbers.
    ensures none_runs { (b : BookState) → length b.desk.queries ≡ 1 → running_job b.desk b.id 0 ≡ None → running_jobs b ≡ [] }
    ensures run { (b : BookState) (j k : Work) → length b.desk.queries ≡ 3 → running_job b.desk b.id 0 ≡ Some j → running_job b.desk b.id 1 ≡ None → running_job b.desk b.id 2 ≡ Some k → running_jobs b ≡ j ∷ k ∷ [] }

    // All of them, where the row has room; and else the first, and none beyond a full row.
    ensures all { (a b : AskerModel) (j k : Work) → jobs b.row ≡ 2 → OffersFirst (j ∷ k ∷ []) a b → b.offered ≡ a.offered ++ (j ∷ k ∷ []) }
    ensures first { (a b : AskerModel) (j k : Work) → jobs a.row ≡ 7 → jobs b.row ≡ 8 → OffersFirst (j ∷ k ∷ []) a b → b.offered ≡ a.offered ++ (j ∷ []) }
    ensures full { (a b : AskerModel) (j : Work) → jobs a.row ≡ 8 → jobs b.row ≡ 8 → OffersFirst (j ∷ []) a b → b.offered ≡ a.offered }
    ensures not_forgotten { (a b : AskerModel) (j : Work) → jobs a.row ≡ 0 → jobs b.row ≡ 0 → OffersFirst (j ∷ []) a b → ⊥ }
{}
