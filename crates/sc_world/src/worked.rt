//! Worked values of what worlds, their ledgers and records are.

ghost use Rattle.std.specs.Prelude.{◌≡◌, ℕ, List, [], ◌∷◌, Some, None, Ok, true, false};
ghost use Rattle.std.specs.FinSet as set;
ghost use Rattle.sc_members.specs.Members.{Config};
ghost use Rattle.sc_msg.specs.declared.message.Message.{Message};
ghost use Rattle.sc_msg.specs.declared.message.Body.TheVariants.{StoreAck};
ghost use Rattle.sc_node.specs.Nodes.{ack_for};
ghost use Rattle.sc_node.specs.Sessions.{ackers};
ghost use Rattle.sc_node.specs.State.{NodeState};
ghost use Rattle.sc_operations.specs.declared.session.Session.{Session};
ghost use Rattle.sc_operations.specs.declared.progress.Progress.{Progress};
ghost use Rattle.sc_world.specs.Acts.{answered, begun_in, progress_in, IsReady};
ghost use Rattle.sc_world.specs.Ledgers.{first, has_room, recorded};
ghost use Rattle.sc_world.specs.Operations.{IsMeeting};
ghost use Rattle.sc_world.specs.State.{WorldState};
ghost use Rattle.sc_world.specs.Worlds.{collects, leaves, live, live_at, start, started, stepped, took};
ghost use Rattle.sc_world.specs.declared.act.BegunOp.{BegunOp};
ghost use Rattle.sc_world.specs.declared.op_change.OpChange.TheVariants.{Begins, Moves};
ghost use Rattle.sc_world.specs.declared.event.WorldEvent.{WorldEvent};
ghost use Rattle.sc_world.specs.declared.event.WorldEvent.TheVariants as event;
ghost use Rattle.sc_world.specs.declared.op.Op.{Op};

/// What the definitions say at telling operands.
pub fn worked()
    // A world begins with its founders, and each event is that of its node.
    ensures founded { (c : Config) → started c (3 ∷ []) ≡ Ok (start c (3 ∷ [])) }
    ensures founders { (c : Config) → (start c (3 ∷ [])).founders ≡ 3 ∷ [] }
    ensures collected { (w : WorldState) (n : NodeState) → live_at w 3 ≡ Some n → stepped w (event.Collect 3) ≡ took w (event.Collect 3) 3 (collects n) }
    ensures parted { (w : WorldState) (n : NodeState) → live_at w 3 ≡ Some n → stepped w (event.Leave 3) ≡ took w (event.Leave 3) 3 (leaves n) }
    ensures present { (n : NodeState) → n.gone ≡ false → live false (Some n) ≡ Some n }
    ensures gone { (n : NodeState) → n.gone ≡ true → live false (Some n) ≡ None }
    ensures crashed { (n : NodeState) → live true (Some n) ≡ None }

    // The ledger keeps what is sent, and has room for two messages.
    ensures kept { (c : Config) (e : WorldEvent) (m : Message) → (recorded (first c (3 ∷ [])) e 3 (m ∷ []) None None).sent ≡ m ∷ [] }
    ensures room { has_room 0 1 0 2 0 1 ≡ true }
    ensures room_for_one { has_room 0 1 0 1 0 1 ≡ false }

    // An event begins an operation, or moves one, and never both.
    ensures begins { (b : BegunOp) → (begun_in (Begins b) ≡ Some b) × (progress_in (Begins b) ≡ None) }
    ensures moves { (p : Progress) → (progress_in (Moves p) ≡ Some p) × (begun_in (Moves p) ≡ None) }

    // An answer to a node moves the operation that it is for.
    ensures answer { answered 3 4 (StoreAck (ack_for 3 0)) ≡ Some (0, 4) }
    ensures for_another { answered 3 4 (StoreAck (ack_for 5 0)) ≡ None }
    ensures not_ready { (s : Session) → IsReady (record { node = 3; tag = 0; begin = 0; end = None; session = s } ∷ []) 3 (Some (0, 4)) None → ⊥ }
    ensures not_met { (a b : Op) → ackers a.session ≡ set.empty → IsMeeting a b (Some 4) → ⊥ }
{}
