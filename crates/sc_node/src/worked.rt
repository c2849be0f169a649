//! Worked values of what a node does.

ghost use Rattle.std.specs.Prelude.{◌≡◌, ◌==◌, ℕ, [], ◌∷◌, true, false, Some, None, Ok, Err};
ghost use Rattle.sc_members.specs.Members.{Config, is_overfull, with_left};
ghost use Rattle.sc_msg.specs.declared.message.Message.{Message as Sent};
ghost use Rattle.sc_msg.specs.declared.message.Body.TheVariants.{Enter, Leave, StoreAck};
ghost use Rattle.sc_msg.specs.declared.message.StoreAck.{StoreAck as AckFields};
ghost use Rattle.sc_node.specs.Sessions.{ended_with};
ghost use Rattle.sc_node.specs.State.{NodeState};
ghost use Rattle.sc_node.specs.Nodes.{are_founders, delivered, entered, founded, founder, left, message_from, next_stored, progress_of};
ghost use Rattle.sc_operations.specs.declared.progress.OpResult.TheVariants as op_result;
ghost use Rattle.reasons.specs.declared.Reason.TheVariants as reasons;
ghost use Rattle.sc_operations.specs.declared.session.Phase.{Phase};
ghost use Rattle.sc_operations.specs.declared.session.Session.TheVariants as session;
ghost use Rattle.sc_operations.specs.declared.session.StoreBack.{StoreBack};

/// What the definitions say of founders and of a node that enters, of one that leaves or has left, of the number of a
/// store, and of an acknowledgement for another node.
pub fn worked()
    ensures founder { (c : Config) → founded c 7 (7 ∷ []) ≡ Ok (founder c (7 ∷ []) 7) }
    ensures not_listed { (c : Config) → founded c 7 (8 ∷ []) ≡ Err reasons.BadFounders }
    ensures not_rising { (c : Config) → founded c 7 (7 ∷ 7 ∷ []) ≡ Err reasons.BadFounders }
    ensures no_founders { are_founders [] ≡ false }
    ensures falling { are_founders (9 ∷ 7 ∷ []) ≡ false }
    ensures enters { (c : Config) → (entered c 7).1 ≡ message_from 7 Enter ∷ [] }
    ensures leaves { (n : NodeState) → n.gone ≡ false → is_overfull (with_left n.facts n.id) ≡ false → left n ≡ Ok (message_from n.id Leave ∷ [], record n { facts = with_left n.facts n.id; gone = true }) }
    ensures gone { (n : NodeState) (m : Sent) → n.gone ≡ true → delivered n m ≡ Err reasons.Gone }
    ensures number { (n : NodeState) → n.stores ≡ 4 → (next_stored n (9 ∷ [])).number ≡ 5 }
    ensures returned { (tag : ℕ) (query : Phase) (back : StoreBack) → ended_with tag (session.StoringBack query back) ≡ Some (record { tag = tag; what = op_result.Returned back.view }) }
    ensures for_another { (n : NodeState) (from : ℕ) (ack : AckFields) → (ack.to == n.id) ≡ false → progress_of n from (StoreAck ack) ≡ None }
{}
