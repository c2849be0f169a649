//! For whom a message is meant, and what it asks for.

ghost use Rattle.std.specs.Prelude.{◌≡◌, ◌==◌, ℕ, false, [], None, Ok};
ghost use Rattle.sc_msg.specs.declared.message.Body.TheVariants.{StoreAck, CollectReply};
ghost use Rattle.sc_msg.specs.declared.message.CollectReply.{CollectReply as ReplyFields};
ghost use Rattle.sc_msg.specs.declared.message.StoreAck.{StoreAck as AckFields};
ghost use Rattle.sc_node.specs.State.{NodeState};
ghost use Rattle.sc_node.specs.Nodes.{delivered, message_from};
ghost use Rattle.q_held.specs.Addressees.{addressee_of, asking_tag};

use sc_msg::{Body, Message};

/// The one node that takes anything from the message; none where each node may. An acknowledgement and a reply name the
/// node that asked.
pub fn addressee(message: &Message) -> Option<u64>
    ensures { result ≡ addressee_of message.now.body }
{
    match &message.body {
        Body::StoreAck(ack) => Some(ack.to),
        Body::CollectReply(reply) => Some(reply.to),
        _ => None,
    }
}

/// The tag of the operation of the sender that waits for answers to the message; none where none does.
pub fn asking_operation(message: &Message) -> Option<u64>
    ensures { result ≡ asking_tag message.now.body }
{
    match &message.body {
        Body::Store(store) => Some(store.tag),
        Body::CollectQuery { tag } => Some(*tag),
        _ => None,
    }
}

/// A law of every node: an acknowledgement and a reply for another leave it as it is, and it says nothing of them.
pub fn others_take_nothing()
    ensures acknowledgement { (n : NodeState) (from : ℕ) (ack : AckFields) → n.gone ≡ false → (ack.to == n.id) ≡ false → delivered n (message_from from (StoreAck ack)) ≡ Ok (record { outs = []; progress = None; ended = None }, n) }
    ensures reply { (n : NodeState) (from : ℕ) (r : ReplyFields) → n.gone ≡ false → (r.to == n.id) ≡ false → delivered n (message_from from (CollectReply r)) ≡ Ok (record { outs = []; progress = None; ended = None }, n) }
{}
