//! What is kept at each call of a node. Each law is the contract of a function that does nothing.

ghost use Rattle.std.specs.Prelude.{◌≡◌, ℕ, List, length, All, Ok};
ghost use Rattle.sc_members.specs.Members.{Config};
ghost use Rattle.sc_view.specs.Values.{Lengths, IsWithin};
ghost use Rattle.sc_msg.specs.declared.message.Message.{Message};
ghost use Rattle.sc_msg.specs.Lengths.{MessageHasValuesWithin};
ghost use Rattle.sc_node.specs.declared.answer.Begun.{Begun};
ghost use Rattle.sc_node.specs.declared.answer.Delivered.{Delivered};
ghost use Rattle.sc_node.specs.State.{NodeState};
ghost use Rattle.sc_node.specs.Nodes.{founded, entered, store_begun, collect_begun, left, delivered};
ghost use Rattle.sc_node.specs.Lengths.{NodeHasValuesWithin, BegunHasValuesWithin, DeliveryHasValuesWithin};

/// A law: a new node has no value, so each of its values has one of any lengths; nor has what it sends.
pub fn new_nodes_have_no_value()
    ensures founder { (l : Lengths) (c : Config) (id : ℕ) (ids : List ℕ) (s : NodeState) → founded c id ids ≡ Ok s → NodeHasValuesWithin l s }
    ensures entering { (l : Lengths) (c : Config) (id : ℕ) → NodeHasValuesWithin l (entered c id).0 }
    ensures says { (l : Lengths) (c : Config) (id : ℕ) → All (MessageHasValuesWithin l) (entered c id).1 }
{}

/// A law: what a node keeps and sends as a store of a value of one of those lengths begins.
pub fn store_keeps_lengths()
    ensures { (l : Lengths) (s t : NodeState) (value : List ℕ) (b : Begun) → NodeHasValuesWithin l s → IsWithin (length value) l → store_begun s value ≡ Ok (b, t) → NodeHasValuesWithin l t × BegunHasValuesWithin l b }
{}

/// A law: the same as a collect begins.
pub fn collect_keeps_lengths()
    ensures { (l : Lengths) (s t : NodeState) (b : Begun) → NodeHasValuesWithin l s → collect_begun s ≡ Ok (b, t) → NodeHasValuesWithin l t × BegunHasValuesWithin l b }
{}

/// A law: the same as a node leaves.
pub fn leave_keeps_lengths()
    ensures { (l : Lengths) (s t : NodeState) (outs : List Message) → NodeHasValuesWithin l s → left s ≡ Ok (outs, t) → NodeHasValuesWithin l t × All (MessageHasValuesWithin l) outs }
{}

/// A law: the same as a message is delivered whose values have those lengths.
pub fn delivery_keeps_lengths()
    ensures { (l : Lengths) (s t : NodeState) (m : Message) (d : Delivered) → NodeHasValuesWithin l s → MessageHasValuesWithin l m → delivered s m ≡ Ok (d, t) → NodeHasValuesWithin l t × DeliveryHasValuesWithin l d }
{}
