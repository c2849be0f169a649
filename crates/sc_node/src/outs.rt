ghost use Rattle.std.specs.Prelude.{◌≡◌, ◌==◌, ◌+◌, ◌≤◌, [], ◌∷◌, ◌++◌, length, vec_len, vec_capacity, slice_get, option_copied};

use sc_msg::{Body, Message};
use smallvec::SmallVec;
use std::alloc::Global;
use std::marker::Model;

/// A message in its place; an unused place holds some message.
#[derive(Drop)]
struct Slot {
    message: Message,
}

impl Default for Slot {
    fn default() -> Slot {
        Slot {
            message: Message {
                from: 0,
                body: Body::Enter,
            },
        }
    }
}

/// The messages that one event sends, at most two. Each goes to all nodes, the sender included.
pub struct Outs {
    slots: SmallVec<Slot, 2>,
}

impl Drop for Outs {
    // By hand, so that it is proved here alone, and not in each crate that drops one.
    fn drop(self) {
        let Outs { slots: _ } = self;
    }
}

impl Model for Outs {
    ghost use Rattle.std.specs.Prelude.{List, map, length, ◌≤◌};
    ghost use Rattle.std.specs.Coded.{coded_list};
    ghost use Rattle.sc_msg.specs.declared.message.Message.{Message as Sent};
    ghost use Rattle.sc_msg.specs.contracts.message.Message as message;

    ghost Value = { List Sent };

    ghost coded = { coded_list message.the_row.coded };

    ghost view = { λ a. map (λ s. s.message) a.slots.items };

    ghost invariant = { λ a. length a.slots.items ≤ 2 };
}

impl Outs {
    /// No message.
    pub fn none(alloc: Global) -> Outs
        ensures { result ≡ [] }
    {
        Outs {
            slots: SmallVec::new(alloc),
        }
    }

    /// One message, which takes no memory.
    pub fn one(alloc: Global, message: Message) -> Outs
        ensures { result ≡ message ∷ [] }
    {
        let mut slots = SmallVec::new(alloc);
        slots.push_reserved(Slot { message });
        Outs { slots }
    }

    /// Two messages, which take no memory.
    pub fn two(alloc: Global, first: Message, second: Message) -> Outs
        ensures { result ≡ first ∷ second ∷ [] }
    {
        let mut slots = SmallVec::new(alloc);
        slots.push_reserved(Slot { message: first });
        slots.push_reserved(Slot { message: second });
        Outs { slots }
    }

    /// How many there are.
    pub fn len(&self) -> usize
        ensures value { result ≡ length self.now }
        ensures few { length self.now ≤ 2 }
    {
        self.slots.len()
    }

    /// Whether there is no message.
    pub fn is_empty(&self) -> bool
        ensures { result ≡ (length self.now == 0) }
    {
        self.slots.is_empty()
    }

    /// The message in that place, counted from 0.
    pub fn get(&self, index: usize) -> Option<&Message>
        ensures { option_copied result ≡ slice_get self.now index }
    {
        let slot = self.slots.get(index)?;
        Some(&slot.message)
    }

    /// Puts the messages behind those that were sent, where there is room for them. Takes no memory.
    pub fn append_to(self, sent: &mut Vec<Message>)
        requires { vec_len sent.old + length self ≤ vec_capacity sent.old }
        ensures { sent.new.items ≡ sent.old.items ++ self }
    {
        let Outs { slots } = self;
        for slot in slots {
            sent.push_reserved(slot.message);
        }
    }
}
