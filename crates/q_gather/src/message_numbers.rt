//! The numbers of messages that were sent.

ghost use Rattle.std.specs.Prelude.{◌≡◌, [], IfOk, OnOk, OnErr};
ghost use Rattle.sc_msg.specs.declared.version.Version.{Version};
ghost use Rattle.sc_msg.specs.Messages.{message_bytes, IsMessage};
ghost use Rattle.q_gather.specs.Numbers.{number_of, added};

use indexmap::IndexMap;
use sc_msg::{Message, encode};
use std::alloc::{AllocError, Global};
use std::marker::Model;

/// The least number at which each message was sent, by its bytes in version 2, in which each message has some.
/// Contracts see it as a list of bytes, each with a number.
#[derive(Drop)]
pub struct MessageNumbers {
    alloc: Global,
    by_bytes: IndexMap<Vec<u8>, usize>,
}

impl Model for MessageNumbers {
    ghost use Rattle.std.specs.Prelude.{ℕ, List, map};

    ghost Value = { List (List ℕ × ℕ) };

    ghost view = { λ n. map (λ e. (e.0.items, e.1)) n.by_bytes.entries };
}

impl MessageNumbers {
    /// No message has a number.
    pub fn new(alloc: Global) -> MessageNumbers
        ensures { result ≡ [] }
    {
        MessageNumbers {
            alloc,
            by_bytes: IndexMap::new(alloc),
        }
    }

    /// The number of a message, where it has one. The one error is that memory ran out (99 OutOfMemory).
    pub fn find(&self, message: &Message) -> Result<Option<usize>, AllocError>
        ensures legal { OnOk result (IsMessage Version.Second message.now) }
        ensures number { IfOk result (λ n. n ≡ number_of (message_bytes Version.Second message.now) self.now) }
    {
        let bytes = encode(self.alloc, message)?;
        Ok(self.by_bytes.get(&bytes).copied())
    }

    /// Gives a message this number, where it has none. The one error is that memory ran out (99 OutOfMemory); then the
    /// numbers are as they were.
    pub fn add(&mut self, message: &Message, number: usize) -> Result<(), AllocError>
        ensures legal { OnOk result (IsMessage Version.Second message.now) }
        ensures added { OnOk result (self.new ≡ added (message_bytes Version.Second message.now) number self.old) }
        ensures err { OnErr result (self.new ≡ self.old) }
    {
        let bytes = encode(self.alloc, message)?;
        if self.by_bytes.get_index_of(&bytes).is_none() {
            self.by_bytes.insert(bytes, number)?;
        }
        Ok(())
    }
}
