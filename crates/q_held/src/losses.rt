//! Datagrams that changed nothing, and what was not sent.

ghost use Rattle.std.specs.Prelude.{◌≡◌};
ghost use Rattle.q_held.specs.LiveNodes.{both_unsent, is_all_sent, losses_text, no_losses, no_unsent, together, unsent_text, with_one};

use crate::live_node::LossReason;
use std::fmt;

/// How many datagrams changed nothing, by why. Each count stays at its greatest value. Its text is the line that tells
/// them, without the line feed.
#[derive(Clone, Copy)]
pub struct LossCounts {
    /// Those whose bytes spell no message.
    pub bytes: u64,
    /// Those whose message the book refused.
    pub book: u64,
    /// Those for which memory ran out.
    pub memory: u64,
}

impl LossCounts {
    /// None.
    pub fn none() -> LossCounts
        ensures { result ≡ no_losses }
    {
        LossCounts {
            bytes: 0,
            book: 0,
            memory: 0,
        }
    }

    /// One datagram more was lost.
    pub fn count(&mut self, lost: LossReason)
        ensures { self.new ≡ with_one self.old lost }
    {
        match lost {
            LossReason::Bytes(_) => self.bytes = self.bytes.saturating_add(1),
            LossReason::Book(_) => self.book = self.book.saturating_add(1),
            LossReason::OutOfMemory => self.memory = self.memory.saturating_add(1),
        }
    }

    /// These and others.
    pub fn and(self, others: LossCounts) -> LossCounts
        ensures { result ≡ together self others }
    {
        LossCounts {
            bytes: self.bytes.saturating_add(others.bytes),
            book: self.book.saturating_add(others.book),
            memory: self.memory.saturating_add(others.memory),
        }
    }
}

impl fmt::Display for LossCounts {
    ghost use Rattle.std.specs.Prelude.{Some};

    ghost output = { λ losses. Some (losses_text losses) };

    fn fmt<W: fmt::Write>(&self, f: &mut fmt::Formatter<W>) -> fmt::Result {
        let bytes = self.bytes;
        let book = self.book;
        let memory = self.memory;
        write!(
            f,
            "refused datagrams: {bytes} that spell no message, {book} by books, {memory} for want of memory"
        )
    }
}

/// What nodes did not send, by why. Each count stays at its greatest value. Its text is the line that tells it, without
/// the line feed.
#[derive(Clone, Copy)]
pub struct Unsent {
    /// How many sends of a datagram failed.
    pub sends: u64,
    /// How many messages have no bytes: memory ran out, or they are of another version.
    pub messages: u64,
}

impl Unsent {
    /// All was sent.
    pub fn none() -> Unsent
        ensures { result ≡ no_unsent }
    {
        Unsent {
            sends: 0,
            messages: 0,
        }
    }

    /// A message that has no bytes.
    pub fn message() -> Unsent
        ensures { result ≡ record no_unsent { messages = 1 } }
    {
        Unsent {
            sends: 0,
            messages: 1,
        }
    }

    /// A send of a datagram that failed.
    pub fn send() -> Unsent
        ensures { result ≡ record no_unsent { sends = 1 } }
    {
        Unsent {
            sends: 1,
            messages: 0,
        }
    }

    /// This and more.
    pub fn and(self, more: Unsent) -> Unsent
        ensures { result ≡ both_unsent self more }
    {
        Unsent {
            sends: self.sends.saturating_add(more.sends),
            messages: self.messages.saturating_add(more.messages),
        }
    }

    /// Whether all was sent.
    pub fn is_none(self) -> bool
        ensures { result ≡ is_all_sent self }
    {
        self.sends == 0 && self.messages == 0
    }
}

impl fmt::Display for Unsent {
    ghost use Rattle.std.specs.Prelude.{Some};

    ghost output = { λ unsent. Some (unsent_text unsent) };

    fn fmt<W: fmt::Write>(&self, f: &mut fmt::Formatter<W>) -> fmt::Result {
        let sends = self.sends;
        let messages = self.messages;
        write!(
            f,
            "not sent: {sends} datagrams that failed, {messages} messages that have no bytes"
        )
    }
}
