//! Why bytes are no message, and the reason that is told of each.

ghost use Rattle.std.specs.Prelude.{◌≡◌};
ghost use Rattle.sc_msg.specs.Fault.{reason, view_fault};
ghost use Rattle.sc_msg.specs.declared.fault.MessageFault.TheVariants.{OutOfMemory};

use reasons::{Reason, passed_on, told};
use sc_view::ViewFault;
use std::alloc::{AllocError, AllocFailed};

/// What is first wrong with bytes that are no message.
#[derive(Clone, Copy, Debug, PartialEq, Eq)]
pub enum MessageFault {
    /// 71: the first three bytes are not 42 51, for the format, and the byte of the version that is asked for.
    BadHead,
    /// 72: the bytes end before the head of 12 bytes does, or before a field does.
    Short,
    /// 73: there are more than 60,000 bytes.
    TooLong,
    /// 74: the fourth byte is no kind, 1 to 11.
    BadKind,
    /// 75: an id is not above the one before it.
    Unsorted,
    /// 76: bytes stand behind the last field.
    Extra,
    /// 77: a joined byte above 1, a count or a length above its limit, or a sequence number 0.
    BadField,
    /// 99: memory ran out. It may stand in place of any other answer.
    OutOfMemory,
}

impl MessageFault {
    /// The reason by which the fault is told, 71 to 77 or 99.
    pub fn reason(self) -> Reason
        ensures { result ≡ reason self }
    {
        told!(self, MessageFault: BadHead, Short, TooLong => LongMessage, BadKind, Unsorted, Extra, BadField => MessageField, OutOfMemory)
    }
}

impl From<AllocError> for MessageFault {
    ghost from_gives = { λ _ e. e ≡ OutOfMemory };

    fn from(_error: AllocError) -> Self {
        MessageFault::OutOfMemory
    }
}

impl<T: Drop> From<AllocFailed<T>> for MessageFault {
    ghost from_gives = { λ _ e. e ≡ OutOfMemory };

    fn from(_error: AllocFailed<T>) -> Self {
        MessageFault::OutOfMemory
    }
}

impl From<ViewFault> for MessageFault {
    ghost from_gives = { λ fault e. e ≡ view_fault fault };

    fn from(fault: ViewFault) -> Self {
        passed_on!(fault, ViewFault as MessageFault: Full => BadField, OutOfMemory)
    }
}
