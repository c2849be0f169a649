ghost use Rattle.std.specs.Prelude.{◌≡◌, Some, None, option_copied};

use crate::outs::Outs;
use sc_operations::Session;
pub use sc_operations::{Advance, Ended, OpResult, Progress};

/// An operation that began.
#[derive(Drop)]
pub struct Begun {
    /// The operation's tag: how many operations the node had begun before.
    pub tag: u64,
    /// The operation as the node keeps it, for a record of it.
    pub session: Session,
    /// The messages that the node sends.
    pub outs: Outs,
}

/// What a node tells of a message that it took.
#[derive(Drop)]
pub struct Delivered {
    /// The messages that the node sends.
    pub outs: Outs,
    /// The operation that the message moved.
    pub progress: Option<Progress>,
    /// The operation that the message ended.
    pub ended: Option<Ended>,
}

impl Delivered {
    /// Only these messages are sent.
    pub(crate) fn sending(outs: Outs) -> Delivered
        ensures { result ≡ record { outs = outs; progress = None; ended = None } }
    {
        Delivered {
            outs,
            progress: None,
            ended: None,
        }
    }

    /// These messages are sent, and an operation is moved that goes on.
    pub(crate) fn moving(outs: Outs, tag: u64, sender: u64, advance: Advance) -> Delivered
        ensures { result ≡ record { outs = outs; progress = Some (record { tag = tag; sender = sender; advance = advance }); ended = None } }
    {
        Delivered {
            outs,
            progress: Some(Progress {
                tag,
                sender,
                advance,
            }),
            ended: None,
        }
    }

    /// The operation that the message ended.
    pub fn ended(&self) -> Option<&Ended>
        ensures { option_copied result ≡ self.now.ended }
    {
        self.ended.as_ref()
    }
}
