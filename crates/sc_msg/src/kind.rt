//! The eleven kinds of messages.

ghost use Rattle.std.specs.Prelude.{◌≡◌};
ghost use Rattle.sc_msg.specs.Kinds.{code, kind_at, kind_of, name_of};

use crate::message::{Body, Message};

/// What a message is about, without what it carries.
#[derive(Clone, Copy, Debug, PartialEq, Eq)]
pub enum MessageKind {
    /// 1: a node enters.
    Enter,
    /// 2: what the sender knows, for a node that enters.
    EnterEcho,
    /// 3: a node has joined.
    Join,
    /// 4: the sender heard that a node has joined.
    JoinEcho,
    /// 5: a node leaves.
    Leave,
    /// 6: the sender heard that a node leaves.
    LeaveEcho,
    /// 7: a view is stored, or stored back.
    Store,
    /// 8: the sender has learned what is stored.
    StoreAck,
    /// 9: what the sender knows after a store.
    StoreEcho,
    /// 10: views are asked for.
    CollectQuery,
    /// 11: the sender's view, for who asked.
    CollectReply,
}

impl MessageKind {
    /// The word by which a message of this kind is printed, as `store-ack`.
    pub fn name(&self) -> &'static str
        ensures { result.now ≡ name_of self.now }
    {
        match self {
            MessageKind::Enter => "enter",
            MessageKind::EnterEcho => "enter-echo",
            MessageKind::Join => "join",
            MessageKind::JoinEcho => "join-echo",
            MessageKind::Leave => "leave",
            MessageKind::LeaveEcho => "leave-echo",
            MessageKind::Store => "store",
            MessageKind::StoreAck => "store-ack",
            MessageKind::StoreEcho => "store-echo",
            MessageKind::CollectQuery => "collect-query",
            MessageKind::CollectReply => "collect-reply",
        }
    }

    /// The kind of the fourth byte of a message.
    pub(crate) fn of_byte(byte: u8) -> Option<MessageKind>
        ensures { result ≡ kind_at byte }
    {
        match byte {
            1 => Some(MessageKind::Enter),
            2 => Some(MessageKind::EnterEcho),
            3 => Some(MessageKind::Join),
            4 => Some(MessageKind::JoinEcho),
            5 => Some(MessageKind::Leave),
            6 => Some(MessageKind::LeaveEcho),
            7 => Some(MessageKind::Store),
            8 => Some(MessageKind::StoreAck),
            9 => Some(MessageKind::StoreEcho),
            10 => Some(MessageKind::CollectQuery),
            11 => Some(MessageKind::CollectReply),
            _ => None,
        }
    }

    /// The fourth byte of a message of this kind.
    pub(crate) fn byte(self) -> u8
        ensures { result ≡ code self }
    {
        match self {
            MessageKind::Enter => 1,
            MessageKind::EnterEcho => 2,
            MessageKind::Join => 3,
            MessageKind::JoinEcho => 4,
            MessageKind::Leave => 5,
            MessageKind::LeaveEcho => 6,
            MessageKind::Store => 7,
            MessageKind::StoreAck => 8,
            MessageKind::StoreEcho => 9,
            MessageKind::CollectQuery => 10,
            MessageKind::CollectReply => 11,
        }
    }
}

impl Message {
    /// Which of the eleven kinds of messages this is.
    pub fn kind(&self) -> MessageKind
        ensures { result ≡ kind_of self.now.body }
    {
        match &self.body {
            Body::Enter => MessageKind::Enter,
            Body::EnterEcho { .. } => MessageKind::EnterEcho,
            Body::Join => MessageKind::Join,
            Body::JoinEcho { .. } => MessageKind::JoinEcho,
            Body::Leave => MessageKind::Leave,
            Body::LeaveEcho { .. } => MessageKind::LeaveEcho,
            Body::Store { .. } => MessageKind::Store,
            Body::StoreAck { .. } => MessageKind::StoreAck,
            Body::StoreEcho { .. } => MessageKind::StoreEcho,
            Body::CollectQuery { .. } => MessageKind::CollectQuery,
            Body::CollectReply { .. } => MessageKind::CollectReply,
        }
    }
}
