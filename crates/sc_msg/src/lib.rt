//! What the nodes of a store-collect object send each other (the CCC article), and its bytes.
//!
//! A [`Message`](message::Message) has a sender and one of eleven bodies. Its bytes are 42 51, the byte of a
//! [`Version`](version::Version) (01 or 02), the byte of its kind (1 to 11), the sender in eight bytes, and the fields
//! of its body from left to right.
//! Numbers have their lowest byte first. A truth is one byte, 0 or 1. A set of ids is a count of two bytes,
//! at most 1,024, and the ids in strictly rising order. A view is a count of two bytes, at most 256, and for
//! each node, in strictly rising order, a record: its id, the sequence number from 1, and the value that it stored. In
//! version 1 each value has 48 bytes, and in version 2 a byte stands before it that tells how many it has, 0 to 112. No
//! message has more than 57,629 bytes, and more than 60,000 are never read.
//!
//! Promised, for all bytes and all messages:
//!
//! - [`encode`](encode::encode) writes just the spelling of a message in version 2, `message_bytes` of
//!   `specs/Messages.antt`. [`encode_v1`](encode::encode_v1) writes that of version 1, and refuses a message with a
//!   value of another length than 48.
//! - [`first_message`](front::first_message) answers the message that stands first in bytes, with the bytes behind it,
//!   or names the fault that stands first, `IsFault` of `specs/Fault.antt`. Want of memory may come in place of either.
//!   Whole messages are read by `sc_decode`, above.
//! - In a version bytes spell one message at most, have one fault at most, and never both (`laws`).
//!
//! Definitions, the reader and the writer take the version as an argument, so nothing of them is said twice.
//!
//! The node and the world stand on the types, and whoever sends messages or keeps them in a journal stands on
//! the bytes.
#![tactic(auto)]

mod body;
mod encoder;
mod fault;
mod front;
mod kind;
pub mod laws;
mod message;
mod reader;
mod version;
pub mod worked;

pub use encoder::{EncodeFault, encode, encode_fitting, encode_v1};
pub use fault::MessageFault;
pub use front::first_message;
pub use kind::MessageKind;
pub use message::{Body, CollectReply, EnterEcho, MOST_MESSAGE_BYTES, Message, Store, StoreAck};
pub use version::Version;
