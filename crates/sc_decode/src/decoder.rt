//! Bytes to messages.

ghost use Rattle.std.specs.Prelude.{◌≡◌, IfOk, IfErr, MatchResult};
ghost use Rattle.sc_msg.specs.Messages.{message_bytes, IsMessage};
ghost use Rattle.sc_msg.specs.Fault.{head_fault, IsFault};
ghost use Rattle.sc_msg.specs.Lengths.{Fits};

use sc_msg::{Message, MessageFault, Version, first_message};
use std::alloc::Global;

/// What [`decode_as`] answers.
fn message_of(alloc: Global, version: Version, bytes: &[u8]) -> Result<Message, MessageFault>
    ensures spelled { IfOk result (λ m. bytes.now ≡ message_bytes version m) }
    ensures message { IfOk result (IsMessage version) }
    ensures fault { IfErr result (IsFault version bytes.now) }
    ensures head { (e : MessageFault) → head_fault version bytes.now ≡ Some e → result ≡ Err e }
{
    match first_message(alloc, version, bytes) {
        Ok((message, rest)) => {
            if !rest.is_empty() {
                return Err(MessageFault::Extra);
            }
            Ok(message)
        }
        Err(fault) => Err(fault),
    }
}

/// The message that the bytes spell in that version, or what is first wrong with them: 73 TooLong above 60,000
/// bytes, 72 Short below 12, 71 BadHead for the first three, of which the third names the version, 74 BadKind for the
/// fourth, and then the first fault of the fields from left to right: 72 Short where the bytes end, 77 BadField for
/// a joined byte above 1, a count or a length above its limit or a sequence number 0, 75 Unsorted for an id not
/// above the one before; last 76 Extra for bytes behind the last field.
///
/// 99 OutOfMemory may stand in place of any of these answers but 71, 73 and 74, for which it takes
/// no memory.
pub fn decode_as(alloc: Global, version: Version, bytes: &[u8]) -> Result<Message, MessageFault>
    // What is decoded is a message that is spelled so.
    ensures spelled { IfOk result (λ m. bytes.now ≡ message_bytes version m) }
    ensures message { IfOk result (IsMessage version) }
    ensures values { IfOk result (Fits version) }

    // What spells a message is decoded to it, unless memory runs out.
    ensures all { (m : Message) → IsMessage version m → bytes.now ≡ message_bytes version m → MatchResult result (λ n. n ≡ m) (λ e. e ≡ MessageFault.OutOfMemory) }

    // Which fault it is.
    ensures fault { IfErr result (IsFault version bytes.now) }

    // A fault of the head is answered whatever memory is left.
    ensures head { (e : MessageFault) → head_fault version bytes.now ≡ Some e → result ≡ Err e }
{
    message_of(alloc, version, bytes)
}

/// The message that the bytes spell in version 2, as [`decode_as`].
pub fn decode(alloc: Global, bytes: &[u8]) -> Result<Message, MessageFault>
    ensures spelled { IfOk result (λ m. bytes.now ≡ message_bytes Version.Second m) }
    ensures message { IfOk result (IsMessage Version.Second) }
    ensures all { (m : Message) → IsMessage Version.Second m → bytes.now ≡ message_bytes Version.Second m → MatchResult result (λ n. n ≡ m) (λ e. e ≡ MessageFault.OutOfMemory) }
    ensures fault { IfErr result (IsFault Version.Second bytes.now) }
    ensures head { (e : MessageFault) → head_fault Version.Second bytes.now ≡ Some e → result ≡ Err e }
{
    decode_as(alloc, Version::Second, bytes)
}

/// The message that the bytes spell in version 1, as [`decode_as`]. Its values have 48 bytes.
pub fn decode_v1(alloc: Global, bytes: &[u8]) -> Result<Message, MessageFault>
    ensures spelled { IfOk result (λ m. bytes.now ≡ message_bytes Version.First m) }
    ensures message { IfOk result (IsMessage Version.First) }
    ensures values { IfOk result (Fits Version.First) }
    ensures all { (m : Message) → IsMessage Version.First m → bytes.now ≡ message_bytes Version.First m → MatchResult result (λ n. n ≡ m) (λ e. e ≡ MessageFault.OutOfMemory) }
    ensures fault { IfErr result (IsFault Version.First bytes.now) }
    ensures head { (e : MessageFault) → head_fault Version.First bytes.now ≡ Some e → result ≡ Err e }
{
    decode_as(alloc, Version::First, bytes)
}
