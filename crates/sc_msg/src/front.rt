//! The message that stands first in bytes.

ghost use Rattle.std.specs.Prelude.{◌≡◌, ◌≤◌, ◌++◌, length, Some, IfOk, IfErr};
ghost use Rattle.sc_msg.specs.Messages.{message_bytes, IsMessage};
ghost use Rattle.sc_msg.specs.Fault.{head_fault, most_bytes, IsFault};

use crate::fault::MessageFault;
use crate::message::Message;
use crate::reader::Reader;
use crate::version::Version;
use std::alloc::Global;

/// The message that stands first in at most 60,000 bytes, and the bytes behind it; or what is first wrong up to there.
pub fn first_message(
    alloc: Global,
    version: Version,
    bytes: &[u8],
) -> Result<(Message, &[u8]), MessageFault>
    ensures small { IfOk result (λ x. length bytes.now ≤ most_bytes) }
    ensures parts { IfOk result (λ x. bytes.now ≡ message_bytes version x.0 ++ x.1.now) }
    ensures message { IfOk result (λ x. IsMessage version x.0) }
    ensures fault { IfErr result (IsFault version bytes.now) }
    ensures head { (e : MessageFault) → head_fault version bytes.now ≡ Some e → result ≡ Err e }
{
    let mut reader = Reader { rest: bytes };
    let (kind, from) = reader.head(version)?;
    let body = reader.body(alloc, version, kind)?;
    Ok((Message { from, body }, reader.rest))
}
