//! Messages that are written and read again, and bytes that are read and written again, in each version.

ghost use Rattle.std.specs.Prelude.{◌≡◌, ◌↔◌, IfOk, IfErr, IsErrOf};
ghost use Rattle.sc_msg.specs.Messages.{message_bytes, IsMessage};
ghost use Rattle.sc_msg.specs.Fault.{IsFault};
ghost use Rattle.sc_msg.specs.Lengths.{Fits};

use crate::decoder::decode_as;
use sc_msg::{EncodeFault, Message, MessageFault, Version, encode_fitting};
use std::alloc::{AllocError, Global};

/// A message that was written in a version and read again is the same.
///
/// Refused with 50 BadValue where it does not fit that version, which each message does in version 2
/// ([`Message::fits_second`]), and else with 99 OutOfMemory.
pub fn written_and_read(
    alloc: Global,
    version: Version,
    message: &Message,
) -> Result<Message, EncodeFault>
    ensures same { IfOk result (λ m. m ≡ message.now) }
    ensures value { IsErrOf result EncodeFault.BadValue ↔ (Fits version message.now → ⊥) }
{
    if !message.fits(version) {
        return Err(EncodeFault::BadValue);
    }
    let bytes = encode_fitting(alloc, version, message)?;
    Ok(read_again(alloc, version, message, &bytes)?)
}

// The message that was written to these bytes. The one error is that memory ran out.
fn read_again(
    alloc: Global,
    version: Version,
    message: &Message,
    bytes: &[u8],
) -> Result<Message, AllocError>
    requires legal { IsMessage version message.now }
    requires spelled { bytes.now ≡ message_bytes version message.now }
    ensures { IfOk result (λ m. m ≡ message.now) }
{
    match decode_as(alloc, version, bytes) {
        Ok(read) => Ok(read),
        Err(MessageFault::OutOfMemory) => Err(AllocError),
        Err(_) => unreachable!(),
    }
}

/// Bytes that were read in a version and written again are the same. The faults are those of [`decode_as`].
pub fn read_and_written(
    alloc: Global,
    version: Version,
    bytes: &[u8],
) -> Result<Vec<u8>, MessageFault>
    ensures same { IfOk result (λ b. b.items ≡ bytes.now) }
    ensures fault { IfErr result (IsFault version bytes.now) }
{
    let message = decode_as(alloc, version, bytes)?;
    Ok(encode_fitting(alloc, version, &message)?)
}
