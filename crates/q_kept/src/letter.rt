//! Messages as bytes on their way.

ghost use Rattle.std.specs.Prelude.{◌≡◌, [], ◌∷◌, IfOk, OnOk, OnErr};
ghost use Rattle.sc_msg.specs.Lengths.{Fits};
ghost use Rattle.q_kept.specs.Letters.{AddsAll, Spells, message_to};

use sc_msg::{Message, Version, encode_fitting};
use std::alloc::{AllocError, Global};

/// A message as bytes, and where it goes.
pub struct Letter {
    /// The one node to which it goes; none where it goes to all nodes.
    pub to: Option<u64>,
    /// The message in a version, at most 60,000 bytes.
    pub bytes: Vec<u8>,
}

impl Drop for Letter {
    // By hand, so that it is proved here alone, and not in each crate that drops one.
    fn drop(self) {
        let Letter { to: _, bytes: _ } = self;
    }
}

impl Letter {
    /// The letter of a message in a version that it is known to fit. The one error is that memory ran out (99
    /// OutOfMemory).
    pub fn new(
        alloc: Global,
        version: Version,
        to: Option<u64>,
        message: &Message,
    ) -> Result<Letter, AllocError>
        requires { Fits version message.now }
        ensures { IfOk result (Spells version (message_to message.now to)) }
    {
        let bytes = encode_fitting(alloc, version, message)?;
        Ok(Letter { to, bytes })
    }
}

/// Puts the letter of a message behind others. At Err these are as they were.
pub(crate) fn push_letter(
    alloc: Global,
    version: Version,
    to: Option<u64>,
    message: &Message,
    letters: &mut Vec<Letter>,
) -> Result<(), AllocError>
    requires { Fits version message.now }
    ensures ok { OnOk result (AddsAll version (message_to message.now to ∷ []) letters.old.items letters.new.items) }
    ensures err { OnErr result (letters.new.items ≡ letters.old.items) }
{
    let letter = Letter::new(alloc, version, to, message)?;
    letters.push(letter)?;
    Ok(())
}
