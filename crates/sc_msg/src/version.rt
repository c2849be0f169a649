//! The versions of messages.

ghost use Rattle.std.specs.Prelude.{◌≡◌, ◌↔◌, IsTrue};
ghost use Rattle.sc_view.specs.Values.{is_within};
ghost use Rattle.sc_msg.specs.Values.{version_byte, value_lengths, IsLength};

use sc_view::{MOST_VALUE_BYTES, VALUE_LENGTH};

/// How the bytes of a message spell a value. The third byte of a message names its version.
#[derive(Clone, Copy, Debug, PartialEq, Eq)]
pub enum Version {
    /// 1: the bytes of a value alone, of which there are 48.
    First,
    /// 2: how many bytes a value has, 0 to 112, in one byte, and then these.
    Second,
}

impl Version {
    /// The third byte of a message.
    pub fn byte(self) -> u8
        ensures { result ≡ version_byte self }
    {
        match self {
            Version::First => 1,
            Version::Second => 2,
        }
    }

    /// Whether a value may have so many bytes: 48 in the first version, at most 112 in the second.
    pub fn has_length(self, bytes: usize) -> bool
        ensures told { result ≡ is_within bytes (value_lengths self) }
        ensures means { IsTrue result ↔ IsLength self bytes }
    {
        match self {
            Version::First => bytes == VALUE_LENGTH,
            Version::Second => bytes <= MOST_VALUE_BYTES,
        }
    }
}
