//! What a node stores: 0 to 112 bytes.
ghost use Rattle.std.specs.Prelude.{◌≡◌, ◌≤◌, ◌<◌, ◌↔◌, length, take, All, IfOk, IsErrOf};
ghost use Rattle.sc_view.specs.Faults.{value_reason};
ghost use Rattle.sc_view.specs.Padded.{padded};
ghost use Rattle.sc_view.specs.Values.{most_bytes};

use reasons::{Reason, told};
use std::marker::Model;

/// The most bytes of a value.
pub const MOST_VALUE_BYTES: usize = 112;

/// How many bytes a value has in the first version of messages and journals.
pub const VALUE_LENGTH: usize = 48;

/// What a node stores under its own number: 0 to 112 bytes that the store-collect object never looks into.
#[derive(Clone, Copy, Debug, PartialEq, Eq)]
pub struct Value {
    bytes: [u8; MOST_VALUE_BYTES],
    len: u8,
}

impl Model for Value {
    ghost use Rattle.std.specs.Prelude.{ℕ, List, length, take};
    ghost use Rattle.sc_view.specs.Padded.{padded, IsPadded, bytes_again, length_again};

    ghost Value = { List ℕ };

    ghost view = { λ a. take a.len a.bytes };

    ghost invariant = { λ a. IsPadded a.len a.bytes };

    ghost inverse = { λ v. record { bytes = padded v; len = length v } };

    ghost inverse_ok = { λ a h i. record { bytes = bytes_again a.len a.bytes h i; len = length_again a.len a.bytes h i } };
}

/// Why bytes are no value.
#[derive(Clone, Copy, Debug, PartialEq, Eq)]
pub enum ValueFault {
    /// 50: there are more than 112 bytes.
    BadValue,
}

impl ValueFault {
    /// The reason by which the fault is told, 50.
    pub fn reason(self) -> Reason
        ensures { result ≡ value_reason self }
    {
        told!(self, ValueFault: BadValue)
    }
}

impl Value {
    /// The value of these bytes; refused 50 where there are more than 112.
    pub fn new(bytes: &[u8]) -> Result<Value, ValueFault>
        ensures ok { IfOk result (λ value. value ≡ bytes.now) }
        ensures bad { IsErrOf result ValueFault.BadValue ↔ (most_bytes < length bytes.now) }
    {
        if bytes.len() > MOST_VALUE_BYTES {
            return Err(ValueFault::BadValue);
        }
        Ok(Value::padded(bytes))
    }

    // The value of at most 112 bytes.
    fn padded(bytes: &[u8]) -> Value
        requires { length bytes.now ≤ most_bytes }
        ensures { result ≡ bytes.now }
    {
        let mut padded = [0; MOST_VALUE_BYTES];
        padded[..bytes.len()].copy_from_slice(bytes);
        Value {
            bytes: padded,
            len: bytes.len() as u8,
        }
    }

    /// The bytes.
    #[inline]
    pub fn bytes(&self) -> &[u8]
        ensures exact { result.now ≡ self.now }
        ensures few { length result.now ≤ most_bytes }
        ensures fit { All (λ b. b < 256) result.now }
    {
        first(&self.bytes, usize::from(self.len))
    }

    /// The bytes, and zeros behind them up to 112.
    #[inline]
    pub fn room(&self) -> &[u8; MOST_VALUE_BYTES]
        ensures room { result.now ≡ padded self.now }
        ensures front { take (length self.now) result.now ≡ self.now }
    {
        &self.bytes
    }
}

// The first bytes, so many.
#[inline]
fn first(bytes: &[u8], len: usize) -> &[u8]
    requires { len ≤ length bytes.now }
    ensures front { result.now ≡ take len bytes.now }
    ensures fit { All (λ b. b < 256) result.now }
{
    &bytes[..len]
}

impl From<&[u8; VALUE_LENGTH]> for Value {
    ghost use Rattle.std.specs.Prelude.{◌≡◌};

    ghost from_gives = { λ bytes value. value ≡ bytes.now };

    fn from(bytes: &[u8; VALUE_LENGTH]) -> Value {
        Value::padded(bytes)
    }
}
