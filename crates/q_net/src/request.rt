//! What clients ask of a book.

ghost use Rattle.std.specs.Prelude.{◌≡◌, take};

use sc_view::Value;
use std::marker::Model;

/// Bytes. Contracts see them as their list.
#[derive(Drop)]
pub struct Blob {
    pub(crate) bytes: Vec<u8>,
}

impl Model for Blob {
    ghost use Rattle.std.specs.Prelude.{ℕ, List};

    ghost Value = { List ℕ };

    ghost view = { λ b. b.bytes.items };
}

impl Blob {
    /// These bytes.
    pub fn new(bytes: Vec<u8>) -> Blob
        ensures { result ≡ bytes.items }
    {
        Blob { bytes }
    }

    /// The bytes.
    pub fn as_slice(&self) -> &[u8]
        ensures { result.now ≡ self.now }
    {
        self.bytes.as_slice()
    }
}

/// At most 255 bytes, so many that their length has one byte. Contracts see them as their list.
#[derive(Drop)]
pub struct Short {
    bytes: [u8; 255],
    len: u8,
}

impl Model for Short {
    ghost use Rattle.std.specs.Prelude.{ℕ, List, take};

    ghost Value = { List ℕ };

    ghost view = { λ s. take s.len s.bytes };
}

impl Short {
    /// The first of these bytes, so many.
    pub fn new(bytes: [u8; 255], len: u8) -> Short
        ensures { result ≡ take len bytes }
    {
        Short { bytes, len }
    }

    /// The bytes.
    pub fn as_slice(&self) -> &[u8]
        ensures { result.now ≡ self.now }
    {
        &self.bytes[..usize::from(self.len)]
    }
}

/// A client's request.
#[derive(Drop)]
pub enum Request {
    /// 1: the bytes of a text, and of notes of it.
    Register { text: Blob, notes: Blob },
    /// 2: a query of a program, by its number, from this start.
    Ask { program: u32, start: u64 },
    /// 3: a store of a value, which has 48 bytes.
    Store(Value),
    /// 4: the answer of a query.
    Answer(u64),
    /// 5: a store of a value of so many bytes. A book refuses more than 112.
    StoreOf(Short),
}

/// Why requests end before their input does, with the number that is answered.
#[derive(Clone, Copy)]
pub enum StreamEnd {
    /// 84: a kind that is none of 1 to 5.
    Unknown,
    /// 85: the input ends within a request.
    Cut,
    /// 2: a text of more than 32,768 bytes.
    LongText,
    /// 31: notes of more than 778,244 bytes, or 770,052 for a book of version 1.
    LongNotes,
}
