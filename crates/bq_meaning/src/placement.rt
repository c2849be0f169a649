//! Where the frame and the record lie.

ghost use Rattle.std.specs.Prelude.{◌≡◌, ◌↔◌, ◌+◌, ◌^◌, ◌<◌, IsSome, IfSome};
ghost use Rattle.bq_meaning.specs.Place.{Place, IsPlacement, record_room};

use std::marker::Model;

/// How many bytes a frame has.
pub const FRAME_LENGTH: usize = 512;

/// The least bytes of a record.
pub const LEAST_RECORD: usize = 16;

/// The most bytes of a record: a placement keeps room for so many.
pub const RECORD_ROOM: usize = 128;

/// How many bytes a record has where each value has 48: those of views in the first version.
pub const RECORD_LENGTH: usize = 64;

/// Where a machine's memory lies: the address of the frame's first byte and that of the record's, in a space of 2^64
/// addresses. The frame's 512 bytes and the 128 bytes that are kept for a record end below 2^64, and they lie apart.
#[derive(Clone, Copy, Debug, PartialEq, Eq)]
pub struct Placement {
    frame: u64,
    record: u64,
}

impl Model for Placement {
    ghost use Rattle.bq_meaning.specs.Place.{Place, IsPlacement};

    ghost Value = { Place };

    ghost view = { λ p. record { frame = p.frame; «record» = p.record } };

    ghost invariant = { λ p. IsPlacement (record { frame = p.frame; «record» = p.record }) };

    ghost inverse = { λ p. record { frame = p.frame; «record» = p.record } };
}

impl Placement {
    /// The placement with the frame's 512 bytes at one address and the 128 bytes for a record at the other. There is
    /// none where a region would reach 2^64 or where the two have a byte in common.
    pub fn new(frame: u64, record: u64) -> Option<Placement>
        ensures some { IsSome result ↔ IsPlacement (record { frame = frame; «record» = «record» }) }
        ensures value { IfSome result (λ p. p ≡ record { frame = frame; «record» = «record» }) }
    {
        let (frame_length, record_room) = (FRAME_LENGTH as u64, RECORD_ROOM as u64);
        if frame <= u64::MAX - frame_length && record <= u64::MAX - record_room {
            if frame + frame_length <= record || record + record_room <= frame {
                return Some(Placement { frame, record });
            }
        }
        None
    }

    /// Both regions end below 2^64, and they lie apart.
    pub fn is_placement(&self)
        ensures { IsPlacement self.now }
    {
        let _frame = &self.frame;
    }

    /// The address of the frame's first byte.
    pub fn frame(&self) -> u64
        ensures value { result ≡ self.now.frame }
        ensures fits { result + 512 < 2 ^ 64 }
    {
        self.frame
    }

    /// The address of the record's first byte.
    pub fn record(&self) -> u64
        ensures value { result ≡ self.now.record }
        ensures fits { result + record_room < 2 ^ 64 }
    {
        self.record
    }
}
