//! Lines that are written piece by piece.

ghost use Rattle.std.specs.Prelude.{◌≡◌, ◌<◌, ◌≤◌, ℕ, List, OnOk, OnErr};
ghost use Rattle.std.specs.Io.KnownBytes.{Appends};
ghost use Rattle.std.specs.List.{flat_map};
ghost use Rattle.q_outside.specs.Counts.{count_after};
ghost use Rattle.q_outside.specs.Pieces.{piece_text};

use crate::counted::Counted;
use crate::fault::TransportFailed;
use itoa::Buffer;
use std::io::Write;

/// A piece of what is written.
#[derive(Clone, Copy)]
pub enum Piece<'a> {
    /// A number in decimal.
    Number(u64),
    /// Words, as they stand.
    Words(&'a str),
}

impl<W: Write> Counted<W> {
    // Writes a piece.
    fn put_piece(&mut self, piece: &Piece<'_>) -> Result<(), TransportFailed>
        ensures written { OnOk result (Appends (W.contents self.old.inner) (W.contents self.new.inner) (piece_text piece.now)) }
        ensures failed { OnErr result ((part : List ℕ) × Appends (W.contents self.old.inner) (W.contents self.new.inner) part) }
        ensures counted { self.new.failures ≡ count_after result self.old.failures }
        ensures fewer { self.new.failing ≤ self.old.failing }
        ensures not_reached { OnOk result (0 < self.old.failing → 0 < self.new.failing) }
    {
        match piece {
            Piece::Number(number) => {
                let mut buffer = Buffer::new();
                let digits = buffer.format(*number);
                self.put(digits.as_bytes())
            }
            Piece::Words(words) => self.put(words.as_bytes()),
        }
    }

    /// Writes pieces, one behind the other. It takes no memory. Refused with 86 where a write fails or takes none; some
    /// of it may have been written before.
    pub fn put_all(&mut self, pieces: &[Piece<'_>]) -> Result<(), TransportFailed>
        ensures written { OnOk result (Appends (W.contents self.old.inner) (W.contents self.new.inner) (flat_map piece_text pieces.now)) }
        ensures failed { OnErr result ((part : List ℕ) × Appends (W.contents self.old.inner) (W.contents self.new.inner) part) }
        ensures counted { self.new.failures ≡ count_after result self.old.failures }
        ensures fewer { self.new.failing ≤ self.old.failing }
        ensures not_reached { OnOk result (0 < self.old.failing → 0 < self.new.failing) }
    {
        for piece in pieces {
            self.put_piece(piece)?;
        }
        Ok(())
    }
}
