//! The chunks of a view, to be read one by one.
ghost use Rattle.std.specs.Prelude.{◌≡◌, length};
ghost use Rattle.std.specs.List.{slice_get};
ghost use Rattle.std.specs.Option.{option_copied};

use crate::view::{Entry, Stored};
use sc_chunk::Chunk;
use std::marker::Model;

/// The entries of a view in rising id order, cut into chunks.
#[derive(Drop)]
pub struct Chunks<'a> {
    chunks: &'a [Chunk<Stored>],
}

impl<'a> Model for Chunks<'a> {
    ghost use Rattle.std.specs.Prelude.{ℕ, List};
    ghost use Rattle.sc_view.specs.declared.view.Stored.{Stored};

    ghost Value = { List (List (ℕ × Stored)) };

    ghost view = { λ c. c.chunks.now };
}

impl<'a> Chunks<'a> {
    pub(crate) fn of(chunks: &'a [Chunk<Stored>]) -> Chunks<'a>
        ensures { result ≡ chunks.now }
    {
        Chunks { chunks }
    }

    /// How many chunks there are.
    pub fn len(&self) -> usize
        ensures { result ≡ length self.now }
    {
        self.chunks.len()
    }

    /// The entries of chunk number k, and None past the last chunk. Takes no memory.
    pub fn get(&self, k: usize) -> Option<&'a [Entry]>
        ensures { option_copied result ≡ slice_get self.now k }
    {
        let chunks = self.chunks;
        if chunks.len() <= k {
            return None;
        }
        Some(chunks[k].as_slice())
    }
}
