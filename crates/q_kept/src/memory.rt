//! A journal's file in memory, for tests.

ghost use Rattle.std.specs.Prelude.{◌≡◌, ◌==◌, ◌-◌, [], Some, min, length, IsErr, IfOk, OnOk};
ghost use Rattle.std.specs.Io.{WritesAtMost};
ghost use Rattle.std.specs.Io.KnownBytes.{Keeps, WriteAppends};

use crate::file::JournalFile;
use std::alloc::Global;
use std::io;
use std::io::{ErrorKind, Write};

/// A journal's file in memory, which may become full. In a [`Counted`](q_outside::Counted) one of its calls can
/// be made to fail.
#[derive(Drop)]
pub struct MemoryFile {
    /// What was written.
    pub bytes: Vec<u8>,
    /// What would be there if the power failed: what was written when that was last kept.
    pub kept: Vec<u8>,
    /// How many bytes it takes still. Of a longer write just these are taken, and a write when it takes none fails.
    pub room: usize,
}

impl MemoryFile {
    /// An empty file, which takes so many bytes.
    pub fn new(alloc: Global, room: usize) -> MemoryFile
        ensures empty { (result.bytes.items ≡ []) × (result.kept.items ≡ []) }
        ensures room { result.room ≡ room }
    {
        MemoryFile {
            bytes: Vec::new(alloc),
            kept: Vec::new(alloc),
            room,
        }
    }
}

impl Write for MemoryFile {
    ghost contents = { λ memory. Some memory.bytes.items };

    fn write(&mut self, buf: &[u8]) -> io::Result<usize>
        ensures bound { WritesAtMost result buf.now }
        ensures bytes { WriteAppends (Some self.old.bytes.items) (Some self.new.bytes.items) result buf.now }
        ensures taken { IfOk result (λ n. n ≡ min (length buf.now) self.old.room) }
        ensures room { IfOk result (λ n. self.new.room ≡ self.old.room - n) }
        ensures full { self.old.room ≡ 0 → IsErr result }
        ensures kept { self.new.kept.items ≡ self.old.kept.items }
    {
        if self.room == 0 {
            return Err(io::Error::from(ErrorKind::StorageFull));
        }
        let taken = buf.len().min(self.room);
        self.bytes.extend_from_slice(&buf[..taken])?;
        self.room -= taken;
        Ok(taken)
    }

    fn flush(&mut self) -> io::Result<()>
        ensures { self.new ≡ self.old }
    {
        Ok(())
    }
}

impl JournalFile for MemoryFile {
    ghost kept = { λ memory. Some memory.kept.items };

    fn keep(&mut self) -> io::Result<()>
        ensures bytes { self.new.bytes.items ≡ self.old.bytes.items }
        ensures kept { OnOk result (self.new.kept.items ≡ self.new.bytes.items) }
        ensures room { self.new.room ≡ self.old.room }
    {
        self.kept.clear();
        self.kept.extend_from_slice(&self.bytes)?;
        Ok(())
    }

    fn is_intact(&self, bytes: u64) -> bool
        ensures { result ≡ (length self.now.bytes.items == bytes) }
    {
        self.bytes.len() as u64 == bytes
    }
}
