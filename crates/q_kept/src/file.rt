//! What a journal is written to.

ghost use Rattle.std.specs.Prelude.{◌≡◌, ℕ, List, Option, Some, None, IfSome, OnOk};
ghost use Rattle.std.specs.Io.{WritesAtMost};
ghost use Rattle.std.specs.Io.KnownBytes.{Keeps, WriteAppends};

use q_outside::Counted;
use std::fs::OpenFile;
use std::io;
use std::io::Write;
use std::os::unix::fs::MetadataExt;

/// A file that takes a journal.
pub trait JournalFile: Write {
    // What would be there if the power failed now, where that is known.
    ghost kept: { Self → Option (List ℕ) } = { λ _. None };

    /// Asks the system to keep what was written, also where the power fails.
    fn keep(&mut self) -> io::Result<()>
        ensures bytes { Keeps (Self.contents self.old) (Self.contents self.new) }
        ensures kept { OnOk result (IfSome (kept self.new) (λ bytes. Self.contents self.new ≡ Some bytes)) };

    /// Whether the file is still there and has this many bytes. If not, someone else removed it, cut it or wrote to it.
    /// A file that cannot be asked counts as intact.
    fn is_intact(&self, _bytes: u64) -> bool {
        true
    }
}

/// A file of the system, of which no contract says what it holds.
#[derive(Drop)]
pub struct DiskFile<D> {
    /// The open file.
    pub file: D,
}

impl<D: Write> Write for DiskFile<D> {
    ghost contents = { λ disk. D.contents disk.file };

    fn write(&mut self, buf: &[u8]) -> io::Result<usize>
        ensures bound { WritesAtMost result buf.now }
        ensures bytes { WriteAppends (D.contents self.old.file) (D.contents self.new.file) result buf.now }
    {
        self.file.write(buf)
    }

    fn flush(&mut self) -> io::Result<()>
        ensures { Keeps (D.contents self.old.file) (D.contents self.new.file) }
    {
        self.file.flush()
    }
}

impl<D: Write + OpenFile> JournalFile for DiskFile<D> {
    fn keep(&mut self) -> io::Result<()> {
        self.file.sync_data()
    }

    fn is_intact(&self, bytes: u64) -> bool {
        match self.file.metadata() {
            Ok(found) => found.len() == bytes && found.nlink() != 0,
            Err(_) => true,
        }
    }
}

/// A keep is a flush, which is counted and may be made to fail, and then that of the file.
impl<J: JournalFile> JournalFile for Counted<J> {
    ghost kept = { λ counted. J.kept counted.inner };

    fn keep(&mut self) -> io::Result<()> {
        self.flush()?;
        self.inner.keep()
    }

    fn is_intact(&self, bytes: u64) -> bool {
        self.inner.is_intact(bytes)
    }
}
