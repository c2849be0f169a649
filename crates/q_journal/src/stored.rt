//! What a journal's file is to a start: it is read whole, and cut.

ghost use Rattle.std.specs.Prelude.{◌≡◌, None, IfOk, OnErr, OnOk};
ghost use Rattle.std.specs.Io.{WritesAtMost};
ghost use Rattle.std.specs.Io.KnownBytes.{Keeps};
ghost use Rattle.q_journal.specs.Found.{CutsTo, Holds};

use q_kept::{DiskFile, JournalFile, MemoryFile};
use q_outside::FileFault;
use std::alloc::Global;
use std::fs::OpenFile;
use std::io;
use std::io::{Read, Seek, SeekFrom, Write};

/// A journal's file that is there already when a node starts.
pub trait StoredJournal: JournalFile {
    /// All bytes of the file. A file that has more than `most` is refused like one that cannot be read.
    fn read_whole(&mut self, alloc: Global, most: usize) -> Result<Vec<u8>, FileFault>
        ensures bytes { IfOk result (λ bytes. Holds (Self.contents self.old) bytes.items) }
        ensures kept { Keeps (Self.contents self.old) (Self.contents self.new) };

    /// Cuts the file to its first `len` bytes.
    fn cut_to(&mut self, len: usize) -> io::Result<()>
        ensures cut { OnOk result (CutsTo len (Self.contents self.old) (Self.contents self.new)) }
        ensures kept { OnErr result (Keeps (Self.contents self.old) (Self.contents self.new)) };
}

/// A file of the system that may hold a journal already. No contract says what it holds.
#[derive(Drop)]
pub struct StoredFile<D> {
    /// The file.
    pub disk: DiskFile<D>,
}

impl<D: Write> Write for StoredFile<D> {
    ghost contents = { λ _. None };

    fn write(&mut self, buf: &[u8]) -> io::Result<usize>
        ensures bound { WritesAtMost result buf.now }
    {
        self.disk.write(buf)
    }

    fn flush(&mut self) -> io::Result<()> {
        self.disk.flush()
    }
}

impl<D: Write + OpenFile> JournalFile for StoredFile<D> {
    fn keep(&mut self) -> io::Result<()> {
        self.disk.keep()
    }

    fn is_intact(&self, bytes: u64) -> bool {
        self.disk.is_intact(bytes)
    }
}

impl<D: Read + Write + Seek + OpenFile> StoredJournal for StoredFile<D> {
    fn read_whole(&mut self, alloc: Global, most: usize) -> Result<Vec<u8>, FileFault> {
        match read_from_start(alloc, &mut self.disk.file, most) {
            Ok(bytes) if bytes.len() <= most => Ok(bytes),
            Ok(_) => Err(FileFault::Failed),
            Err(error) => Err(fault_of(&error)),
        }
    }

    fn cut_to(&mut self, len: usize) -> io::Result<()> {
        self.disk.file.set_len(len as u64)
    }
}

impl StoredJournal for MemoryFile {
    fn read_whole(&mut self, alloc: Global, most: usize) -> Result<Vec<u8>, FileFault>
        ensures same { self.new ≡ self.old }
        ensures bytes { IfOk result (λ bytes. bytes.items ≡ self.old.bytes.items) }
    {
        if self.bytes.len() > most {
            return Err(FileFault::Failed);
        }
        let mut bytes = Vec::new(alloc);
        bytes.extend_from_slice(&self.bytes)?;
        Ok(bytes)
    }

    fn cut_to(&mut self, len: usize) -> io::Result<()> {
        self.bytes.truncate(len);
        Ok(())
    }
}

/// The bytes from the file's start on, but one more than `most` at the most.
fn read_from_start<D: Read + Seek>(
    alloc: Global,
    file: &mut D,
    most: usize,
) -> io::Result<Vec<u8>> {
    let mut bytes = Vec::new(alloc);
    file.seek(SeekFrom::Start(0))?;
    let more = (most as u64).saturating_add(1);
    file.take(more).read_to_end(&mut bytes)?;
    Ok(bytes)
}

/// What a failed call of the system is to a start.
pub(crate) fn fault_of(error: &io::Error) -> FileFault {
    match error.kind() {
        io::ErrorKind::OutOfMemory => FileFault::OutOfMemory,
        _ => FileFault::Failed,
    }
}
