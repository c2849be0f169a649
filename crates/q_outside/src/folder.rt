//! The folder that the program runs in.

ghost use Rattle.std.specs.Prelude.{◌≡◌};
ghost use Rattle.q_outside.specs.Files.{count_after};

use crate::files::{FileFault, Files};
use std::alloc::Global;
use std::cell::Cell;
use std::fs::{File, Metadata, OpenFile};
use std::io::{ErrorKind, Input, Read, Write};
use std::rt::{Clock, Files as SystemFiles};
use std::time::{Duration, Instant};
use std::{fs, io};

/// The bytes of a megabyte.
const MEGABYTE: usize = 1024 * 1024;

/// How many names are tried for a new file beside one that is replaced.
const SPARE_NAMES: u32 = 64;

/// Why a file was not read.
#[derive(Drop)]
enum Unread {
    /// The system did not read it.
    System(io::Error),
    /// It has more bytes than may be read.
    TooLong,
}

impl From<io::Error> for Unread {
    fn from(error: io::Error) -> Self {
        Unread::System(error)
    }
}

/// What a reader has left, of no more than so many bytes.
fn read_within<D: Read + Drop>(alloc: Global, reader: D, most: usize) -> Result<Vec<u8>, Unread> {
    let mut bytes = Vec::new(alloc);
    let more = (most as u64).saturating_add(1);
    reader.take(more).read_to_end(&mut bytes)?;
    if bytes.len() > most {
        return Err(Unread::TooLong);
    }
    Ok(bytes)
}

/// A new file that stands beside the one of this name, and its name, which no file had.
fn new_beside<R: SystemFiles>(rt: &R, alloc: Global, name: &str) -> io::Result<(String, R::File)> {
    for number in 0..SPARE_NAMES {
        let beside = format!(in alloc; "{name}.{number}.new")?;
        match File::create_new(rt, beside.as_str()) {
            Ok(file) => return Ok((beside, file)),
            Err(error) if error.kind() == ErrorKind::AlreadyExists => {}
            Err(error) => return Err(error),
        }
    }
    Err(io::Error::from(ErrorKind::AlreadyExists))
}

/// Writes these bytes into a new file, which is on the disk then.
fn fill<D: Write + OpenFile>(
    file: &mut D,
    there: Option<Metadata>,
    bytes: &[u8],
) -> io::Result<()> {
    if let Some(metadata) = there {
        file.set_permissions(metadata.permissions())?;
    }
    file.write_all(bytes)?;
    file.sync_all()
}

/// Writes these bytes into a new file, which then takes the place of the one of this name, if there is one. Where that
/// fails, the new file is removed.
fn replace<R: SystemFiles>(
    rt: &R,
    alloc: Global,
    name: &str,
    there: Option<Metadata>,
    bytes: &[u8],
) -> io::Result<()> {
    let (beside, mut file) = new_beside(rt, alloc, name)?;
    let written = fill(&mut file, there, bytes);
    drop(file);
    let replaced = written.and_then(|()| fs::rename(rt, beside.as_str(), name));
    if replaced.is_err() {
        let _ = fs::remove_file(rt, beside.as_str());
    }
    replaced
}

/// Makes a file of these bytes, or replaces those of the one that is there. What is no plain file, as a pipe, and a
/// symbolic link are written as they are.
fn put<R: SystemFiles>(rt: &R, alloc: Global, name: &str, bytes: &[u8]) -> io::Result<()> {
    match fs::symlink_metadata(rt, name) {
        Ok(there) if there.is_file() => replace(rt, alloc, name, Some(there), bytes),
        Ok(_) => fs::write(rt, name, bytes),
        Err(error) if error.kind() == ErrorKind::NotFound => replace(rt, alloc, name, None, bytes),
        Err(error) => Err(error),
    }
}

/// The machine's files. A name is a path, and one that is not absolute begins at the folder that the program runs in.
/// Of a file that fails the name and the system's reason are told on the standard error; and there, if a person watches
/// it, how far the work is: at most once a second, and not within the first.
///
/// The name `-` is the standard input, to read. No more is read than may be.
///
/// A file is written whole or not at all: the bytes go into a new file in the same folder, named after it with `.0.new`
/// (or the next number that is free), which is written, synced and then renamed. So a full disk, and an end of the
/// program in between, leave the old file as it was; in between, the new one may stay. The old file's permissions are
/// kept, its owner and other links to it are not. What is no plain file (a pipe, a terminal, `/dev/stdout`), and what a
/// symbolic link leads to, is written in place: there a part may be written before a failure.
#[derive(Drop)]
pub struct Folder<'a, R: SystemFiles + Alloc<A = Global> + Eprint + Clock + Input> {
    rt: &'a R,
    /// Whether a person watches the standard error.
    is_watched: bool,
    /// When it was last told how far the work is, or else when that was first asked for.
    told: Cell<Option<Instant>>,
    /// How many calls failed so far.
    pub failures: u64,
}

impl<'a, R: SystemFiles + Alloc<A = Global> + Eprint + Clock + Input> Folder<'a, R> {
    /// The files of this runtime, of which no call has failed yet; whether a person watches its standard error, as
    /// where that is a terminal.
    pub fn new(rt: &'a R, is_watched: bool) -> Self
        ensures { result.failures ≡ 0 }
    {
        Folder {
            rt,
            is_watched,
            told: Cell::new(None),
            failures: 0,
        }
    }

    /// Whether a second went by since this was last answered by yes, or since it was first asked.
    fn is_due(&self) -> bool {
        let Ok(now) = Instant::now(self.rt) else {
            return false;
        };
        match self.told.get() {
            Some(last) if now.duration_since(last) < Duration::from_secs(1) => false,
            last => {
                self.told.set(Some(now));
                last.is_some()
            }
        }
    }

    /// The bytes of the file of this name, or of the standard input.
    fn bytes_of(&self, alloc: Global, name: &str, most: usize) -> Result<Vec<u8>, Unread> {
        if name == "-" {
            return read_within(alloc, self.rt.reader(), most);
        }
        read_within(alloc, fs::open(self.rt, name)?, most)
    }

    /// Counts a call that failed.
    fn count(&mut self)
        ensures { self.new.failures ≡ count_after FileFault.Failed self.old.failures }
    {
        self.failures = self.failures.saturating_add(1);
    }

    /// Counts a call that failed, and tells of it.
    fn fault(&mut self, name: &str, error: &io::Error) -> FileFault
        ensures { self.new.failures ≡ count_after result self.old.failures }
    {
        match error.kind() {
            ErrorKind::OutOfMemory => FileFault::OutOfMemory,
            _ => {
                self.count();
                let _ = eprintln!(self.rt; "{name}: {error}");
                FileFault::Failed
            }
        }
    }

    /// The same of a file that is not read, of which so many bytes might be.
    fn unread(&mut self, name: &str, unread: &Unread, most: usize) -> FileFault
        ensures { self.new.failures ≡ count_after result self.old.failures }
    {
        match unread {
            Unread::System(error) => self.fault(name, error),
            Unread::TooLong => {
                self.count();
                let megabytes = most / MEGABYTE;
                let _ = eprintln!(self.rt;
                    "{name}: longer than {megabytes} MB, the most that is read"
                );
                FileFault::Failed
            }
        }
    }
}

impl<R: SystemFiles + Alloc<A = Global> + Eprint + Clock + Input> Files for Folder<'_, R> {
    ghost use Rattle.std.specs.Prelude.{⊤};

    ghost failed = { λ folder. folder.failures };

    ghost read_gives = { λ _ _ _ _ _. ⊤ };

    ghost write_gives = { λ _ _ _ _ _. ⊤ };

    fn read(&mut self, alloc: Global, name: &str, most: usize) -> Result<Vec<u8>, FileFault> {
        match self.bytes_of(alloc, name, most) {
            Ok(bytes) => Ok(bytes),
            Err(unread) => Err(self.unread(name, &unread, most)),
        }
    }

    fn write(&mut self, name: &str, bytes: &[u8]) -> Result<(), FileFault> {
        match put(self.rt, self.rt.alloc(), name, bytes) {
            Ok(()) => Ok(()),
            Err(error) => Err(self.fault(name, &error)),
        }
    }

    fn tell(&self, done: usize, of: usize) {
        if self.is_watched && self.is_due() {
            let _ = eprintln!(self.rt; "{done} of {of} lines");
        }
    }

    fn failures(&self) -> u64 {
        self.failures
    }
}
