//! The journal's file and its note on the disk: opened, read and written.

ghost use Rattle.std.specs.Prelude.{◌≡◌, IfOk, IfSome};
ghost use Rattle.q_replay.specs.Journal.{head_of};

use crate::course::{Course, Standing, course_of};
use crate::explain::explain;
use crate::fault::JournalFault;
use crate::note::BootNote;
use crate::start::{Resumed, start_from};
use crate::stored::StoredFile;
use q_book::Book;
use q_kept::{DiskFile, JournalFile};
use std::alloc::{AllocError, Global};
use std::fs::{File, Files as SystemFiles, OpenFile, OpenOptions};
use std::io::{ErrorKind, Read, Write};
use std::{fs, io};

/// Where the system names the start of the machine.
const BOOT_ID: &str = "/proc/sys/kernel/random/boot_id";

/// The start of the machine where the system does not name it.
const UNKNOWN: &str = "unknown";

/// The most bytes of a note, and of the name of a start of the machine.
const LONGEST_NOTE: u64 = 1024;

/// The journal of a node that starts, which is open, and its note is written.
#[derive(Drop)]
pub struct OpenedJournal<D> {
    /// The file. What is written to it comes after what it has.
    pub file: StoredFile<D>,
    /// What the node comes back with. A node that begins has none, and the file is empty.
    pub resumed: Option<Resumed>,
}

/// Opens the journal of this name for the node that would begin with the book `own`, or makes the file. `asked` says
/// that there should be a journal (`--resume`), and `sync` that all of it is kept on the disk from now on (`--sync`).
/// Then the note is written. Once this returns, a loss of power leaves the note and the file's name, and with `sync` all
/// that the file has.
///
/// A start that is refused leaves both files as they are. Why it is refused goes to the notes.
pub fn open_journal<R: SystemFiles, N: Write>(
    rt: &R,
    alloc: Global,
    name: &str,
    own: &Book,
    asked: bool,
    sync: bool,
    notes: &mut N,
) -> Result<OpenedJournal<R::File>, JournalFault>
    ensures { IfOk result (λ opened. IfSome opened.resumed (λ r. head_of r.book ≡ head_of own.now)) }
{
    let start = Start {
        rt,
        alloc,
        name,
        asked,
        sync,
    };
    match start.open(own, notes) {
        Ok(opened) => Ok(opened),
        Err(fault) => {
            let _ = explain(notes, name, fault);
            Err(fault)
        }
    }
}

/// A start of a node on the journal of this name.
#[derive(Drop)]
struct Start<'a, R: SystemFiles> {
    rt: &'a R,
    alloc: Global,
    name: &'a str,
    asked: bool,
    sync: bool,
}

impl<R: SystemFiles> Start<'_, R> {
    /// Opens the journal, and writes the note.
    fn open<N: Write>(
        &self,
        own: &Book,
        notes: &mut N,
    ) -> Result<OpenedJournal<R::File>, JournalFault>
        ensures { IfOk result (λ opened. IfSome opened.resumed (λ r. head_of r.book ≡ head_of own.now)) }
    {
        let noted = self.read_note(notes)?;
        let boot = boot_text(self.rt, self.alloc)?;
        let mut opened = self.open_file(own, noted.as_ref(), known_boot(boot.as_str()), notes)?;
        if self.sync {
            self.said(opened.file.keep(), notes)?;
        }
        let note = BootNote {
            boot,
            start: starts_of(noted.as_ref()),
            synced: self.sync,
        };
        self.said(write_note(self.rt, self.alloc, self.name, &note), notes)?;
        Ok(opened)
    }

    /// The journal as the start finds it, or a new file.
    fn open_file<N: Write>(
        &self,
        own: &Book,
        note: Option<&BootNote>,
        boot: &str,
        notes: &mut N,
    ) -> Result<OpenedJournal<R::File>, JournalFault>
        ensures { IfOk result (λ opened. IfSome opened.resumed (λ r. head_of r.book ≡ head_of own.now)) }
    {
        match open_there(self.rt, self.name) {
            Ok(Some(mut file)) => {
                let resumed = start_from(self.alloc, &mut file, own, note, boot, self.asked)?;
                Ok(OpenedJournal { file, resumed })
            }
            Ok(None) => self.make_file(note, boot, notes),
            Err(error) => Err(self.failed(&error, notes)),
        }
    }

    /// A new file, for a node that begins.
    fn make_file<N: Write>(
        &self,
        note: Option<&BootNote>,
        boot: &str,
        notes: &mut N,
    ) -> Result<OpenedJournal<R::File>, JournalFault>
        ensures { IfOk result (λ opened. opened.resumed ≡ None) }
    {
        if let Course::Refuse(why) = course_of(note, boot, Standing::Missing, self.asked) {
            return Err(JournalFault::Unresumed(why));
        }
        match open_new(self.rt, self.name) {
            Ok(file) => Ok(OpenedJournal {
                file,
                resumed: None,
            }),
            Err(error) => Err(self.failed(&error, notes)),
        }
    }

    /// The note beside the journal, if it is there.
    fn read_note<N: Write>(&self, notes: &mut N) -> Result<Option<BootNote>, JournalFault> {
        let name = self.name;
        let beside = format!(in self.alloc; "{name}.boot")?;
        match text_of(self.rt, self.alloc, beside.as_str()) {
            Ok(None) => Err(JournalFault::BadNote),
            Ok(Some(text)) => match BootNote::read(self.alloc, text.as_str())? {
                Some(note) => Ok(Some(note)),
                None => Err(JournalFault::BadNote),
            },
            Err(error) if error.kind() == ErrorKind::NotFound => Ok(None),
            Err(error) => Err(self.failed(&error, notes)),
        }
    }

    /// What a call of the system answered. If it failed, the notes get the system's reason.
    fn said<N: Write>(&self, answer: io::Result<()>, notes: &mut N) -> Result<(), JournalFault> {
        match answer {
            Ok(()) => Ok(()),
            Err(error) => Err(self.failed(&error, notes)),
        }
    }

    /// The fault of a call of the system that failed. The notes get the system's reason.
    fn failed<N: Write>(&self, error: &io::Error, notes: &mut N) -> JournalFault {
        let name = self.name;
        match error.kind() {
            ErrorKind::OutOfMemory => JournalFault::OutOfMemory,
            _ => {
                let _ = writeln!(notes, "{name}: {error}");
                JournalFault::Failed
            }
        }
    }
}

/// The start of the machine by which notes are judged. One that the system does not name is like no other.
fn known_boot(boot: &str) -> &str {
    if boot == UNKNOWN { "" } else { boot }
}

/// Has the system keep the journal of this name, all of it, and says so in the note beside it. So a node that was ended
/// may come back also after the machine has restarted.
pub fn keep_journal<R: SystemFiles>(rt: &R, alloc: Global, name: &str) -> io::Result<()> {
    fs::open(rt, name)?.sync_all()?;
    let beside = format!(in alloc; "{name}.boot")?;
    let Some(text) = text_of(rt, alloc, beside.as_str())? else {
        return Err(io::Error::from(ErrorKind::InvalidData));
    };
    let Some(mut note) = BootNote::read(alloc, text.as_str())? else {
        return Err(io::Error::from(ErrorKind::InvalidData));
    };
    note.synced = true;
    write_note(rt, alloc, name, &note)
}

/// Writes the note beside the journal of this name, so that it is there whole also where the power fails.
fn write_note<R: SystemFiles>(
    rt: &R,
    alloc: Global,
    name: &str,
    note: &BootNote,
) -> io::Result<()> {
    let text = note.text(alloc)?;
    let new = format!(in alloc; "{name}.boot.new")?;
    let there = format!(in alloc; "{name}.boot")?;
    write_synced(rt, new.as_str(), text.as_str())?;
    fs::rename(rt, new.as_str(), there.as_str())?;
    fs::open(rt, folder_of(name))?.sync_all()
}

/// How often the node was started, this time included.
fn starts_of(note: Option<&BootNote>) -> u64 {
    match note {
        Some(note) => note.start.saturating_add(1),
        None => 1,
    }
}

/// The file of this name, if it is there. It must be a plain file: anything else is not read.
fn open_there<R: SystemFiles>(rt: &R, name: &str) -> io::Result<Option<StoredFile<R::File>>> {
    match OpenOptions::new().read(true).append(true).open(rt, name) {
        Ok(file) => {
            if !file.metadata()?.is_file() {
                return Err(io::Error::from(ErrorKind::InvalidInput));
            }
            Ok(Some(StoredFile {
                disk: DiskFile { file },
            }))
        }
        Err(error) if error.kind() == ErrorKind::NotFound => Ok(None),
        Err(error) => Err(error),
    }
}

/// A new file of this name, which no file had.
fn open_new<R: SystemFiles>(rt: &R, name: &str) -> io::Result<StoredFile<R::File>> {
    let file = File::create_new(rt, name)?;
    Ok(StoredFile {
        disk: DiskFile { file },
    })
}

/// The start of the machine, as the system names it.
fn boot_text<R: SystemFiles>(rt: &R, alloc: Global) -> Result<String, AllocError> {
    let Ok(Some(text)) = text_of(rt, alloc, BOOT_ID) else {
        return String::from_str(alloc, UNKNOWN);
    };
    String::from_str(alloc, text.as_str().trim())
}

/// The text of a short file, if it is short and UTF-8.
fn text_of<R: SystemFiles>(rt: &R, alloc: Global, name: &str) -> io::Result<Option<String>> {
    let mut bytes = Vec::new(alloc);
    let file = fs::open(rt, name)?;
    file.take(LONGEST_NOTE + 1).read_to_end(&mut bytes)?;
    if bytes.len() as u64 > LONGEST_NOTE {
        return Ok(None);
    }
    match String::from_utf8(bytes) {
        Ok(text) => Ok(Some(text)),
        Err(_) => Ok(None),
    }
}

/// Writes a file with this text, which is on the disk then.
fn write_synced<R: SystemFiles>(rt: &R, name: &str, text: &str) -> io::Result<()> {
    let mut file = fs::create(rt, name)?;
    file.write_all(text.as_bytes())?;
    file.sync_all()
}

/// The folder in which the file of this name is.
fn folder_of(name: &str) -> &str {
    match name.rsplit_once('/') {
        Some(("", _)) => "/",
        Some((folder, _)) => folder,
        None => ".",
    }
}
