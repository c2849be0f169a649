//! A recorder: a file and how much of a book's journal stands there.

ghost use Rattle.std.specs.Prelude.{◌≡◌, ℕ, List, Option, Some, true, false, if◌then◌else◌, length, IfOk, IfSome, OnOk, OnErr};
ghost use Rattle.std.specs.Io.KnownBytes.{Appends};
ghost use Rattle.q_book.specs.State.{BookState};
ghost use Rattle.q_replay.specs.Journal.{journal_of};
ghost use Rattle.q_kept.specs.Recording.{AppendsPart, Grows, IsRecorded, Records, lacking_bytes};

use crate::fault::Unrecorded;
use crate::file::JournalFile;
use q_book::Book;
use q_outside::{Counted, TransportFailed};
use q_replay::{entries_bytes, head_bytes};
use std::alloc::{AllocError, Global};
use std::io::Write;
use std::marker::Model;

/// Writes the journal of a book to a file while the book grows. Contracts see what the file holds, how much of the
/// journal that is, and whether a write failed.
#[derive(Drop)]
pub struct Recorder<J: JournalFile> {
    file: Counted<J>,
    keeps: bool,
    begun: bool,
    written: usize,
    broken: bool,
    /// How many bytes the file has, as far as this process wrote or found them.
    size: u64,
}

impl<J: JournalFile> Model for Recorder<J> {
    ghost use Rattle.q_kept.specs.State.{RecorderState};

    ghost Value = { RecorderState };

    ghost view = { λ r. record { file = J.contents r.file.inner; kept = J.kept r.file.inner; begun = r.begun; written = r.written; broken = r.broken; keeps = r.keeps } };
}

impl<J: JournalFile> Recorder<J> {
    /// A recorder that wrote nothing yet. Where it keeps, each call of `record` ends by asking the system to keep what
    /// was written, also where the power fails.
    pub fn new(file: J, keeps: bool) -> Recorder<J>
        ensures new { result ≡ record { file = J.contents file; kept = J.kept file; begun = false; written = 0; broken = false; keeps = keeps } }
        ensures recorded { (b : BookState) → IsRecorded (J.contents file) b result }
    {
        Recorder {
            file: Counted::new(file),
            keeps,
            begun: false,
            written: 0,
            broken: false,
            size: 0,
        }
    }

    /// A recorder whose file already holds the whole journal of a book, after what it held at first, and has this many
    /// bytes. Its next call of `record` appends only what the book does from now on.
    pub fn resumed(file: J, keeps: bool, book: &Book, size: u64) -> Recorder<J>
        ensures new { result ≡ record { file = J.contents file; kept = J.kept file; begun = true; written = length book.now.desk.journal; broken = false; keeps = keeps } }
        ensures recorded { (first : Option (List ℕ)) → Appends first (J.contents file) (journal_of book.now) → IsRecorded first book.now result }
    {
        Recorder {
            file: Counted::new(file),
            keeps,
            begun: true,
            written: book.events(),
            broken: false,
            size,
        }
    }

    /// Appends what the file lacks of the book's journal: the head, if it is not there, and the entries behind those
    /// that are. After 87 Failed, a write or a keep that failed now or before, nothing is written at any later time. At
    /// 99 OutOfMemory nothing was written, and a later call may succeed.
    pub fn record(&mut self, alloc: Global, book: &Book) -> Result<(), Unrecorded>
        // What this call does.
        ensures records { Records self.old book.now result self.new }

        // What stands in the file after any calls for a book that grows.
        ensures recorded { (first : Option (List ℕ)) (b : BookState) → Grows b book.now → IsRecorded first b self.old → IsRecorded first book.now self.new }
        ensures whole { OnOk result ((first : Option (List ℕ)) (b : BookState) → Grows b book.now → IsRecorded first b self.old → Appends first self.new.file (journal_of book.now)) }
    {
        if self.broken {
            return Err(Unrecorded::Failed);
        }
        let bytes = self.lacking(alloc, book)?;
        let Ok(()) = append(&mut self.file, &bytes, self.keeps) else {
            self.broken = true;
            return Err(Unrecorded::Failed);
        };
        self.begun = true;
        self.written = book.events();
        self.size = self.size.saturating_add(bytes.len() as u64);
        Ok(())
    }

    /// What the file lacks of the book's journal.
    fn lacking(&self, alloc: Global, book: &Book) -> Result<Vec<u8>, AllocError>
        ensures { IfOk result (λ bytes. bytes.items ≡ lacking_bytes self.now book.now) }
    {
        let entries = entries_bytes(alloc, book, self.written)?;
        if self.begun {
            return Ok(entries);
        }
        let mut bytes = head_bytes(alloc, book)?;
        bytes.extend_from_slice(&entries)?;
        Ok(bytes)
    }

    /// Looks whether the file is still as this recorder left it. If someone else removed it, cut it or wrote to it,
    /// that counts as a write that failed: nothing is written any more. Whether this look found that.
    pub fn look(&mut self) -> bool
        ensures looked { self.new ≡ (if result then record self.old { broken = true } else self.old) }
        ensures once { self.old.broken ≡ true → result ≡ false }
        ensures recorded { (first : Option (List ℕ)) (b : BookState) → IsRecorded first b self.old → IsRecorded first b self.new }
    {
        if self.broken || self.file.is_intact(self.size) {
            return false;
        }
        self.broken = true;
        true
    }

    /// Whether a write failed, so that nothing is written any more.
    pub fn is_broken(&self) -> bool
        ensures { result ≡ self.now.broken }
    {
        self.broken
    }

    /// How many entries the file holds.
    pub fn written(&self) -> usize
        ensures { result ≡ self.now.written }
    {
        self.written
    }

    /// The file.
    pub fn file(&self) -> &J
        ensures contents { J.contents result.now ≡ self.now.file }
        ensures kept { J.kept result.now ≡ self.now.kept }
    {
        &self.file.inner
    }
}

/// Appends these bytes, and has them kept if that is wanted. Where that fails, some beginning of them was appended.
fn append<J: JournalFile>(
    file: &mut Counted<J>,
    bytes: &[u8],
    keeps: bool,
) -> Result<(), TransportFailed>
    ensures written { OnOk result (Appends (J.contents file.old.inner) (J.contents file.new.inner) bytes.now) }
    ensures kept { OnOk result (keeps ≡ true → IfSome (J.kept file.new.inner) (λ all. J.contents file.new.inner ≡ Some all)) }
    ensures failed { OnErr result (AppendsPart (J.contents file.old.inner) (J.contents file.new.inner) bytes.now) }
{
    put(file, bytes)?;
    if keeps && file.keep().is_err() {
        return Err(TransportFailed);
    }
    Ok(())
}

/// Writes all of these bytes. Where a write fails or takes none, some beginning of them was written.
fn put<W: Write>(file: &mut Counted<W>, bytes: &[u8]) -> Result<(), TransportFailed>
    ensures written { OnOk result (Appends (W.contents file.old.inner) (W.contents file.new.inner) bytes.now) }
    ensures failed { OnErr result (AppendsPart (W.contents file.old.inner) (W.contents file.new.inner) bytes.now) }
{
    let mut rest = bytes;
    while !rest.is_empty() {
        match file.write(rest) {
            Ok(0) | Err(_) => return Err(TransportFailed),
            Ok(n) => rest = &rest[n..],
        }
    }
    Ok(())
}
