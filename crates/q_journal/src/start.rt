//! What a start makes of a journal's file that is there.

ghost use Rattle.std.specs.Prelude.{◌≡◌, ◌<◌, length, Some, IfOk, IfSome, MatchBool, option_copied};
ghost use Rattle.q_replay.specs.Journal.{head_of, journal_of};
ghost use Rattle.q_replay.specs.Spelling.{head_bytes as bytes_of_head, IsHead};
ghost use Rattle.q_journal.specs.Found.{BeginsWith};
ghost use Rattle.q_journal.specs.Notes.{course_of};
ghost use Rattle.q_journal.specs.Starts.{Finds, IsForeign, Judges, Settles, Starts};

use crate::course::{Course, Standing, course_of};
use crate::fault::JournalFault;
use crate::note::BootNote;
use crate::stored::StoredJournal;
use q_beginning::beginning;
use q_book::Book;
use q_replay::laws::one_head;
use q_replay::{ReadFault, ReplayFault, head_bytes, journal_bytes, read_head};
use std::alloc::{AllocError, Global};

/// The most bytes of a journal that is resumed: 1,024 MB.
pub const LONGEST_JOURNAL: usize = 1024 * 1024 * 1024;

/// What a node comes back with.
#[derive(Drop)]
pub struct Resumed {
    /// The book of its journal.
    pub book: Book,
    /// How many bytes the file keeps.
    pub kept: usize,
    /// How many bytes of a torn last event are cut off.
    pub cut: usize,
}

/// What a node does with the file of its journal that is there: it begins, and the file is emptied; or it comes back,
/// and a torn last event is cut off; or neither, and the file stays as it is. `own` is the book with which this node
/// would begin, `note` the note beside the file, and `boot` the start of the machine.
pub fn start_from<J: StoredJournal>(
    alloc: Global,
    file: &mut J,
    own: &Book,
    note: Option<&BootNote>,
    boot: &str,
    asked: bool,
) -> Result<Option<Resumed>, JournalFault>
    ensures starts { Starts (head_of own.now) (option_copied note.entry) boot.now asked (J.contents file.old) result (J.contents file.new) }

    // Where the node comes back, the file has the journal of its book, and nothing else.
    ensures own { IfOk result (λ begun. IfSome begun (λ r. head_of r.book ≡ head_of own.now)) }
    ensures journal { IfOk result (λ begun. IfSome begun (λ r. IfSome (J.contents file.old) (λ _. J.contents file.new ≡ Some (journal_of r.book)))) }
{
    let bytes = file.read_whole(alloc, LONGEST_JOURNAL)?;
    match find(alloc, own, &bytes)? {
        None => {
            settle(file, note, boot, Standing::Headless, asked, 0)?;
            Ok(None)
        }
        Some(resumed) => {
            settle(file, note, boot, Standing::Whole, asked, resumed.kept)?;
            Ok(Some(resumed))
        }
    }
}

/// Cuts the file to its first `kept` bytes, unless the start is refused.
fn settle<J: StoredJournal>(
    file: &mut J,
    note: Option<&BootNote>,
    boot: &str,
    standing: Standing,
    asked: bool,
    kept: usize,
) -> Result<(), JournalFault>
    ensures { Settles (course_of (option_copied note.entry) boot.now standing asked) kept (J.contents file.old) result (J.contents file.new) }
{
    judge(note, boot, standing, asked)?;
    match file.cut_to(kept) {
        Ok(()) => Ok(()),
        Err(_) => Err(JournalFault::Failed),
    }
}

/// Refuses a start that may lack what the node said.
fn judge(
    note: Option<&BootNote>,
    boot: &str,
    standing: Standing,
    asked: bool,
) -> Result<(), JournalFault>
    ensures { Judges (course_of (option_copied note.entry) boot.now standing asked) result }
{
    match course_of(note, boot, standing, asked) {
        Course::Begin | Course::Resume => Ok(()),
        Course::Refuse(why) => Err(JournalFault::Unresumed(why)),
    }
}

/// What the bytes are to the node that would begin with this book: less than its head, where it said nothing yet; or
/// what it comes back with.
fn find(alloc: Global, own: &Book, bytes: &[u8]) -> Result<Option<Resumed>, JournalFault>
    ensures { Finds (head_of own.now) bytes.now result }
{
    one_head();
    let spelled = own_head(alloc, own)?;
    let head = spelled.as_slice();
    if is_headless(head, bytes) {
        return Ok(None);
    }
    if !begins_with(bytes, head) {
        return Err(foreign(alloc, bytes));
    }
    let journal = beginning(alloc, bytes)?;
    Ok(Some(Resumed {
        book: journal.book,
        kept: journal.kept,
        cut: bytes.len() - journal.kept,
    }))
}

/// The head of the journal of this book. Such a head has a spelling.
fn own_head(alloc: Global, own: &Book) -> Result<Vec<u8>, AllocError>
    ensures bytes { IfOk result (λ bytes. bytes.items ≡ bytes_of_head (head_of own.now)) }
    ensures legal { IfOk result (λ _. IsHead (head_of own.now)) }
{
    // A book that can be written has a head that can be read.
    let _journal = journal_bytes(alloc, own)?;
    head_bytes(alloc, own)
}

/// Whether the bytes are a proper beginning of the head.
fn is_headless(head: &[u8], bytes: &[u8]) -> bool
    ensures { MatchBool result
        (BeginsWith head.now bytes.now × (length bytes.now < length head.now))
        (BeginsWith head.now bytes.now → length bytes.now < length head.now → ⊥) }
{
    bytes.len() < head.len() && begins_with(head, bytes)
}

/// Whether the bytes begin with these.
fn begins_with(bytes: &[u8], front: &[u8]) -> bool
    ensures { MatchBool result (BeginsWith bytes.now front.now) (BeginsWith bytes.now front.now → ⊥) }
{
    bytes.starts_with(front)
}

/// Why bytes that begin neither with the node's own head nor as a beginning of it are not its journal.
fn foreign(alloc: Global, bytes: &[u8]) -> JournalFault
    ensures { IsForeign bytes.now result }
{
    match read_head(alloc, bytes) {
        Ok(_) => JournalFault::OtherNode,
        Err(ReadFault::Form) => JournalFault::Journal(ReplayFault::Form { event: 0 }),
        Err(ReadFault::OutOfMemory) => JournalFault::OutOfMemory,
    }
}
