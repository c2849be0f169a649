//! The start of a node on the journal of an earlier run, as the same machine sees it.

ghost use Rattle.std.specs.Prelude.{◌≡◌, Some, IfOk};
ghost use Rattle.std.specs.Option.{ForSome};
ghost use Rattle.q_replay.specs.Journal.{journal_of};

use q_book::Book;
use q_journal::{BootNote, JournalFault, Resumed, start_from};
use q_kept::MemoryFile;
use q_script::ClusterFile;
use std::alloc::{AllocError, Global};

/// The name of the machine's start.
pub const BOOT: &str = "this";

/// The book with which a node of this file begins.
pub fn own_book(alloc: Global, file: &ClusterFile, id: u64) -> Result<Book, JournalFault>
    ensures { IfOk result (λ book. book.id ≡ id) }
{
    let is_founder = file.node(id).is_some_and(|line| line.is_founder);
    if is_founder {
        let founders = file.founders(alloc)?;
        return match Book::founder(alloc, file.config, id, founders.as_slice()) {
            Ok(book) => Ok(book),
            Err(_) => Err(JournalFault::OtherNode),
        };
    }
    match Book::entering(alloc, file.config, id) {
        Ok((book, _outs)) => Ok(book),
        Err(_) => Err(JournalFault::OutOfMemory),
    }
}

/// The note of a start of the machine.
pub fn note_of(alloc: Global, boot: &str, synced: bool) -> Result<BootNote, AllocError> {
    Ok(BootNote {
        boot: String::from_str(alloc, boot)?,
        start: 1,
        synced,
    })
}

/// A file in memory that has these bytes.
pub fn memory_of(alloc: Global, bytes: &[u8], room: usize) -> Result<MemoryFile, AllocError> {
    let mut file = MemoryFile::new(alloc, room);
    file.bytes.extend_from_slice(bytes)?;
    Ok(file)
}

/// What the node of this file comes back with on the journal that it left on the same machine.
pub fn resumed(
    alloc: Global,
    file: &ClusterFile,
    id: u64,
    journal: &mut MemoryFile,
) -> Result<Option<Resumed>, JournalFault>
    ensures own { IfOk result (λ found. ForSome found (λ r. r.book.id ≡ id)) }
    ensures holds { IfOk result (λ found. ForSome found (λ r. journal.new.bytes.items ≡ journal_of r.book)) }
{
    let own = own_book(alloc, file, id)?;
    let note = note_of(alloc, BOOT, false)?;
    start_from(alloc, journal, &own, Some(&note), BOOT, true)
}
