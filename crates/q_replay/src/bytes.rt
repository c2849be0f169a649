//! The bytes of parts of a journal: of its head, and of the entries behind so many.

ghost use Rattle.std.specs.Prelude.{◌≡◌, All, IfOk, OnOk, drop};
ghost use Rattle.q_book.specs.Replays.{EntryFits};
ghost use Rattle.q_replay.specs.Spelling.{head_bytes as bytes_of_head};
ghost use Rattle.q_replay.specs.Writing.{with_more};
ghost use Rattle.q_replay.specs.Journal.{head_of, entries_bytes as bytes_of_entries};
ghost use Rattle.q_replay.specs.Checked.{IsChecked};

use crate::writer::Writer;
use q_book::Book;
use q_desk::Entry;
use std::alloc::{AllocError, Global};

/// The head of a book's journal. The one error is that memory ran out (99 OutOfMemory).
pub fn head_bytes(alloc: Global, book: &Book) -> Result<Vec<u8>, AllocError>
    ensures { IfOk result (λ bytes. bytes.items ≡ bytes_of_head (head_of book.now)) }
{
    let mut writer = Writer::new(alloc, book.version());
    writer.head(book.id(), book.config(), book.founders())?;
    Ok(writer.bytes())
}

/// The entries of a book's journal behind the first so many: none where it has no more. The one error is that memory
/// ran out (99 OutOfMemory).
pub fn entries_bytes(alloc: Global, book: &Book, first: usize) -> Result<Vec<u8>, AllocError>
    ensures { IfOk result (λ bytes. bytes.items ≡ bytes_of_entries book.now.version (drop first book.now.desk.journal)) }
{
    let _desk = book.desk();
    let mut writer = Writer::new(alloc, book.version());
    write_entries(&mut writer, behind(book.journal(), first))?;
    Ok(writer.bytes())
}

/// The entries behind the first so many.
fn behind(journal: &[Entry], first: usize) -> &[Entry]
    ensures { result.now ≡ drop first journal.now }
{
    match journal.split_at_checked(first) {
        Some((_, rest)) => rest,
        None => &[],
    }
}

fn write_entries(writer: &mut Writer, entries: &[Entry]) -> Result<(), AllocError>
    requires fits { All (EntryFits writer.old.version) entries.now }
    requires checked { All (IsChecked writer.old.version) entries.now }
    ensures { OnOk result (writer.new ≡ with_more writer.old (bytes_of_entries writer.old.version entries.now)) }
{
    for entry in entries {
        writer.entry(entry)?;
    }
    Ok(())
}
