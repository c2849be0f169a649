//! Books to journals.

ghost use Rattle.std.specs.Prelude.{◌≡◌, IfOk};
ghost use Rattle.q_replay.specs.Journal.{journal_of, IsJournalled};

use crate::writer::Writer;
use q_book::Book;
use std::alloc::{AllocError, Global};

/// The journal of a book as bytes of its version: the only bytes of which [`replay`](crate::replay) makes this
/// book. The one error is that memory ran out (99 OutOfMemory).
pub fn journal_bytes(alloc: Global, book: &Book) -> Result<Vec<u8>, AllocError>
    ensures spelled { IfOk result (λ bytes. bytes.items ≡ journal_of book.now) }
    ensures journalled { IfOk result (λ _. IsJournalled book.now) }
{
    let _desk = book.desk();
    let mut writer = Writer::new(alloc, book.version());
    writer.head(book.id(), book.config(), book.founders())?;
    for entry in book.journal() {
        writer.entry(entry)?;
    }
    Ok(writer.bytes())
}
