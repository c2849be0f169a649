//! Whose book it is.

ghost use Rattle.std.specs.Prelude.{MatchBool};
ghost use Rattle.q_book.specs.Replays.{IsBookOf, IsOther};

use crate::book::Book;

/// Whether this is the book of the node. Every book is the replay of its journal, and its recorded answers are right.
pub fn is_of(book: &Book, node: u64) -> bool
    ensures { MatchBool result (IsBookOf node book.now) (IsOther node book.now) }
{
    let _journal = book.journal();
    let _desk = book.desk();
    book.id() == node
}
