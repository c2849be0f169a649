//! Whose books they are.

ghost use Rattle.std.specs.Prelude.{length, MatchBool};
ghost use Rattle.q_nodes.specs.Books.{AreBooksOf};
ghost use Rattle.q_nodes.specs.Runs.{IsAstray};

use q_book::{Book, is_of};

/// Whether these are the books of as many nodes, in the order of their ids, which are 1 to their number.
pub fn are_of_nodes(books: &[Book]) -> bool
    ensures { MatchBool result (AreBooksOf (length books.now) books.now) (IsAstray (length books.now)) }
{
    for (place, book) in books.iter().enumerate() {
        if !is_of(book, place as u64 + 1) {
            return false;
        }
    }
    true
}
