//! A caller of `q_book`.

ghost use Rattle.std.specs.Prelude.{◌≡◌, ℕ, Ok, IfOk};
ghost use Rattle.q_book.specs.Books.{registered, asked};
ghost use Rattle.q_book.specs.State.{BookState};

use q_book::{Asked, Book, BookFault};
use q_table::Program;

/// A query of a program, which the book registers first: a program that it has keeps its id.
pub fn register_and_ask(book: &mut Book, program: &Program, start: u64) -> Result<Asked, BookFault>
    ensures { IfOk result (λ query. (id : ℕ) × (between : BookState)
        × (registered book.old program.now ≡ Ok (id, between)) × (asked between id start ≡ Ok (query, book.new))) }
{
    let id = book.register(program)?;
    let query = book.ask(id, start)?;
    Ok(query)
}
