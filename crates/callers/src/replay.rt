//! A caller of `q_replay`.

ghost use Rattle.std.specs.Prelude.{◌≡◌, IfOk, IfErr};
ghost use Rattle.q_desk.specs.Answers.{AnswersAreRight};
ghost use Rattle.q_replay.specs.Journal.{journal_of};
ghost use Rattle.q_replay.specs.Replayed.{IsFault};

use q_book::Book;
use q_replay::{ReplayFault, replay};
use std::alloc::Global;

/// The book out of its journal, whoever wrote the bytes: each answer that it has recorded is right.
pub fn book_again(alloc: Global, bytes: &[u8]) -> Result<Book, ReplayFault>
    ensures book { IfOk result (λ book. bytes.now ≡ journal_of book) }
    ensures right { IfOk result (λ book. AnswersAreRight book.desk) }
    ensures fault { IfErr result (IsFault bytes.now) }
{
    let book = replay(alloc, bytes)?;
    let _right = book.desk();
    Ok(book)
}
