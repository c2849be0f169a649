//! Messages that wait are given as letters.

ghost use Rattle.std.specs.Prelude.{◌≡◌, ◌++◌, ◌<◌, [], ◌∷◌, map, filter, vec_len, vec_capacity};
ghost use Rattle.sc_msg.specs.declared.message.Message.{Message as Said};
ghost use Rattle.q_kept.specs.Giving.{Adds, Gives, outbox};
ghost use Rattle.q_kept.specs.Questions.{goes_again, new_question};

use crate::letter::{Letter, push_letter};
use crate::question::{Question, goes_again};
use q_held::{LiveNode, Unsent, addressee};
use sc_msg::{Message, Version};
use std::alloc::{AllocError, Global};

/// Keeps a message that was given, if it goes again.
fn keep(questions: &mut Vec<Question>, message: Message)
    requires { vec_len questions.old < vec_capacity questions.old }
    ensures { questions.new.items ≡
        questions.old.items ++ map new_question (filter (λ (m : Said). goes_again m.body) (message ∷ [])) }
{
    if goes_again(&message) {
        questions.push_reserved(Question::new(message));
    }
}

/// Does the first message that waits, if one does: its letter stands behind others. At Err, for want of memory, all is
/// as it was. A message that has no bytes in the version is counted as unsent, and one that goes again is kept as a
/// question.
fn give_next(
    alloc: Global,
    version: Version,
    held: &mut LiveNode<'_>,
    questions: &mut Vec<Question>,
    letters: &mut Vec<Letter>,
) -> Result<(), AllocError>
    ensures added { Adds version (outbox held.old.waiting.items questions.old.items held.old.unsent)
        letters.old.items (outbox held.new.waiting.items questions.new.items held.new.unsent) letters.new.items }
    ensures book { held.new.book ≡ held.old.book }
    ensures asker { held.new.asker ≡ held.old.asker }
    ensures lost { held.new.lost ≡ held.old.lost }
{
    let Some(message) = held.waiting.first() else {
        return Ok(());
    };
    if !message.fits(version) {
        let _ = held.waiting.remove(0);
        held.unsent = held.unsent.and(Unsent::message());
        return Ok(());
    }
    questions.reserve(1)?;
    push_letter(alloc, version, addressee(message), message, letters)?;
    keep(questions, held.waiting.remove(0));
    Ok(())
}

/// Gives the messages that wait as letters, in turn, up to the first for which memory is short.
pub(crate) fn give_waiting(
    alloc: Global,
    held: &mut LiveNode<'_>,
    questions: &mut Vec<Question>,
) -> Vec<Letter>
    ensures given { Gives held.old.book.version (outbox held.old.waiting.items questions.old.items held.old.unsent)
        result.items (outbox held.new.waiting.items questions.new.items held.new.unsent) }
    ensures book { held.new.book ≡ held.old.book }
    ensures asker { held.new.asker ≡ held.old.asker }
    ensures lost { held.new.lost ≡ held.old.lost }
{
    let version = held.book.version();
    let mut letters = Vec::new(alloc);
    for _ in 0..held.waiting.len() {
        if give_next(alloc, version, held, questions, &mut letters).is_err() {
            break;
        }
    }
    letters
}
