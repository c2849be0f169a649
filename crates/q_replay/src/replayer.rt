//! Journals to books.

ghost use Rattle.std.specs.Prelude.{◌≡◌, ◌≢◌, ◌+◌, ◌<◌, ◌^◌, ℕ, List, [], length, IfOk, IfErr, MatchResult};
ghost use Rattle.q_book.specs.State.{BookState};
ghost use Rattle.q_replay.specs.Journal.{journal_of, IsJournalled};
ghost use Rattle.q_replay.specs.Replayed.{Leads, IsFault};
ghost use Rattle.q_replay.specs.Taking.{Beginning};

use crate::call::take;
use crate::fault::ReplayFault;
use crate::head::Head;
use crate::laws::{one_event, one_head};
use crate::read::{ReadFault, read_event, read_head};
use crate::refusal::Refusal;
use bq_flow::laws::one_longest;
use bq_frame::Block;
use q_book::Book;
use sc_members::Config;
use std::alloc::Global;

/// The book of which the bytes are the journal, or what is first wrong with them: 57 or 58 at the least faulty event,
/// where the head is event 0. 99 OutOfMemory may stand in place of any of these answers.
pub fn replay(alloc: Global, bytes: &[u8]) -> Result<Book, ReplayFault>
    // A book is answered for its own journal alone.
    ensures spelled { IfOk result (λ b. bytes.now ≡ journal_of b) }
    ensures journalled { IfOk result IsJournalled }

    // The journal of a book gives that book, unless memory runs out.
    ensures all { (b : BookState) → IsJournalled b → bytes.now ≡ journal_of b → MatchResult result (λ c. c ≡ b) (λ e. e ≡ ReplayFault.OutOfMemory) }

    // Which fault it is.
    ensures fault { IfErr result (IsFault bytes.now) }
{
    one_longest();
    one_head();
    one_event();
    book_of(alloc, bytes)
}

/// What [`replay`] answers.
fn book_of(alloc: Global, bytes: &[u8]) -> Result<Book, ReplayFault>
    ensures spelled { IfOk result (λ b. bytes.now ≡ journal_of b) }
    ensures journalled { IfOk result IsJournalled }
    ensures fault { IfErr result (IsFault bytes.now) }
{
    // Each event takes a byte and more.
    let _most = bytes.len();
    let (mut book, mut rest) = open(alloc, bytes)?;
    let Ok(mut block) = Block::new(alloc) else {
        return Err(ReplayFault::OutOfMemory);
    };
    let mut count = 0;
    while !rest.is_empty() {
        rest = take_next(alloc, &mut book, &mut block, rest, count)?;
        count += 1;
    }
    let _desk = book.desk();
    Ok(book)
}

/// The book before the first event, and the bytes of the events.
fn open(alloc: Global, bytes: &[u8]) -> Result<(Book, &[u8]), ReplayFault>
    ensures leads { IfOk result (λ r. Leads bytes.now 0 r.0 r.1.now) }
    ensures fault { IfErr result (IsFault bytes.now) }
{
    let (head, rest) = match read_head(alloc, bytes) {
        Ok(read) => read,
        Err(ReadFault::Form) => return Err(ReplayFault::Form { event: 0 }),
        Err(ReadFault::OutOfMemory) => return Err(ReplayFault::OutOfMemory),
    };
    match begin(alloc, &head) {
        Ok(book) => Ok((book, rest)),
        Err(Refusal::Mismatch) => Err(ReplayFault::Mismatch { event: 0 }),
        Err(Refusal::OutOfMemory) => Err(ReplayFault::OutOfMemory),
    }
}

/// The book before any event of the node with this head, of the head's version.
fn begin(alloc: Global, head: &Head) -> Result<Book, Refusal>
    ensures { Beginning head.now result }
{
    let config = Config::new(head.beta, head.gamma)?;
    match &head.founders {
        Some(ids) => {
            let book = Book::founder_as(alloc, head.version, config, head.id, ids)?;
            Ok(book)
        }
        None => {
            let (book, _outs) = Book::entering_as(alloc, head.version, config, head.id)?;
            Ok(book)
        }
    }
}

/// Takes the event of the book's version that stands first, behind so many others. What stands behind it is answered.
fn take_next<'a>(
    alloc: Global,
    book: &mut Book,
    block: &mut Block,
    rest: &'a [u8],
    count: usize,
) -> Result<&'a [u8], ReplayFault>
    requires room { count + 1 < 2 ^ 64 }
    requires more { rest.now ≢ [] }
    ensures leads { (bytes : List ℕ) → Leads bytes count book.old rest.now → IfOk result (λ more. Leads bytes (count + 1) book.new more.now) }
    ensures shorter { IfOk result (λ more. length more.now < length rest.now) }
    ensures fault { (bytes : List ℕ) → Leads bytes count book.old rest.now → IfErr result (IsFault bytes) }
{
    let event = count + 1;
    let (written, more) = match read_event(alloc, book.version(), rest) {
        Ok(read) => read,
        Err(ReadFault::Form) => return Err(ReplayFault::Form { event }),
        Err(ReadFault::OutOfMemory) => return Err(ReplayFault::OutOfMemory),
    };
    match take(alloc, book, block, written) {
        Ok(()) => Ok(more),
        Err(Refusal::Mismatch) => Err(ReplayFault::Mismatch { event }),
        Err(Refusal::OutOfMemory) => Err(ReplayFault::OutOfMemory),
    }
}
