//! What the one lock of a node keeps, and what is done under it.

ghost use Rattle.std.specs.Prelude.{◌≡◌, ◌↔◌, ◌==◌, ℕ, List, [], length, map, Option, option_map, is_some, vec_items, true, false, not, if◌then◌else◌, IsTrue};
ghost use Rattle.std.specs.FinMap as fin;
ghost use Rattle.std.specs.List.{AllByRecursion};
ghost use Rattle.sc_msg.specs.declared.message.Message.{Message as Sent};
ghost use Rattle.q_desk.specs.Desks.{answer_of};
ghost use Rattle.q_book.specs.State.{BookState};
ghost use Rattle.q_held.specs.LiveNodes.{both_unsent, ended_by};
ghost use Rattle.q_net.specs.Replies.{Replies};
ghost use Rattle.q_net.specs.declared.replies.Reply.{Reply as Told};
ghost use Rattle.q_net.specs.declared.request.Request.{Request as Asked};
ghost use Rattle.q_kept.specs.State.{RecorderState};
ghost use Rattle.q_kept.specs.Recording.{Grows};
ghost use Rattle.q_kept.specs.Letters.{SpellsFirst};
ghost use Rattle.q_kept.specs.Questions.{GoesAgain, due, kept_questions, looked_at};
ghost use Rattle.q_doors.specs.Books.{HasEnded};
ghost use Rattle.q_book.specs.Replays.{IsBookOf};
ghost use Rattle.q_doors.specs.Clients.{IsReplyOf};
ghost use Rattle.q_node.specs.Console.{IsSaidToLeave, status_of};
ghost use Rattle.q_node.specs.Journal.{IsKept};
ghost use Rattle.q_node.specs.State.{state_of};
ghost use Rattle.q_node.specs.Own.{IsOwn};
ghost use Rattle.q_node.specs.Calls.{Finishes, HasEndedWritten, HearsAndSettles, LeavesAndSettles, RepliedSo, Settles, SettlesAfter, is_behind, is_open, is_told, is_written, said_to_leave, why_unwritten};

use crate::console::Said;
use crate::start::Start;
use crate::status::Status;
use q_book::{Book, BookFault};
use q_desk::Completed;
use q_doors::has_ended;
use q_held::{LossCounts, LossReason, Unsent};
use q_kept::laws::held_books_grow;
use q_kept::laws_recorder::{books_grow, recorded_stays};
use q_kept::{JournalFile, Kept, Letter, Recorder, Unrecorded};
use q_net::{Reply, Request, reply};
use q_session::Ran;
use reasons::Reason;
use sc_msg::Version;
use std::alloc::Global;
use std::marker::{Model, PhantomData};

/// What the one lock of a node keeps: its book, which is its own, the recorder of the journal, and what goes again. The
/// file holds, after what it held at first, what the recorder counts of the book's journal. Contracts see it as the
/// record of what is kept.
#[derive(Drop)]
pub struct Own<'b, J: JournalFile, S: Start> {
    kept: Kept<'b, J>,
    start: PhantomData<S>,
}

impl<'b, J: JournalFile, S: Start> Model for Own<'b, J, S> {
    ghost use Rattle.std.specs.Coded.{codes};
    ghost use Rattle.sc_msg.specs.contracts.message.Message as message;
    ghost use Rattle.q_board.specs.contracts.seats.AskerSeat as asker;
    ghost use Rattle.q_book.specs.contracts.book.Book as book;
    ghost use Rattle.q_kept.specs.contracts.question.Question as question;
    ghost use Rattle.q_node.specs.State.{OwnState, state_of};
    ghost use Rattle.q_node.specs.Own.{IsOwn};

    ghost Value = { OwnState };

    ghost coded = { Prim.hlevel (codes, message.the_row.coded, asker.the_row.coded, book.the_row.coded, question.the_row.coded) };

    ghost view = { λ o. state_of o.kept };

    ghost invariant = { λ o. IsOwn S.id S.first o.kept.held.book o.kept.recorder };
}

/// The result of a datagram.
#[derive(Drop)]
pub struct Heard {
    /// What is to be sent; none where the journal is not written.
    pub letters: Option<Vec<Letter>>,
    /// Whether an operation of the node ended.
    pub has_ended: bool,
}

/// The result of a request.
#[derive(Drop)]
pub struct Answered {
    /// What the book replies.
    pub said: Reply,
    /// What is to be sent; none where the journal is not written, and then nothing is replied.
    pub letters: Option<Vec<Letter>>,
}

/// The result of the command to leave.
#[derive(Drop)]
pub struct Left {
    /// What is said at the console.
    pub said: Said,
    /// What is to be sent; none where the journal is not written.
    pub letters: Option<Vec<Letter>>,
}

/// What a node is when its threads have ended.
#[derive(Drop)]
pub struct Ended<J: JournalFile> {
    /// How many events the journal has, all of them written; or why they are not.
    pub events: Result<usize, Unrecorded>,
    /// The recorder, with the file.
    pub recorder: Recorder<J>,
    /// The datagrams that changed nothing.
    pub lost: LossCounts,
    /// What was not sent.
    pub unsent: Unsent,
}

/// A law: a book that grows stays the node's, and its file that of its journal.
fn own_stays()
    ensures { (node : ℕ) (first : Option (List ℕ)) (b c : BookState) (r : RecorderState) → Grows b c → IsOwn node first b r → IsOwn node first c r }
{
    recorded_stays();
}

/// A law: a book grows by each request.
fn replies_grow()
    ensures { (b c : BookState) (r : Asked) (said : Told) (outs : List Sent) → Replies b r said outs c → Grows b c }
{
    books_grow();
}

/// Pumps and writes the journal: what is to be sent, or none where it is not written.
fn settle_kept<J: JournalFile>(alloc: Global, kept: &mut Kept<'_, J>) -> Option<Vec<Letter>>
    ensures own { (node : ℕ) (first : Option (List ℕ)) → IsOwn node first kept.old.held.book kept.old.recorder → IsOwn node first kept.new.held.book kept.new.recorder }
    ensures settled { Settles (state_of kept.old) (option_map vec_items result) (state_of kept.new) }
{
    kept.settle(alloc)
}

/// Writes what the file lacks still of the book's journal: how many events it has.
fn record_all<J: JournalFile>(
    alloc: Global,
    book: &Book,
    recorder: &mut Recorder<J>,
) -> Result<usize, Unrecorded>
    ensures kept { (node : ℕ) (first : Option (List ℕ)) → IsBookOf node book.now → IsOwn node first book.now recorder.old → IsKept node first recorder.new.file result }
    ensures finished { Finishes recorder.old book.now result recorder.new }
{
    books_grow();
    match recorder.record(alloc, book) {
        Ok(()) => Ok(book.events()),
        Err(fault) => Err(fault),
    }
}

/// Whether an operation ended.
fn is_end(heard: Result<Option<Completed>, LossReason>) -> bool
    ensures { result ≡ is_some (ended_by heard) }
{
    matches!(heard, Ok(Some(_)))
}

/// Takes a message's bytes, and settles.
fn hear_kept<J: JournalFile>(alloc: Global, kept: &mut Kept<'_, J>, bytes: &[u8]) -> Heard
    ensures own { (node : ℕ) (first : Option (List ℕ)) → IsOwn node first kept.old.held.book kept.old.recorder → IsOwn node first kept.new.held.book kept.new.recorder }
    ensures heard { HearsAndSettles bytes.now (state_of kept.old) result.has_ended (option_map vec_items result.letters) (state_of kept.new) }
{
    held_books_grow();
    own_stays();
    let heard = kept.held.hear(alloc, bytes);
    Heard {
        letters: settle_kept(alloc, kept),
        has_ended: is_end(heard),
    }
}

/// Does what a request asks, and settles.
fn answer_kept<J: JournalFile>(alloc: Global, kept: &mut Kept<'_, J>, request: &Request) -> Answered
    ensures own { (node : ℕ) (first : Option (List ℕ)) → IsOwn node first kept.old.held.book kept.old.recorder → IsOwn node first kept.new.held.book kept.new.recorder }
    ensures replied { SettlesAfter (RepliedSo request.now result.said (state_of kept.old)) (state_of kept.old) (option_map vec_items result.letters) (state_of kept.new) }
{
    replies_grow();
    own_stays();
    let held = &mut kept.held;
    let said = reply(alloc, &mut held.book, request, &mut held.waiting);
    Answered {
        said,
        letters: settle_kept(alloc, kept),
    }
}

/// Why the journal was not written at the last attempt.
fn why_unwritten<J: JournalFile>(recorder: &Recorder<J>) -> Reason
    ensures { result ≡ why_unwritten recorder.now }
{
    if recorder.is_broken() {
        Reason::FileFailed
    } else {
        Reason::OutOfMemory
    }
}

/// What is said to a leave that came to this, where the journal was written or not.
fn said_to_leave<J: JournalFile>(
    left: Result<(), BookFault>,
    has_written: bool,
    recorder: &Recorder<J>,
) -> Said
    ensures { result ≡ said_to_leave left has_written recorder.now }
{
    match left {
        Ok(()) => {
            if has_written {
                Said::Done
            } else {
                Said::Refused(why_unwritten(recorder))
            }
        }
        Err(reason) => Said::Refused(reason),
    }
}

/// Leaves the cluster for good, and settles.
fn leave_kept<J: JournalFile>(alloc: Global, kept: &mut Kept<'_, J>) -> Left
    ensures own { (node : ℕ) (first : Option (List ℕ)) → IsOwn node first kept.old.held.book kept.old.recorder → IsOwn node first kept.new.held.book kept.new.recorder }
    ensures left { LeavesAndSettles (state_of kept.old) result.said (option_map vec_items result.letters) (state_of kept.new) }
{
    held_books_grow();
    own_stays();
    let left = kept.held.leave();
    let letters = settle_kept(alloc, kept);
    let said = said_to_leave(left, letters.is_some(), &kept.recorder);
    Left { said, letters }
}

/// Whether a query has no answer yet.
fn is_open(answer: Result<Option<Ran>, BookFault>) -> bool
    ensures { result ≡ is_open answer }
{
    matches!(answer, Ok(None))
}

impl<'b, J: JournalFile, S: Start> Own<'b, J, S> {
    /// A node that was just begun.
    pub fn new(kept: Kept<'b, J>) -> Self
        requires { IsOwn S.id S.first kept.held.book kept.recorder }
        ensures { result ≡ state_of kept.entry }
    {
        Own {
            kept,
            start: PhantomData,
        }
    }

    /// The book.
    fn book(&self) -> &Book
        ensures same { result.now ≡ self.now.book }
        ensures own { IsBookOf S.id result.now }
    {
        let book = &self.kept.held.book;
        let _journal = book.journal();
        let _desk = book.desk();
        book
    }

    /// Pumps and writes the journal: what is to be sent, or none where it is not written.
    pub fn settle(&mut self, alloc: Global) -> Option<Vec<Letter>>
        ensures { Settles self.old (option_map vec_items result) self.new }
    {
        settle_kept(alloc, &mut self.kept)
    }

    /// Looks whether the journal's file is still as the node left it; if not, the node is mute from now on. Whether this
    /// look found that.
    pub fn look(&mut self) -> bool
        ensures looked { self.new ≡ (if result then record self.old { recorder = record self.old.recorder { broken = true } } else self.old) }
        ensures once { self.old.recorder.broken ≡ true → result ≡ false }
    {
        self.kept.look()
    }

    /// Takes a message's bytes, and settles.
    pub fn hear(&mut self, alloc: Global, bytes: &[u8]) -> Heard
        ensures { HearsAndSettles bytes.now self.old result.has_ended (option_map vec_items result.letters) self.new }
    {
        hear_kept(alloc, &mut self.kept, bytes)
    }

    /// Does what a request asks, and settles.
    pub fn answer(&mut self, alloc: Global, request: &Request) -> Answered
        ensures said { IsReplyOf S.id request.now result.said }
        ensures replied { SettlesAfter (RepliedSo request.now result.said self.old) self.old (option_map vec_items result.letters) self.new }
    {
        let _book = self.book();
        answer_kept(alloc, &mut self.kept, request)
    }

    /// Leaves the cluster for good, and settles.
    pub fn leave(&mut self, alloc: Global) -> Left
        ensures said { IsSaidToLeave S.id result.said }
        ensures left { LeavesAndSettles self.old result.said (option_map vec_items result.letters) self.new }
    {
        let _book = self.book();
        leave_kept(alloc, &mut self.kept)
    }

    /// What goes again at this look, to these nodes.
    pub fn again(&mut self, alloc: Global, nodes: &[u64]) -> Vec<Letter>
        // Each letter is of a message that was given before, and goes to a node that its operation has not counted; or
        // to all, where the node tells of itself.
        ensures each { AllByRecursion (GoesAgain self.old.book.version self.old.book.node nodes.now self.old.questions) result.items }

        // All that is due goes, in turn, up to the first for which memory is short.
        ensures all { self.old.recorder.broken ≡ false
            → SpellsFirst self.old.book.version (due self.old.book.version self.old.book.node nodes.now self.old.questions) result.items }
        ensures questions { self.old.recorder.broken ≡ false
            → self.new.questions ≡ map looked_at (kept_questions self.old.book.node self.old.questions) }

        // Once mute, always mute.
        ensures mute { self.old.recorder.broken ≡ true → (result.items ≡ []) × (self.new.questions ≡ self.old.questions) }

        // Nothing else changes.
        ensures same { self.new ≡ record self.old { questions = self.new.questions } }
    {
        self.kept.again(alloc, nodes)
    }

    /// The version of the book.
    pub fn version(&self) -> Version
        ensures { result ≡ self.now.book.version }
    {
        self.kept.held.book.version()
    }

    /// Whether all events of the book are written.
    fn is_written(&self) -> bool
        ensures { result ≡ is_written self.now }
    {
        self.kept.recorder.written() == self.kept.held.book.events()
    }

    /// Whether no message waits.
    fn is_empty(&self) -> bool
        ensures { result ≡ (length self.now.waiting == 0) }
    {
        self.kept.held.waiting.is_empty()
    }

    /// Whether something waits that a settling may write or give.
    pub fn is_behind(&self) -> bool
        ensures { result ≡ is_behind self.now }
    {
        !self.is_empty() || !self.is_written()
    }

    /// Whether a write of the journal failed: the node says nothing any more.
    pub fn is_mute(&self) -> bool
        ensures { result ≡ self.now.recorder.broken }
    {
        self.kept.is_mute()
    }

    /// Whether all events of the book are written, and no write failed.
    fn is_told(&self) -> bool
        ensures { result ≡ is_told self.now }
    {
        !self.is_mute() && self.is_written()
    }

    /// How the node is.
    pub fn status(&self) -> Status
        ensures own { (b : BookState) × IsBookOf S.id b × (result ≡ status_of b) }
        ensures status { result ≡ status_of self.now.book }
    {
        Status::of(self.book())
    }

    /// How many ids the node's view holds.
    pub fn ids(&self) -> usize
        ensures { result ≡ fin.len self.now.book.node.view }
    {
        self.kept.held.book.node().view().len()
    }

    /// Whether the operation with this tag was begun and has ended, and that is written.
    pub fn has_ended(&self, tag: u64) -> bool
        ensures own { IsTrue result → HasEnded S.id tag }
        ensures written { IsTrue result ↔ HasEndedWritten self.now tag }
    {
        if !self.is_told() {
            return false;
        }
        has_ended(self.book(), tag)
    }

    /// Whether a query has its answer, or never will have one.
    pub fn is_answered(&self, query: u64) -> bool
        ensures { result ≡ not (is_open (answer_of self.now.book.desk query)) }
    {
        !is_open(self.kept.held.book.answer(query as usize))
    }

    /// Counts what was not sent.
    pub fn count_unsent(&mut self, unsent: Unsent)
        ensures { self.new ≡ record self.old { unsent = both_unsent self.old.unsent unsent } }
    {
        self.kept.held.count_unsent(unsent);
    }

    /// Writes what the file lacks still, and ends the node.
    pub fn end(self, alloc: Global) -> Ended<J>
        ensures kept { IsKept S.id S.first result.recorder.file result.events }
        ensures finished { Finishes self.entry.recorder self.entry.book result.events result.recorder }
        ensures lost { result.lost ≡ self.entry.lost }
        ensures unsent { result.unsent ≡ self.entry.unsent }
    {
        let _book = self.book();
        let Own { kept, .. } = self;
        let Kept {
            held,
            mut recorder,
            ..
        } = kept;
        Ended {
            events: record_all(alloc, &held.book, &mut recorder),
            recorder,
            lost: held.lost,
            unsent: held.unsent,
        }
    }
}
