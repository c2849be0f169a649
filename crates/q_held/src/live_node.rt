//! What the lock of a node keeps.

ghost use Rattle.std.specs.Prelude.{◌≡◌, ◌≤◌, ◌+◌, [], vec_len, vec_capacity, IfOk, MatchResult};
ghost use Rattle.q_board.specs.BoardId.{board_id};
ghost use Rattle.q_board.specs.Pumped.{Pumped, Stopped};
ghost use Rattle.q_held.specs.Resumed.{OffersFirst, running_jobs, still_asked};
ghost use Rattle.q_held.specs.LiveNodes.{Asks, Delivers, Hears, Leaves, Receives, Stores, both_unsent, counted, no_losses, no_unsent};

use crate::losses::{LossCounts, Unsent};
use crate::resumed::{offer_running, still_asked};
use q_board::{AskerSeat, Board, pump_once};
use q_book::{Asked, Book, BookFault};
use q_desk::Completed;
use q_table::ProgramId;
use sc_decode::decode_as;
use sc_msg::{Message, MessageFault};
use std::alloc::{AllocError, Global};

/// A node's book, the messages that its thread has still to send, and its seat at the board of jobs.
#[derive(Drop)]
pub struct LiveNode<'b> {
    /// The book, which is the replay of its journal.
    pub book: Book,
    /// What the book gave and the node's thread did not send yet, in turn.
    pub waiting: Vec<Message>,
    /// The datagrams that changed nothing so far.
    pub lost: LossCounts,
    /// What the node's thread did not send so far.
    pub unsent: Unsent,
    /// The board.
    pub board: &'b Board,
    /// The node's seat at this board.
    pub asker: AskerSeat,
    ghost seated: { asker.table ≡ board_id board.now },
}

/// Why a datagram changes nothing: it counts as lost.
#[derive(Clone, Copy)]
pub enum LossReason {
    /// Its bytes spell no message of the book's version.
    Bytes(MessageFault),
    /// The book refuses the message.
    Book(BookFault),
    /// 99: memory ran out.
    OutOfMemory,
}

impl<'b> LiveNode<'b> {
    /// A book that gave nothing and heard nothing yet.
    pub fn new(alloc: Global, book: Book, board: &'b Board, asker: AskerSeat) -> LiveNode<'b>
        requires { asker.table ≡ board_id board.now }
        ensures book { result.book ≡ book }
        ensures waiting { result.waiting.items ≡ [] }
        ensures lost { result.lost ≡ no_losses }
        ensures unsent { result.unsent ≡ no_unsent }
        ensures asker { result.asker ≡ asker }
    {
        LiveNode {
            book,
            waiting: Vec::new(alloc),
            lost: LossCounts::none(),
            unsent: Unsent::none(),
            board,
            asker,
        }
    }

    /// A node that comes back with the book of its journal. What it still asks waits, and the jobs of the queries that
    /// run are offered at the board again, as many as the row has room for. The one error is that memory ran out.
    pub fn resumed(
        alloc: Global,
        book: Book,
        board: &'b Board,
        mut asker: AskerSeat,
    ) -> Result<LiveNode<'b>, AllocError>
        requires { asker.table ≡ board_id board.now }
        ensures book { IfOk result (λ held. held.book ≡ book) }
        ensures asks { IfOk result (λ held. held.waiting.items ≡ still_asked book) }
        ensures offers { IfOk result (λ held. OffersFirst (running_jobs book) asker held.asker) }
        ensures lost { IfOk result (λ held. held.lost ≡ no_losses) }
        ensures unsent { IfOk result (λ held. held.unsent ≡ no_unsent) }
    {
        let waiting = still_asked(alloc, &book)?;
        offer_running(board, &mut asker, &book)?;
        Ok(LiveNode {
            book,
            waiting,
            lost: LossCounts::none(),
            unsent: Unsent::none(),
            board,
            asker,
        })
    }

    /// Takes a datagram that was received, and answers which operation it ended. An empty one is a bell, which only
    /// wakes the node's thread: it is not heard, and not lost. Any other is heard, as by [`LiveNode::hear`].
    pub fn receive(&mut self, alloc: Global, datagram: &[u8]) -> Option<Completed>
        ensures received { Receives datagram.now self.old.book self.old.waiting.items self.old.lost result self.new.book self.new.waiting.items self.new.lost }
        ensures unsent { self.new.unsent ≡ self.old.unsent }
        ensures asker { self.new.asker ≡ self.old.asker }
    {
        if datagram.is_empty() {
            return None;
        }
        self.hear(alloc, datagram).unwrap_or(None)
    }

    /// Takes the bytes of a datagram: the message that they spell in the book's version is delivered, what the book
    /// gives waits behind what waits already, and the operation that the message ended is answered. Where that is
    /// refused the datagram counts as lost, and nothing else changes.
    pub fn hear(&mut self, alloc: Global, bytes: &[u8]) -> Result<Option<Completed>, LossReason>
        ensures heard { Hears bytes.now self.old.book self.old.waiting.items result self.new.book self.new.waiting.items }
        ensures counted { self.new.lost ≡ counted result self.old.lost }
        ensures unsent { self.new.unsent ≡ self.old.unsent }
        ensures asker { self.new.asker ≡ self.old.asker }
    {
        match self.take_bytes(alloc, bytes) {
            Ok(ended) => Ok(ended),
            Err(lost) => {
                self.lost.count(lost);
                Err(lost)
            }
        }
    }

    /// The same, and nothing is counted.
    fn take_bytes(&mut self, alloc: Global, bytes: &[u8]) -> Result<Option<Completed>, LossReason>
        ensures heard { Hears bytes.now self.old.book self.old.waiting.items result self.new.book self.new.waiting.items }
        ensures lost { self.new.lost ≡ self.old.lost }
        ensures unsent { self.new.unsent ≡ self.old.unsent }
        ensures asker { self.new.asker ≡ self.old.asker }
    {
        let message = match decode_as(alloc, self.book.version(), bytes) {
            Ok(message) => message,
            Err(fault) => return Err(LossReason::Bytes(fault)),
        };
        if self.waiting.reserve(2).is_err() {
            return Err(LossReason::OutOfMemory);
        }
        self.take_in(&message)
    }

    /// Delivers a message, for whose answers there is room.
    fn take_in(&mut self, message: &Message) -> Result<Option<Completed>, LossReason>
        requires { vec_len self.old.waiting + 2 ≤ vec_capacity self.old.waiting }
        ensures delivered { Delivers message.now self.old.book self.old.waiting.items result self.new.book self.new.waiting.items }
        ensures lost { self.new.lost ≡ self.old.lost }
        ensures unsent { self.new.unsent ≡ self.old.unsent }
        ensures asker { self.new.asker ≡ self.old.asker }
    {
        match self.book.deliver(message) {
            Ok(taken) => {
                taken.outs.append_to(&mut self.waiting);
                Ok(taken.completed)
            }
            Err(fault) => Err(LossReason::Book(fault)),
        }
    }

    /// Begins to store a value of these bytes, and answers the operation's tag. What the book gives waits.
    pub fn store(&mut self, value: &[u8]) -> Result<u64, BookFault>
        ensures stored { Stores value.now self.old.book self.old.waiting.items result self.new.book self.new.waiting.items }
        ensures lost { self.new.lost ≡ self.old.lost }
        ensures unsent { self.new.unsent ≡ self.old.unsent }
        ensures asker { self.new.asker ≡ self.old.asker }
    {
        self.waiting.reserve(2)?;
        let begun = self.book.store(value)?;
        let tag = begun.tag;
        begun.outs.append_to(&mut self.waiting);
        Ok(tag)
    }

    /// A query begins, and its number is answered. What the book gives waits.
    pub fn ask(&mut self, program: ProgramId, start: u64) -> Result<usize, BookFault>
        ensures asked { Asks program start self.old.book self.old.waiting.items result self.new.book self.new.waiting.items }
        ensures lost { self.new.lost ≡ self.old.lost }
        ensures unsent { self.new.unsent ≡ self.old.unsent }
        ensures asker { self.new.asker ≡ self.old.asker }
    {
        self.waiting.reserve(2)?;
        let Asked { query, begun } = self.book.ask(program, start)?;
        begun.outs.append_to(&mut self.waiting);
        Ok(query)
    }

    /// Leaves for good. What the book gives waits.
    pub fn leave(&mut self) -> Result<(), BookFault>
        ensures left { Leaves self.old.book self.old.waiting.items result self.new.book self.new.waiting.items }
        ensures lost { self.new.lost ≡ self.old.lost }
        ensures unsent { self.new.unsent ≡ self.old.unsent }
        ensures asker { self.new.asker ≡ self.old.asker }
    {
        self.waiting.reserve(2)?;
        let outs = self.book.leave()?;
        outs.append_to(&mut self.waiting);
        Ok(())
    }

    /// The messages that wait, which wait no longer.
    pub fn take(&mut self, alloc: Global) -> Vec<Message>
        ensures given { result.items ≡ self.old.waiting.items }
        ensures none { self.new.waiting.items ≡ [] }
        ensures book { self.new.book ≡ self.old.book }
        ensures lost { self.new.lost ≡ self.old.lost }
        ensures unsent { self.new.unsent ≡ self.old.unsent }
        ensures asker { self.new.asker ≡ self.old.asker }
    {
        if self.waiting.is_empty() {
            // The room for the next ones stays.
            return Vec::new(alloc);
        }
        std::mem::replace(&mut self.waiting, Vec::new(alloc))
    }

    /// Counts what the node's thread did not send.
    pub fn count_unsent(&mut self, unsent: Unsent)
        ensures counted { self.new.unsent ≡ both_unsent self.old.unsent unsent }
        ensures book { self.new.book ≡ self.old.book }
        ensures waiting { self.new.waiting.items ≡ self.old.waiting.items }
        ensures lost { self.new.lost ≡ self.old.lost }
        ensures asker { self.new.asker ≡ self.old.asker }
    {
        self.unsent = self.unsent.and(unsent);
    }

    /// Posts the results that wait for the node at the board, and offers jobs of its ready queries there. Refused as
    /// [`pump_once`] is.
    pub fn pump(&mut self) -> Result<u32, BookFault>
        ensures pumped { MatchResult result
            (λ posted. Pumped self.old.asker self.old.book posted self.new.asker self.new.book)
            (λ fault. Stopped self.old.asker self.old.book fault self.new.asker self.new.book) }
        ensures waiting { self.new.waiting.items ≡ self.old.waiting.items }
        ensures lost { self.new.lost ≡ self.old.lost }
        ensures unsent { self.new.unsent ≡ self.old.unsent }
    {
        pump_once(self.board, &mut self.asker, &mut self.book)
    }
}
