//! A founder that is alone, with its book.

use crate::step::StepOutcome;
use crate::stream::{Input, Output};
use bq_frame::Block;
use q_book::{Asked, Book, BookFault, Delivery};
use q_net::serve;
use q_outside::Counted;
use q_session::{Done, Ran};
use q_table::ProgramId;
use sc_members::Config;
use sc_msg::{Message, Version};
use std::alloc::{AllocError, Global};
use std::sync::Wait;

/// How many deliveries or answers a book is given to settle.
const MOST_TURNS: u32 = 1000;

/// A founder that is alone: its book, the block over which its jobs are run, and the messages that it gave and has not
/// heard yet. It is held in a box, since a proof writes out the drop of what is held by value.
#[derive(Drop)]
pub struct Founder {
    pub alloc: Global,
    pub book: Book,
    block: Block,
    pub sent: Vec<Message>,
}

/// What came of requests that were served.
#[derive(Drop)]
pub struct Served {
    pub replies: Vec<u8>,
    /// Whether they were served to their end.
    pub has_ended: bool,
    pub failed_reads: u64,
    pub failed_writes: u64,
    /// How many messages the book gave.
    pub messages: usize,
}

impl Founder {
    /// A founder that is alone, before any call. The one error is that there is no memory.
    pub fn new(alloc: Global) -> Result<Box<Founder>, BookFault> {
        Founder::of(alloc, Version::Second)
    }

    /// The same of this version.
    pub fn of(alloc: Global, version: Version) -> Result<Box<Founder>, BookFault> {
        let block = Block::new(alloc)?;
        let book = Book::founder_as(alloc, version, Config::default(), 1, &[1])?;
        let founder = Founder {
            alloc,
            book,
            block,
            sent: Vec::new(alloc),
        };
        Ok(Box::new(alloc, founder)?)
    }

    /// Serves requests, where a read fails once so many bytes were read, or a write once so many were written. Refused
    /// where there is no memory for the replies.
    pub fn serve<R: Wait>(
        &mut self,
        rt: &R,
        requests: &[u8],
        read_limit: Option<usize>,
        write_limit: Option<usize>,
    ) -> Result<Served, AllocError> {
        let before = self.sent.len();
        let mut input = Counted::new(Input::new(requests, read_limit));
        let mut out = Counted::new(Output::new(self.alloc, write_limit)?);
        let ended = serve(
            rt,
            self.alloc,
            &mut self.book,
            &mut input,
            &mut out,
            &mut self.sent,
        );
        Ok(Served {
            has_ended: ended.is_ok(),
            failed_reads: input.failures(),
            failed_writes: out.failures(),
            replies: out.inner.bytes,
            messages: self.sent.len().saturating_sub(before),
        })
    }

    /// Hears a message. What it gives waits.
    pub fn hear(&mut self, message: &Message) -> Result<(), BookFault> {
        self.sent.reserve(2)?;
        let Delivery { outs, .. } = self.book.deliver(message)?;
        outs.append_to(&mut self.sent);
        Ok(())
    }

    /// Hears the next of what the book gave. Whether the book took it; none where there is nothing.
    fn hear_next(&mut self) -> Option<bool> {
        let message = self.sent.pop()?;
        Some(self.hear(&message).is_ok())
    }

    /// Hears what the book gave until it gives nothing more. Whether the book took all.
    pub fn settle(&mut self) -> bool {
        for _ in 0..MOST_TURNS {
            match self.hear_next() {
                Some(true) => {}
                Some(false) => return false,
                None => return true,
            }
        }
        false
    }

    /// Runs the job of the next ready query, and records its answer. Whether there was one.
    pub fn run_job(&mut self) -> Result<bool, BookFault> {
        match self.book.hand_out()? {
            Some(job) => {
                self.book.post(&Done::run(job, &mut self.block))?;
                Ok(true)
            }
            None => Ok(false),
        }
    }

    /// Runs the job of each ready query, and records its answer: how many.
    fn answer(&mut self) -> u64 {
        let mut answered: u64 = 0;
        for _ in 0..MOST_TURNS {
            match self.run_job() {
                Ok(true) => answered = answered.saturating_add(1),
                Ok(false) | Err(_) => return answered,
            }
        }
        answered
    }

    /// Does a step of the book.
    pub fn step(&mut self, word: &str) -> StepOutcome {
        match word {
            "settle" => StepOutcome::of(self.settle()),
            "answer" => StepOutcome::Count(self.answer()),
            "leave" => self.leave(),
            "room" => self.room(),
            "events" => StepOutcome::Count(self.book.events() as u64),
            _ => StepOutcome::Nothing,
        }
    }

    /// Leaves for good. Nothing hears of it.
    fn leave(&mut self) -> StepOutcome {
        match self.book.leave() {
            Ok(_) => StepOutcome::Done,
            Err(reason) => StepOutcome::Refused(reason.number()),
        }
    }

    /// Whether there is room for the answer of a query.
    fn room(&self) -> StepOutcome {
        match self.book.room_for_post() {
            Ok(()) => StepOutcome::Done,
            Err(reason) => StepOutcome::Refused(reason.number()),
        }
    }

    /// Asks the first program from a start value: the query. What the book gives waits.
    pub fn ask(&mut self, start: u64) -> Result<usize, BookFault> {
        self.sent.reserve(2)?;
        let Asked { query, begun } = self.book.ask(ProgramId::new(0), start)?;
        begun.outs.append_to(&mut self.sent);
        Ok(query)
    }

    /// The same, and hears what the book gives. Whether that ends the collect.
    pub fn collect(&mut self, start: u64) -> bool {
        self.ask(start).is_ok() && self.settle()
    }

    /// How many of the first queries have the right answer. Query number n was asked from n, and counted one record in
    /// three steps.
    pub fn count_right(&self, queries: u64) -> u64 {
        let mut right: u64 = 0;
        for query in 0..queries {
            let wanted = Ran {
                acc: query + 1,
                steps: 3,
            };
            if self.answer_of(query as usize) == Some(wanted) {
                right = right.saturating_add(1);
            }
        }
        right
    }

    /// The recorded answer of a query.
    pub fn answer_of(&self, query: usize) -> Option<Ran> {
        match self.book.answer(query) {
            Ok(ran) => ran,
            Err(_) => None,
        }
    }
}
