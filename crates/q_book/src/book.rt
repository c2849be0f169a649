//! A book: a node with its desk.

ghost use Rattle.std.specs.Prelude.{◌≡◌, ◌≤◌, [], ◌∷◌, length, is_some, option_map, All, Ok, IfOk, IfSome};
ghost use Rattle.std.specs.FinMap as fin;
ghost use Rattle.sc_members.specs.Members.{IsConfig};
ghost use Rattle.sc_view.specs.Values.{is_within};
ghost use Rattle.sc_msg.specs.Values.{value_lengths};
ghost use Rattle.sc_node.specs.Nodes.{most_founders};
ghost use Rattle.forms.specs.Calls.{Steps, Gives, Does, tested};
ghost use Rattle.q_desk.specs.Desks as desk;
ghost use Rattle.q_desk.specs.Desks.{ends, completed_by};
ghost use Rattle.q_desk.specs.Answers.{AnswersAreRight};
ghost use Rattle.q_desk.specs.Keeping.{ProgramsAreKnown, EndsWithin};
ghost use Rattle.reasons.specs.declared.Reason.TheVariants as reasons;
ghost use Rattle.reasons.specs.declared.Reason.TheVariants.{OutOfMemory as memory};
ghost use Rattle.q_book.specs.Books.{present, asking, storing, taking, registered, asked, stored, delivered, left, handed_out, posted, room_for_post, founded, entered};
ghost use Rattle.q_book.specs.Called.{called};
ghost use Rattle.q_book.specs.Replays.{IsReplay, EntryFits};

use crate::answer::{Asked, Delivery};
use crate::lengths::record_lengths;
use crate::reply::Reply;
use q_desk::{Call, Desk, Entry};
use q_session::laws::records_of_values;
use q_session::{Done, Job, Ran};
use q_table::{Program, ProgramId};
use reasons::Reason;
use sc_members::Config;
use sc_msg::{Message, Version};
use sc_node::laws::delivery_keeps_lengths;
use sc_node::{Begun, Delivered, MOST_OPEN, Node, Outs};
use sc_view::Value;
use std::alloc::{AllocError, Global};
use std::marker::Model;

/// Why a book refuses a call. After a refusal the book is as it was. Where several hold, the first of 42, 41, 51, 59,
/// 50, 52, 56, 55, 43, 53, 48, 46, 47 is told; 49 is the founders' alone, 54 that of a question for an answer.
pub type BookFault = Reason;

/// A node with its desk. Contracts see it as the record of its fields. It is the replay of its journal, and its
/// programs run over records of the lengths of its version.
pub struct Book {
    version: Version,
    id: u64,
    config: Config,
    founders: Option<Vec<u64>>,
    node: Node,
    desk: Desk,
}

impl Drop for Book {
    // By hand, so that it is proved here alone, and not in each crate that drops one.
    fn drop(self) {
        let Book {
            version: _,
            id: _,
            config: _,
            founders: _,
            node: _,
            desk: _,
        } = self;
    }
}

impl Model for Book {
    ghost use Rattle.std.specs.Prelude.{option_map};
    ghost use Rattle.std.specs.Coded.{codes};
    ghost use Rattle.sc_node.specs.contracts.node.Node as node_row;
    ghost use Rattle.q_desk.specs.contracts.desk.Desk as desk_row;
    ghost use Rattle.q_book.specs.State.{BookState};
    ghost use Rattle.q_book.specs.Replays.{IsBook};

    ghost Value = { BookState };

    ghost coded = { Prim.hlevel (codes, node_row.the_row.coded, desk_row.the_row.coded) };

    ghost view = { λ b. record { version = b.version; id = b.id; config = b.config; founders = option_map (λ v. v.items) b.founders; node = b.node; desk = b.desk } };

    ghost invariant = { λ b. IsBook (record { version = b.version; id = b.id; config = b.config; founders = option_map (λ v. v.items) b.founders; node = b.node; desk = b.desk }) };
}

impl Book {
    /// The book of a founder, of version 2. The ids rise strictly, are 1 to 256, and hold this one; else it is refused
    /// with 49, or with 99.
    pub fn founder(
        alloc: Global,
        config: Config,
        id: u64,
        founders: &[u64],
    ) -> Result<Book, BookFault>
        ensures { Gives memory (founded Version.Second config id founders.now) result }
    {
        Book::founder_as(alloc, Version::Second, config, id, founders)
    }

    /// The same of any version, for replays.
    pub fn founder_as(
        alloc: Global,
        version: Version,
        config: Config,
        id: u64,
        founders: &[u64],
    ) -> Result<Book, BookFault>
        ensures { Gives memory (founded version config id founders.now) result }
    {
        let node = Node::founder(alloc, config, id, founders)?;
        let founders = Vec::from_slice(alloc, founders)?;
        Ok(Book {
            version,
            id,
            config,
            founders: Some(founders),
            node,
            desk: Desk::new(alloc, record_lengths(version)),
        })
    }

    /// The book of a node that enters a running cluster, of version 2, and what it sends. Refused with 99 alone.
    pub fn entering(alloc: Global, config: Config, id: u64) -> Result<(Book, Outs), BookFault>
        ensures { Gives memory (Ok (entered Version.Second config id)) result }
    {
        Book::entering_as(alloc, Version::Second, config, id)
    }

    /// The same of any version, for replays.
    pub fn entering_as(
        alloc: Global,
        version: Version,
        config: Config,
        id: u64,
    ) -> Result<(Book, Outs), BookFault>
        ensures { Gives memory (Ok (entered version config id)) result }
    {
        let (node, outs) = Node::entering(alloc, config, id)?;
        let book = Book {
            version,
            id,
            config,
            founders: None,
            node,
            desk: Desk::new(alloc, record_lengths(version)),
        };
        Ok((book, outs))
    }

    /// Registers a program; a text that is there keeps its id. Refused with 42, 59 where it was checked for records of
    /// other lengths than [`record_lengths`] of the book's version, 52, 53, 99.
    pub fn register(&mut self, program: &Program) -> Result<ProgramId, BookFault>
        ensures { Steps memory (registered self.old program.now) self.old self.new result }
    {
        self.check_here()?;
        let id = self.desk.register(program)?;
        Ok(id)
    }

    /// A query begins, and with it a collect. Refused with 42, 41, 51, 43, 53, 48, 99.
    pub fn ask(&mut self, program: ProgramId, start: u64) -> Result<Asked, BookFault>
        ensures { Steps memory (asked self.old program start) self.old self.new result }
    {
        self.check_asking(program)?;
        let (query, begun) = self.desk.ask(&mut self.node, program, start)?;
        Ok(Asked { query, begun })
    }

    /// Begins to store a value of these bytes. Refused with 42, 41, 50 where they are not so many as the book's version
    /// has them (48 in the first, at most 112 in the second), 43, 53, 48, 46, 99.
    pub fn store(&mut self, bytes: &[u8]) -> Result<Begun, BookFault>
        ensures { Steps memory (stored self.old bytes.now) self.old self.new result }
    {
        let value = self.check_storing(bytes)?;
        let begun = self.desk.store(&mut self.node, &value)?;
        Ok(begun)
    }

    /// Takes a message, also one that it took before, and its own. The view of a collect that ends goes to its query.
    /// Refused with 42, 50, 53, 46, 47, 99.
    pub fn deliver(&mut self, message: &Message) -> Result<Delivery, BookFault>
        ensures { Steps memory (delivered self.old message.now) self.old self.new result }
    {
        delivery_keeps_lengths();
        records_of_values();
        self.check_taking(message)?;
        let delivered = self.desk.deliver(&mut self.node, message)?;
        Ok(take(&mut self.desk, delivered))
    }

    /// Leaves for good: every later call that changes something is refused with 42. Refused with 42, 53, 47, 99.
    pub fn leave(&mut self) -> Result<Outs, BookFault>
        ensures { Steps memory (left self.old) self.old self.new result }
    {
        self.check_here()?;
        let outs = self.desk.leave(&mut self.node)?;
        Ok(outs)
    }

    /// Hands out the job of the ready query with the least number; none where no query is ready, also where the journal
    /// is full. Refused with 42, 53, 99.
    pub fn hand_out(&mut self) -> Result<Option<Job>, BookFault>
        ensures { Steps memory (handed_out self.old) self.old self.new result }
    {
        self.check_here()?;
        let job = self.desk.hand_out(self.id)?;
        Ok(job)
    }

    /// Records the result of a job as its query's answer. Refused with 42, 56, 55, 53. Takes no memory.
    pub fn post(&mut self, done: &Done) -> Result<(), BookFault>
        ensures { Does (posted self.old done.now.job done.now.ran) self.old self.new result }
    {
        self.check_here()?;
        let _job = done.job();
        self.desk.post(self.id, done)?;
        Ok(())
    }

    /// Makes a call, whichever it is: what it does is what the method of its name does.
    pub fn call(&mut self, call: &Call) -> Result<Reply, BookFault>
        ensures { Steps memory (called self.old call.now) self.old self.new result }
    {
        match call {
            Call::Leave => Ok(Reply::Left(self.leave()?)),
            Call::Register(program) => Ok(Reply::Registered(self.register(program)?)),
            Call::Ask { program, start } => Ok(Reply::Asked(self.ask(*program, *start)?)),
            Call::Store(value) => {
                let begun = self.store(value.bytes())?;
                let value = *value;
                Ok(Reply::Stored { value, begun })
            }
            Call::HandOut => Ok(Reply::HandedOut(self.hand_out()?)),
        }
    }

    /// Whether a post is refused for the node or for the journal's room, before its result is looked at: after Ok a
    /// post that is the next call is refused with none but 55 and 56. Refused with 42, 53. Takes no memory.
    pub fn room_for_post(&self) -> Result<(), BookFault>
        ensures { result ≡ room_for_post self.now }
    {
        self.check_here()?;
        self.desk.room_for_post()?;
        Ok(())
    }

    /// The recorded answer of a query, if there is one yet; also where the node has left. Refused with 54. Takes no
    /// memory.
    pub fn answer(&self, query: usize) -> Result<Option<Ran>, BookFault>
        ensures { result ≡ desk.answer_of self.now.desk query }
    {
        self.desk.answer(query)
    }

    /// The job of a query that runs; none where no such query runs. The one error is that memory ran out (99
    /// OutOfMemory).
    pub fn running_job(&self, query: usize) -> Result<Option<Job>, AllocError>
        ensures { IfOk result (λ job. job ≡ desk.running_job self.now.desk self.now.id query) }
    {
        self.desk.running_job(self.id, query)
    }

    /// The version of its journal, and of the messages that it takes.
    pub fn version(&self) -> Version
        ensures { result ≡ self.now.version }
    {
        self.version
    }

    /// The id of the node.
    pub fn id(&self) -> u64
        ensures { result ≡ self.now.id }
    {
        self.id
    }

    /// The fractions of the cluster.
    pub fn config(&self) -> Config
        ensures config { result ≡ self.now.config }
        ensures valid { IsConfig self.now.config }
    {
        let _numerator = self.config.beta_num();
        self.config
    }

    /// All founders, where the node is one: at most 256, in strictly rising order; none where it entered.
    pub fn founders(&self) -> Option<&[u64]>
        ensures founders { option_map (λ ids. ids.now) result ≡ self.now.founders }
        ensures few { IfSome result (λ ids. length ids.now ≤ most_founders) }
    {
        match &self.founders {
            Some(ids) => Some(ids.as_slice()),
            None => None,
        }
    }

    /// The node.
    pub fn node(&self) -> &Node
        ensures { result.now ≡ self.now.node }
    {
        &self.node
    }

    /// Whether the node has the operation with this tag open. Takes no memory.
    pub fn is_open(&self, tag: u64) -> bool
        ensures { result ≡ is_some (fin.get self.now.node.sessions tag) }
    {
        self.node.session(tag).is_some()
    }

    /// The desk: its programs and queries. Each query names a program of the desk, and each recorded answer is right.
    pub fn desk(&self) -> &Desk
        ensures desk { result.now ≡ self.now.desk }
        ensures known { ProgramsAreKnown self.now.desk }
        ensures right { AnswersAreRight self.now.desk }
    {
        let _queries = self.desk.queries();
        &self.desk
    }

    /// The journal: each call that was accepted and changed something, in turn. The book is its replay, and each value
    /// of its entries has a length of the book's version.
    pub fn journal(&self) -> &[Entry]
        ensures journal { result.now ≡ self.now.desk.journal }
        ensures replay { IsReplay self.now }
        ensures values { All (EntryFits self.now.version) result.now }
    {
        self.desk.journal()
    }

    /// How many entries the journal has.
    pub fn events(&self) -> usize
        ensures { result ≡ length self.now.desk.journal }
    {
        self.journal().len()
    }
}

impl Book {
    // Whether the node has not left.
    fn check_here(&self) -> Result<(), BookFault>
        ensures { result ≡ tested (present self.now) (Ok tt) }
    {
        if self.node.is_gone() {
            return Err(BookFault::Gone);
        }
        Ok(())
    }

    // Whether a query of this program may begin, as far as the book's room is not asked.
    fn check_asking(&self, program: ProgramId) -> Result<(), BookFault>
        ensures { result ≡ tested (asking self.now program) (Ok tt) }
    {
        self.check_here()?;
        if !self.node.has_joined() {
            return Err(BookFault::NotJoined);
        }
        if !self.desk.knows(program) {
            return Err(BookFault::UnknownProgram);
        }
        if MOST_OPEN <= self.node.open_operations() {
            return Err(BookFault::SessionsFull);
        }
        Ok(())
    }

    // The value of these bytes, if a store of it may begin, as far as the book's room is not asked.
    fn check_storing(&self, bytes: &[u8]) -> Result<Value, BookFault>
        ensures { result ≡ tested (storing self.now bytes.now) (Ok bytes.now) }
    {
        self.check_here()?;
        if !self.node.has_joined() {
            return Err(BookFault::NotJoined);
        }
        let value = fitting_value(self.version, bytes)?;
        if MOST_OPEN <= self.node.open_operations() {
            return Err(BookFault::SessionsFull);
        }
        Ok(value)
    }

    // Whether a message may be taken, as far as the book's room is not asked.
    fn check_taking(&self, message: &Message) -> Result<(), BookFault>
        ensures { result ≡ tested (taking self.now message.now) (Ok tt) }
    {
        self.check_here()?;
        if !message.fits(self.version) {
            return Err(BookFault::BadValue);
        }
        Ok(())
    }
}

// The value of these bytes, if they are so many as values of that version are.
fn fitting_value(version: Version, bytes: &[u8]) -> Result<Value, BookFault>
    ensures { result ≡ tested ((is_within (length bytes.now) (value_lengths version), reasons.BadValue) ∷ []) (Ok bytes.now) }
{
    match Value::new(bytes) {
        Ok(value) if version.has_length(bytes.len()) => Ok(value),
        _ => Err(BookFault::BadValue),
    }
}

// What is told of a message that the node took; the view of a collect that ended goes to its query.
fn take(desk: &mut Desk, delivered: Delivered) -> Delivery
    requires { IfSome delivered.ended (EndsWithin desk.old.lengths) }
    ensures told { result ≡ record { outs = delivered.outs; progress = delivered.progress; completed = completed_by delivered.ended (ends delivered.ended desk.old).0 } }
    ensures new { desk.new ≡ (ends delivered.ended desk.old).1 }
{
    let Delivered {
        outs,
        progress,
        ended,
    } = delivered;
    let completed = desk.end(ended);
    Delivery {
        outs,
        progress,
        completed,
    }
}
