//! A desk: the programs and queries of one node.

ghost use Rattle.std.specs.Prelude.{◌≡◌, ℕ, Ok, Some, IfOk, IfSome, slice_get, position, option_map, IsTrue};
ghost use Rattle.sc_view.specs.Views.{ViewMap};
ghost use Rattle.sc_node.specs.Nodes.{left, store_begun, delivered};
ghost use Rattle.forms.specs.Calls.{Steps, Does, tested};
ghost use Rattle.q_session.specs.Records.{HasRecordsWithin};
ghost use Rattle.q_session.specs.declared.query.Query.{Query as QueryValue};
ghost use Rattle.q_desk.specs.State.{DeskState, new_desk};
ghost use Rattle.q_desk.specs.Desks as desk;
ghost use Rattle.reasons.specs.declared.Reason.TheVariants.{OutOfMemory as memory};
ghost use Rattle.q_desk.specs.Answers.{AnswersAreRight};
ghost use Rattle.q_desk.specs.Keeping.{IsDesk, ProgramsAreKnown, ProgramsFit, ViewsFit, EndsWithin};

use crate::answer::answer_in;
use crate::check::check_result;
use crate::completed::Completed;
use crate::entries::append;
use crate::journal::{Call, Entry};
use crate::next::next_job;
use bq_state::Bounds;
use q_session::{Done, Job, Phase, Query, Ran};
use q_table::{Program, ProgramId, Programs};
use reasons::Reason;
use sc_msg::Message;
use sc_node::{Begun, Delivered, Ended, Node, OpResult, Outs};
use sc_view::{Value, View};
use std::alloc::{AllocError, Global};
use std::marker::Model;
use std::mem;

/// The most queries of a desk.
pub const MOST_QUERIES: usize = 4096;

/// The most events of a journal: its entries, the head aside.
pub const MOST_EVENTS: usize = 65_536;

/// Why a desk refuses a call. After a refusal the desk is as it was, and so is the node that it was given. Where
/// several hold, the first of 51, 59, 52, 56, 55 and 53 is told, and then that of the node; 54 is that of a question
/// for an answer.
pub type DeskFault = Reason;

/// The programs and queries of one node, and its journal: each call that was accepted and changed something, in turn.
/// Its programs run over records of some lengths. Contracts see a desk as the record of these.
pub struct Desk {
    lengths: Bounds,
    programs: Programs,
    queries: Vec<Query>,
    journal: Vec<Entry>,
    /// How many queries run. The journal has room for the answer of each, so that no post wants memory.
    running: usize,
}

impl Drop for Desk {
    // By hand, so that it is proved here alone, and not in each crate that drops one.
    fn drop(self) {
        let Desk {
            lengths: _,
            programs: _,
            queries: _,
            journal: _,
            running: _,
        } = self;
    }
}

impl Model for Desk {
    ghost use Rattle.std.specs.Coded.{codes};
    ghost use Rattle.std.specs.Vec.{vec_len, vec_capacity};
    ghost use Rattle.sc_view.specs.Views.{view_code};
    ghost use Rattle.q_desk.specs.contracts.journal.Entry as entry;
    ghost use Rattle.q_desk.specs.State.{DeskState};
    ghost use Rattle.q_desk.specs.Keeping.{IsDesk, KeepsRoom};

    ghost Value = { DeskState };

    ghost coded = { Prim.hlevel (codes, view_code, entry.the_row.coded) };

    ghost view = { λ d. record { lengths = d.lengths; programs = d.programs; queries = d.queries.items; journal = d.journal.items } };

    ghost invariant = { λ d. IsDesk (record { lengths = d.lengths; programs = d.programs; queries = d.queries.items; journal = d.journal.items }) × KeepsRoom d.queries.items (vec_len d.journal) d.running (vec_capacity d.journal) };
}

impl Desk {
    /// A desk with no programs and no queries, of a node whose views have records of these lengths.
    pub fn new(alloc: Global, lengths: Bounds) -> Desk
        ensures { result ≡ new_desk lengths }
    {
        Desk {
            lengths,
            programs: Programs::new(alloc),
            queries: Vec::new(alloc),
            journal: Vec::new(alloc),
            running: 0,
        }
    }

    /// Whether there is room for one more entry of the journal.
    pub fn has_room(&self) -> bool
        ensures { result ≡ desk.has_room self.now }
    {
        self.journal.len() < MOST_EVENTS
    }

    /// Whether the journal has room for a post: after Ok a post that is the next call is not refused with 53. Takes no
    /// memory.
    pub fn room_for_post(&self) -> Result<(), DeskFault>
        ensures { result ≡ tested (desk.room self.now) (Ok tt) }
    {
        if self.has_room() {
            Ok(())
        } else {
            Err(DeskFault::BookFull)
        }
    }

    /// The lengths of the records that the programs run over.
    pub fn lengths(&self) -> Bounds
        ensures { result ≡ self.now.lengths }
    {
        self.lengths
    }

    /// Registers a program; a text that is there keeps its id. Refused with 59, 52, 53, 99.
    pub fn register(&mut self, program: &Program) -> Result<ProgramId, DeskFault>
        ensures { Steps memory (desk.registered self.old program.now) self.old self.new result }
    {
        if program.certified().lengths() != self.lengths {
            return Err(DeskFault::WrongBounds);
        }
        let encoded = self.programs.encoded(program)?;
        self.programs.check(&encoded)?;
        if !self.has_room() {
            return Err(DeskFault::BookFull);
        }
        self.journal.reserve(self.running + 1)?;
        let registered = program.clone()?;
        let id = self.programs.insert(encoded)?;
        let _count = self.programs.len();
        append(&mut self.journal, Entry::Call(Call::Register(registered)));
        Ok(id)
    }

    /// Whether a program has this id.
    pub fn knows(&self, program: ProgramId) -> bool
        ensures { result ≡ desk.knows self.now program }
    {
        (program.number() as usize) < self.programs.len()
    }

    /// The program with this id.
    pub fn program(&self, id: ProgramId) -> Option<&Program>
        ensures { option_map (λ p. p.now) result ≡ slice_get self.now.programs id }
    {
        self.programs.get(id)
    }

    /// The node leaves for good. Refused with 53, then as the node refuses it, with 99.
    pub fn leave(&mut self, node: &mut Node) -> Result<Outs, DeskFault>
        ensures { Steps memory (desk.noting self.old (Entry.Call Call.Leave) (left node.old)) (self.old, node.old) (self.new, node.new) result }
    {
        if !self.has_room() {
            return Err(DeskFault::BookFull);
        }
        self.journal.reserve(self.running + 1)?;
        let outs = node.leave()?;
        append(&mut self.journal, Entry::Call(Call::Leave));
        Ok(outs)
    }

    /// The node begins to store a value. Refused with 53, then as the node refuses it, with 99.
    pub fn store(&mut self, node: &mut Node, value: &Value) -> Result<Begun, DeskFault>
        ensures { Steps memory (desk.noting self.old (Entry.Call (Call.Store value.now)) (store_begun node.old value.now)) (self.old, node.old) (self.new, node.new) result }
    {
        if !self.has_room() {
            return Err(DeskFault::BookFull);
        }
        self.journal.reserve(self.running + 1)?;
        let begun = node.begin_store(value)?;
        append(&mut self.journal, Entry::Call(Call::Store(*value)));
        Ok(begun)
    }

    /// The node takes a message. What it ended is for [`Desk::end`]. Refused with 53, then as the node refuses it,
    /// with 99.
    pub fn deliver(&mut self, node: &mut Node, message: &Message) -> Result<Delivered, DeskFault>
        ensures { Steps memory (desk.noting self.old (Entry.Deliver message.now) (delivered node.old message.now)) (self.old, node.old) (self.new, node.new) result }
    {
        if !self.has_room() {
            return Err(DeskFault::BookFull);
        }
        self.journal.reserve(self.running + 1)?;
        let kept = message.clone()?;
        let delivered = node.deliver(message)?;
        append(&mut self.journal, Entry::Deliver(kept));
        Ok(delivered)
    }

    /// The node begins to collect, and a query begins that waits for that collect. Its number is answered, and the
    /// collect. Refused with 51, 53, then as the node refuses it, with 99.
    pub fn ask(
        &mut self,
        node: &mut Node,
        program: ProgramId,
        start: u64,
    ) -> Result<(usize, Begun), DeskFault>
        ensures { Steps memory (desk.asking self.old node.old program start) (self.old, node.old) (self.new, node.new) result }
    {
        if self.programs.len() <= program.number() as usize {
            return Err(DeskFault::UnknownProgram);
        }
        let number = self.queries.len();
        if MOST_QUERIES <= number {
            return Err(DeskFault::BookFull);
        }
        if !self.has_room() {
            return Err(DeskFault::BookFull);
        }
        self.queries.reserve(1)?;
        self.journal.reserve(self.running + 1)?;
        let begun = node.begin_collect()?;
        self.queries.push_reserved(Query {
            tag: begun.tag,
            program,
            start,
            phase: Phase::Collecting,
        });
        append(&mut self.journal, Entry::Call(Call::Ask { program, start }));
        Ok((number, begun))
    }

    /// The collect with this tag returned a view, whose records have the desk's lengths: the query that waits for it is
    /// ready. Its number is answered. Takes no memory.
    pub fn returned(&mut self, tag: u64, view: View) -> Option<usize>
        requires { HasRecordsWithin self.old.lengths view }
        ensures { (result, self.new) ≡ desk.returned self.old tag view }
    {
        let number = waiting(&self.queries, tag)?;
        set_phase(&mut self.queries, number, Phase::Ready(view));
        Some(number)
    }

    /// The node told of this operation that ended, or of none: the view of a collect, whose records have the desk's
    /// lengths, goes to the query that waits for it. What ended is answered. Takes no memory.
    pub fn end(&mut self, ended: Option<Ended>) -> Option<Completed>
        requires { IfSome ended (EndsWithin self.old.lengths) }
        ensures told { result ≡ desk.completed_by ended (desk.ends ended self.old).0 }
        ensures new { self.new ≡ (desk.ends ended self.old).1 }
    {
        let Ended { tag, what } = ended?;
        match what {
            OpResult::Stored => Some(Completed::Stored(tag)),
            OpResult::Returned(view) => {
                let query = self.returned(tag, view)?;
                Some(Completed::Returned(query))
            }
        }
    }

    /// Hands out the job of the ready query with the least number; none where no query is ready. Refused with 53, 99.
    pub fn hand_out(&mut self, node: u64) -> Result<Option<Job>, DeskFault>
        ensures { Steps memory (desk.handed_out self.old node) self.old self.new result }
    {
        let alloc = *self.queries.allocator();
        let Some(job) = next_job(alloc, &self.programs, &self.queries, node)? else {
            return Ok(None);
        };
        if !self.has_room() {
            return Err(DeskFault::BookFull);
        }
        self.journal.reserve(self.running + 2)?;
        run(&mut self.queries, job.query());
        self.running += 1;
        append(&mut self.journal, Entry::Call(Call::HandOut));
        Ok(Some(job))
    }

    /// The job of a query that runs, as desk of this node; none where no such query runs. The one error is that memory
    /// ran out (99 OutOfMemory).
    pub fn running_job(&self, node: u64, query: usize) -> Result<Option<Job>, AllocError>
        ensures { IfOk result (λ job. job ≡ desk.running_job self.now node query) }
    {
        let Some(asked) = self.queries.get(query) else {
            return Ok(None);
        };
        let Phase::Running(_) = &asked.phase else {
            return Ok(None);
        };
        let Some(program) = self.programs.get(asked.program) else {
            return Ok(None);
        };
        Job::of(*self.queries.allocator(), node, query, asked, program)
    }

    /// Records the result of a job as its query's answer, as desk of this node. Refused with 56, 55, 53. Takes no
    /// memory.
    pub fn post(&mut self, node: u64, done: &Done) -> Result<(), DeskFault>
        ensures { Does (desk.posted self.old node done.now.job done.now.ran) self.old self.new result }
    {
        let job = done.job();
        check_result(&self.programs, &self.queries, node, job)?;
        if !self.has_room() {
            return Err(DeskFault::BookFull);
        }
        let query = job.query();
        let ran = done.ran();
        record_answer(&mut self.queries, query, ran);
        self.running -= 1;
        append(&mut self.journal, Entry::Post { query, ran });
        Ok(())
    }

    /// The recorded answer of a query, if there is one yet. Refused with 54. Takes no memory.
    pub fn answer(&self, query: usize) -> Result<Option<Ran>, DeskFault>
        ensures { result ≡ desk.answer_of self.now query }
    {
        match self.queries.get(query) {
            Some(query) => Ok(answer_in(&query.phase)),
            None => Err(DeskFault::NoSuchQuery),
        }
    }

    /// The queries, by their numbers. Each names a program of the desk, each recorded answer is right, and each view
    /// over which a query is to run has records of the desk's lengths, for which each program was checked.
    pub fn queries(&self) -> &[Query]
        ensures queries { result.now ≡ self.now.queries }
        ensures known { ProgramsAreKnown self.now }
        ensures checked { ProgramsFit self.now.lengths self.now.programs }
        ensures fit { ViewsFit self.now.lengths self.now.queries }
        ensures right { AnswersAreRight self.now }
    {
        self.queries.as_slice()
    }

    /// The journal: each call that was accepted and changed something, in turn.
    pub fn journal(&self) -> &[Entry]
        ensures { result.now ≡ self.now.journal }
    {
        self.journal.as_slice()
    }
}

fn is_collecting(phase: &Phase) -> bool
    ensures { result ≡ desk.is_collecting phase.now }
{
    matches!(phase, Phase::Collecting)
}

// The number of the query that waits for the collect with this tag.
fn waiting(queries: &[Query], tag: u64) -> Option<usize>
    ensures { result ≡ position (desk.waits tag) queries.now }
{
    queries
        .iter()
        .position(|q| q.tag == tag && is_collecting(&q.phase))
}

fn set_phase(queries: &mut Vec<Query>, number: usize, phase: Phase)
    ensures { queries.new.items ≡ desk.with_phase queries.old.items number phase }
{
    if number < queries.len() {
        queries[number].phase = phase;
    }
}

// A ready query runs over its view.
fn run(queries: &mut Vec<Query>, number: usize)
    ensures { (q : QueryValue) (view : ViewMap) → slice_get queries.old.items number ≡ Some q → q.phase ≡ Phase.Ready view → queries.new.items ≡ desk.with_phase queries.old.items number (Phase.Running view) }
{
    if number < queries.len() {
        let phase = mem::replace(&mut queries[number].phase, Phase::Collecting);
        set_phase(queries, number, running(phase));
    }
}

// A running query is answered.
fn record_answer(queries: &mut Vec<Query>, number: usize, ran: Ran)
    ensures { (q : QueryValue) (view : ViewMap) → slice_get queries.old.items number ≡ Some q → q.phase ≡ Phase.Running view → queries.new.items ≡ desk.with_phase queries.old.items number (Phase.Answered view ran) }
{
    if number < queries.len() {
        let phase = mem::replace(&mut queries[number].phase, Phase::Collecting);
        set_phase(queries, number, answered(phase, ran));
    }
}

fn running(phase: Phase) -> Phase
    ensures { (view : ViewMap) → phase ≡ Phase.Ready view → result ≡ Phase.Running view }
{
    match phase {
        Phase::Ready(view) => Phase::Running(view),
        other => other,
    }
}

fn answered(phase: Phase, ran: Ran) -> Phase
    ensures { (view : ViewMap) → phase ≡ Phase.Running view → result ≡ Phase.Answered view ran }
{
    match phase {
        Phase::Running(view) => Phase::Answered(view, ran),
        other => other,
    }
}
