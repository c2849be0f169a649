//! A cluster: what each event makes of it, and what its answers are.

ghost use Rattle.std.specs.Prelude.{◌≡◌, ◌≢◌, ◌<◌, ℕ, true, List, None, Ok, Err, IfOk, IfErr, IfSome, is_some, option_copied, slice_get, length, vec_len, vec_capacity};
ghost use Rattle.sc_msg.specs.Lengths.{Fits};
ghost use Rattle.sc_world.specs.Ledgers.{recorded, numbered};
ghost use Rattle.sc_world.specs.Records.{AreRecords, AreSent};
ghost use Rattle.sc_world.specs.Regular.{IsRegular, EndsAreRecorded, EndsAreTold};
ghost use Rattle.sc_world.specs.Worlds.{IsHistory as IsWorldHistory};
ghost use Rattle.forms.specs.Calls.{Gives};
ghost use Rattle.q_session.specs.declared.ran.Ran.{Ran};
ghost use Rattle.reasons.specs.declared.Reason.TheVariants.{OutOfMemory as memory};
ghost use Rattle.q_history.specs.World.{world};
ghost use Rattle.q_history.specs.Clusters.{at, live_at, told_by, event_by, begun_by, past_by, begun_op, with_job, finished, started};
ghost use Rattle.q_book.specs.Called.{reply_outs, reply_job};
ghost use Rattle.q_history.specs.Calls.{Takes, Runs, IsHistory};
ghost use Rattle.q_history.specs.Headline.{AnswersAreTrue, AnswersStay, ViewsAreReturned};
ghost use Rattle.q_history.specs.Books.{BooksAreReplays};
ghost use Rattle.q_cluster.specs.Acts.{Doing, IsThere, MayRun, book_at};

use crate::books::{Books, found_books};
use bq_frame::Block;
use q_book::{Asked, Book, Delivery, Reply};
use q_desk::Call;
use q_history::laws::{
    every_answer_is_true, every_book_is_a_replay, every_message_fits, every_view_is_returned,
    every_world_is_a_history,
};
use q_history::{Answer, ClusterEvent, ClusterFault, ClusterStep, EventAnswer, Handed};
use q_session::{Done, Job};
use sc_members::Config;
use sc_msg::{Message, Version};
use sc_node::{Begun, Outs};
use sc_world::{BegunOp, Ledger, Op, OpChange, Sent, WorldEvent};
use std::alloc::Global;
use std::marker::Model;

/// The book of each node, all of one version, what is kept of every event, the jobs that were handed out, and the block
/// over which they are run. Contracts see all of it but the block. Some list of events made it of its founders.
pub struct Cluster {
    alloc: Global,
    version: Version,
    books: Books,
    ledger: Ledger,
    jobs: Vec<Job>,
    block: Block,
}

impl Drop for Cluster {
    // By hand, so that it is proved here alone, and not in each crate that drops one.
    fn drop(self) {
        let Cluster {
            alloc: _,
            version: _,
            books: _,
            ledger: _,
            jobs: _,
            block: _,
        } = self;
    }
}

impl Model for Cluster {
    ghost use Rattle.q_history.specs.Headline.{ClusterState};
    ghost use Rattle.q_cluster.specs.Acts.{cluster_of, IsCluster};
    ghost use Rattle.q_cluster.specs.Codes.{cluster_code};

    ghost Value = { ClusterState };

    ghost coded = { cluster_code };

    ghost view = { λ a. cluster_of a.version a.books a.ledger.past a.jobs.items };

    ghost invariant = { λ a. IsCluster a.version a.books a.ledger.past a.jobs.items };
}

impl Cluster {
    /// The cluster of these founders, before any event, with books of version 2. Their ids rise strictly and are 1 to
    /// 256, or it is refused with 49; else 99.
    pub fn new(alloc: Global, config: Config, founders: &[u64]) -> Result<Cluster, ClusterFault>
        ensures { Gives memory (started Version.Second config founders.now) result }
    {
        Cluster::new_as(alloc, Version::Second, config, founders)
    }

    /// The same with books of any version, for journals that are gathered.
    pub fn new_as(
        alloc: Global,
        version: Version,
        config: Config,
        founders: &[u64],
    ) -> Result<Cluster, ClusterFault>
        ensures { Gives memory (started version config founders.now) result }
    {
        let books = found_books(alloc, version, config, founders)?;
        let ledger = Ledger::new(alloc, config, founders)?;
        let block = Block::new(alloc)?;
        Ok(Cluster {
            alloc,
            version,
            books,
            ledger,
            jobs: Vec::new(alloc),
            block,
        })
    }

    /// Takes an event, or refuses it with the first of 83, 81, 82, 42, 41, 51, 59, 50, 52, 56, 55, 43, 53, 48, 46 and
    /// 47, with 44, or with 99; then the cluster is as it was. Whether accepted or refused, each recorded answer is
    /// true, those that were recorded before stay, and each node with its desk is the replay of its own journal.
    pub fn step(&mut self, event: &ClusterEvent) -> Result<ClusterStep, ClusterFault>
        ensures takes { Takes self.old event.now self.new result }
        ensures answers { AnswersAreTrue self.new }
        ensures views { ViewsAreReturned self.new }
        ensures books { BooksAreReplays self.new }
        ensures stay { AnswersStay self.old self.new }
    {
        self.comes_of_events();
        let stepped = self.take(event);
        self.answers_are_true();
        self.views_are_returned();
        self.books_are_replays();
        stepped
    }

    fn take(&mut self, event: &ClusterEvent) -> Result<ClusterStep, ClusterFault>
        ensures { Takes self.old event.now self.new result }
    {
        match event {
            ClusterEvent::Enter(node) => self.enter(*node),
            ClusterEvent::Crash(node) => self.crash(*node),
            ClusterEvent::Call { node, call } => self.call(*node, call),
            ClusterEvent::Deliver { message, node } => self.deliver(*message, *node),
            ClusterEvent::Finish(job) => self.finish(*job),
        }
    }

    /// Takes the events in turn, up to the first that is refused, which is answered by its place with its refusal. Each
    /// recorded answer is true, those that were recorded before stay, and each node with its desk is the replay of its
    /// own journal.
    pub fn run(&mut self, events: &[ClusterEvent]) -> Result<(), (usize, ClusterFault)>
        ensures runs { Runs self.old events.now self.new result }
        ensures answers { AnswersAreTrue self.new }
        ensures views { ViewsAreReturned self.new }
        ensures books { BooksAreReplays self.new }
        ensures stay { AnswersStay self.old self.new }
    {
        self.comes_of_events();
        let ran = self.take_all(events);
        self.answers_are_true();
        self.views_are_returned();
        self.books_are_replays();
        ran
    }

    fn take_all(&mut self, events: &[ClusterEvent]) -> Result<(), (usize, ClusterFault)>
        ensures { Runs self.old events.now self.new result }
    {
        for (place, event) in events.iter().enumerate() {
            if let Err(fault) = self.take(event) {
                return Err((place, fault));
            }
        }
        Ok(())
    }

    /// A law of every cluster, however it came about: each recorded answer is the meaning of its query's program over
    /// the view that the query's collect returned, and that view holds what was stored before.
    pub fn answers_are_true(&self)
        ensures { AnswersAreTrue self.now }
    {
        every_answer_is_true();
        let _jobs = self.jobs.len();
    }

    /// A law of every cluster: each view over which a query is to run, runs or ran is the one that its own collect
    /// returned, and that view holds what was stored before.
    pub fn views_are_returned(&self)
        ensures { ViewsAreReturned self.now }
    {
        every_view_is_returned();
        let _jobs = self.jobs.len();
    }

    /// A law of every cluster: each node with its desk is the replay of its own journal, also where the node has left
    /// or crashed.
    pub fn books_are_replays(&self)
        ensures { BooksAreReplays self.now }
    {
        every_book_is_a_replay();
        let _jobs = self.jobs.len();
    }

    /// A law of every cluster: its world is what the world's accepted events made of the founders. So all that is true
    /// of every history of a world is true of it.
    pub fn world_is_a_history(&self)
        ensures { IsWorldHistory (world self.now) }
    {
        every_world_is_a_history();
        let _jobs = self.jobs.len();
    }

    /// A law of every cluster: some list of events made it of its founders.
    pub fn comes_of_events(&self)
        ensures { IsHistory self.now }
    {
        let _jobs = self.jobs.len();
    }

    /// The version of the nodes' books.
    pub fn version(&self) -> Version
        ensures { result ≡ self.now.version }
    {
        self.version
    }

    /// The fractions that set the nodes' thresholds.
    pub fn config(&self) -> Config
        ensures { result ≡ self.now.past.config }
    {
        self.ledger.config()
    }

    /// The ids of the founders, which rise strictly.
    pub fn founders(&self) -> &[u64]
        ensures { result.now ≡ self.now.past.founders }
    {
        self.ledger.founders()
    }

    /// The book of this node, also where it has left or crashed.
    pub fn book(&self, node: u64) -> Option<&Book>
        ensures { option_copied result ≡ book_at self.now node }
    {
        self.books.get(node)
    }

    /// Whether the node of this id is there: it has neither left nor crashed.
    pub fn is_live(&self, id: u64) -> bool
        ensures { result ≡ is_some (live_at self.now id) }
    {
        match self.books.get(id) {
            Some(book) => !self.ledger.has_crashed(id) && !book.node().is_gone(),
            None => false,
        }
    }

    /// The accepted events of the world: those at which a node entered, left, crashed, began an operation or took a
    /// message. A query stands there as its collect; programs and jobs do not. `Op::begin` and `Op::end` are places in
    /// this list, which count from 0.
    pub fn events(&self) -> &[WorldEvent]
        ensures { result.now ≡ self.now.past.events }
    {
        self.ledger.events()
    }

    /// The record of each operation, in the order in which they began. The views are regular, and what the records say
    /// is true. Each message was sent by the sender that it names, so each sender that a record counts sent its answer.
    /// What the world's next event tells of an operation that ends is what its record then says, and each operation
    /// whose record ends then is told. Whether two of them meet is told by `sc_world::meets`.
    pub fn ops(&self) -> &[Op]
        ensures ops { result.now ≡ self.now.past.ops }
        ensures regular { IsRegular (world self.now) }
        ensures records { AreRecords (world self.now) }
        ensures senders { AreSent (world self.now) }
        ensures answers { EndsAreRecorded (world self.now) }
        ensures told { EndsAreTold (world self.now) }
    {
        self.ledger.ops()
    }

    /// How many messages were sent: the number of the next one.
    pub fn sent(&self) -> usize
        ensures { result ≡ length self.now.past.sent }
    {
        self.ledger.sent().len()
    }

    /// The message of that number, which counts from 0. It fits the cluster's version.
    pub fn message(&self, number: usize) -> Option<&Message>
        ensures message { option_copied result ≡ slice_get self.now.past.sent number }
        ensures values { IfSome result (λ m. Fits self.now.version m.now) }
    {
        every_message_fits();
        self.ledger.sent().get(number)
    }

    /// The job of that number, which counts from 0.
    pub fn job(&self, number: usize) -> Option<&Job>
        ensures { option_copied result ≡ slice_get self.now.jobs number }
    {
        self.jobs.get(number)
    }
}

impl Cluster {
    fn enter(&mut self, id: u64) -> Result<ClusterStep, ClusterFault>
        ensures { Takes self.old (ClusterEvent.Enter id) self.new result }
    {
        if self.books.get(id).is_some() {
            return Err(ClusterFault::IdUsed);
        }
        self.ledger.reserve(id)?;
        let (book, outs) = Book::entering_as(self.alloc, self.version, self.ledger.config(), id)?;
        self.books.insert(id, book)?;
        let sent = record_call(
            &mut self.ledger,
            Some(WorldEvent::Enter(id)),
            id,
            outs,
            None,
        );
        Ok(told(EventAnswer::Entered, sent))
    }

    fn crash(&mut self, id: u64) -> Result<ClusterStep, ClusterFault>
        ensures { Takes self.old (ClusterEvent.Crash id) self.new result }
    {
        if !self.is_live(id) {
            return Err(ClusterFault::NoSuchNode);
        }
        let sent = self.ledger.crash(id)?;
        Ok(told(EventAnswer::Crashed, sent))
    }

    fn call(&mut self, id: u64, call: &Call) -> Result<ClusterStep, ClusterFault>
        ensures { Takes self.old (ClusterEvent.Call id call.now) self.new result }
    {
        self.check_live(id)?;
        self.ledger.reserve(id)?;
        self.jobs.reserve(1)?;
        let Some(book) = self.books.get_mut(id) else {
            unreachable!()
        };
        let reply = book.call(call)?;
        Ok(note(&mut self.ledger, &mut self.jobs, id, reply))
    }

    fn deliver(&mut self, message: usize, id: u64) -> Result<ClusterStep, ClusterFault>
        ensures { Takes self.old (ClusterEvent.Deliver message id) self.new result }
    {
        self.check_live(id)?;
        self.ledger.reserve(id)?;
        let Some(taken) = self.ledger.sent().get(message) else {
            return Err(ClusterFault::NeverSent);
        };
        let ready = self.ledger.find(id, taken)?;
        let Some(book) = self.books.get_mut(id) else {
            unreachable!()
        };
        let Delivery {
            outs,
            progress,
            completed,
        } = book.deliver(taken)?;
        let event = WorldEvent::Deliver { message, node: id };
        let sent = self
            .ledger
            .record(event, id, outs, OpChange::by_message(progress), ready);
        Ok(told(EventAnswer::Delivered(completed), sent))
    }

    fn finish(&mut self, number: usize) -> Result<ClusterStep, ClusterFault>
        ensures { Takes self.old (ClusterEvent.Finish number) self.new result }
    {
        let done = Done::run(self.job_to_run(number)?, &mut self.block);
        let job = done.job();
        let node = job.node();
        let query = job.query();
        let Some(book) = self.books.get_mut(node) else {
            unreachable!()
        };
        book.post(&done)?;
        let answer = Answer {
            node,
            query,
            ran: done.ran(),
        };
        Ok(told(EventAnswer::Finished(answer), self.ledger.silent()))
    }
}

impl Cluster {
    // Whether the node of this id is there.
    fn check_live(&self, id: u64) -> Result<(), ClusterFault>
        ensures there { IfOk result (λ _. IsThere self.now id) }
        ensures absent { IfErr result (λ e. (f : Doing) → at self.now id f ≡ Err e) }
    {
        let _jobs = self.jobs.len();
        if self.is_live(id) {
            Ok(())
        } else {
            Err(ClusterFault::NoSuchNode)
        }
    }

    // A copy of the job of that number, whose node is there.
    fn job_to_run(&self, number: usize) -> Result<Job, ClusterFault>
        ensures job { IfOk result (λ j. MayRun self.now number j) }
        ensures refused { IfErr result (λ e. e ≢ memory → (ran : Ran) → finished self.now ran (slice_get self.now.jobs number) ≡ Err e) }
    {
        let Some(job) = self.jobs.get(number) else {
            return Err(ClusterFault::NoSuchJob);
        };
        self.check_live(job.node())?;
        Ok(job.clone()?)
    }
}

// What is told of a reply, as the next job comes behind these.
fn told_by(jobs: &[Job], reply: &Reply) -> EventAnswer
    ensures { result ≡ told_by jobs.now reply.now }
{
    match reply {
        Reply::Left(_) => EventAnswer::Left,
        Reply::Registered(program) => EventAnswer::Registered(*program),
        Reply::Asked(asked) => EventAnswer::Asked(asked.query),
        Reply::Stored { begun, .. } => EventAnswer::Stored(begun.tag),
        Reply::HandedOut(Some(job)) => EventAnswer::HandedOut(Some(Handed {
            job: jobs.len(),
            query: job.query(),
        })),
        Reply::HandedOut(None) => EventAnswer::HandedOut(None),
    }
}

// The event of the world that a reply of this node is, if it is one.
fn event_by(node: u64, reply: &Reply) -> Option<WorldEvent>
    ensures { result ≡ event_by node reply.now }
{
    match reply {
        Reply::Left(_) => Some(WorldEvent::Leave(node)),
        Reply::Asked(_) => Some(WorldEvent::Collect(node)),
        Reply::Stored { value, .. } => Some(WorldEvent::Store {
            node,
            value: *value,
        }),
        Reply::Registered(_) | Reply::HandedOut(_) => None,
    }
}

// Notes what this node replied, for which there is room: what it is as an event of the world, and a job that it handed
// out.
fn note(ledger: &mut Ledger, jobs: &mut Vec<Job>, node: u64, reply: Reply) -> ClusterStep
    requires ledger { ledger.old.room ≡ true }
    requires jobs { vec_len jobs.old < vec_capacity jobs.old }
    ensures told { result ≡ record { told = told_by jobs.old.items reply; sent = numbered ledger.old.past (reply_outs reply) } }
    ensures past { ledger.new.past ≡ past_by ledger.old.past node (event_by node reply) (reply_outs reply) (begun_by reply) }
    ensures jobs { jobs.new.items ≡ with_job jobs.old.items (reply_job reply) }
{
    let answer = told_by(jobs.as_slice(), &reply);
    let event = event_by(node, &reply);
    let sent = match reply {
        Reply::Left(outs) => record_call(ledger, event, node, outs, None),
        Reply::Asked(Asked { query: _, begun }) => record_begun(ledger, event, node, begun),
        Reply::Stored { value: _, begun } => record_begun(ledger, event, node, begun),
        Reply::Registered(_) => ledger.silent(),
        Reply::HandedOut(job) => {
            put_job(jobs, job);
            ledger.silent()
        }
    };
    told(answer, sent)
}

// Puts a job, if there is one, at the end, where there is room for it.
fn put_job(jobs: &mut Vec<Job>, job: Option<Job>)
    requires { vec_len jobs.old < vec_capacity jobs.old }
    ensures { jobs.new.items ≡ with_job jobs.old.items job }
{
    if let Some(job) = job {
        jobs.push_reserved(job);
    }
}

// Records the event of a node that began an operation, if it is one.
fn record_begun(ledger: &mut Ledger, event: Option<WorldEvent>, node: u64, begun: Begun) -> Sent
    requires { ledger.old.room ≡ true }
    ensures past { ledger.new.past ≡ past_by ledger.old.past node event begun.outs (begun_op begun) }
    ensures sent { result ≡ numbered ledger.old.past begun.outs }
{
    let Begun { tag, session, outs } = begun;
    record_call(ledger, event, node, outs, Some(BegunOp { tag, session }))
}

// Records an event of a node, if it is one: it may begin an operation, and moves none. The numbers of the messages.
fn record_call(
    ledger: &mut Ledger,
    event: Option<WorldEvent>,
    node: u64,
    outs: Outs,
    begun: Option<BegunOp>,
) -> Sent
    requires { ledger.old.room ≡ true }
    ensures past { ledger.new.past ≡ past_by ledger.old.past node event outs begun }
    ensures sent { result ≡ numbered ledger.old.past outs }
{
    match event {
        Some(event) => ledger.record(event, node, outs, OpChange::by_call(begun), None),
        None => Sent {
            first: ledger.sent().len(),
            count: outs.len(),
        },
    }
}

fn told(told: EventAnswer, sent: Sent) -> ClusterStep
    ensures { result ≡ record { told = told; sent = sent } }
{
    ClusterStep { told, sent }
}
