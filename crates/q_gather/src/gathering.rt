//! Books on their way into a cluster.

ghost use Rattle.std.specs.Prelude.{◌≡◌, ◌++◌, List, [], length, take, IfOk, OnOk, IfSome, MatchBool};
ghost use Rattle.sc_msg.specs.declared.message.Message.{Message};
ghost use Rattle.q_history.specs.declared.event.ClusterStep.{ClusterStep};
ghost use Rattle.q_history.specs.Calls.{Follows};
ghost use Rattle.q_gather.specs.Numbers.{AreNumbers};
ghost use Rattle.q_gather.specs.Turns.{IsEventOf, IsJobFor};
ghost use Rattle.q_gather.specs.Gathering.{Finds, IsNextOf, HasTaken, HaveTaken};

use crate::jobs::Jobs;
use crate::laws::numbers_are_least;
use crate::message_numbers::MessageNumbers;
use q_book::Book;
use q_cluster::Cluster;
use q_desk::Entry;
use q_history::{ClusterEvent, EventAnswer};
use std::alloc::{AllocError, Global};

/// The cluster of what was gathered so far, the number of each message that was sent in it, and where its jobs stand.
#[derive(Drop)]
pub(crate) struct Gathering {
    cluster: Cluster,
    numbers: MessageNumbers,
    jobs: Jobs,
}

impl Gathering {
    /// Nothing is gathered yet into this cluster.
    pub(crate) fn new(alloc: Global, cluster: Cluster) -> Gathering
        ensures cluster { result.cluster ≡ cluster }
        ensures numbers { result.numbers ≡ [] }
    {
        Gathering {
            cluster,
            numbers: MessageNumbers::new(alloc),
            jobs: Jobs::new(alloc),
        }
    }

    pub(crate) fn into_cluster(self) -> Cluster
        ensures { result ≡ self.cluster }
    {
        let Gathering {
            cluster,
            numbers: _,
            jobs: _,
        } = self;
        cluster
    }

    /// How many messages were sent.
    pub(crate) fn sent(&self) -> usize
        ensures { result ≡ length self.now.cluster.past.sent }
    {
        self.cluster.sent()
    }

    /// Takes an event, and gives the messages that it sends their numbers.
    pub(crate) fn take(&mut self, event: &ClusterEvent) -> Result<(), AllocError>
        ensures event { OnOk result ((told : ClusterStep) × Follows self.old.cluster event.now told self.new.cluster) }
        ensures numbers { (outs : List Message) → AreNumbers self.old.cluster.past.sent self.old.numbers → self.new.cluster.past.sent ≡ self.old.cluster.past.sent ++ outs → OnOk result (AreNumbers self.new.cluster.past.sent self.new.numbers) }
    {
        let before = self.cluster.sent();
        // An event that can go is refused for want of memory alone.
        let Ok(stepped) = self.cluster.step(event) else {
            return Err(AllocError);
        };
        keep_job(&mut self.jobs, event, stepped.told)?;
        number_from(&self.cluster, &mut self.numbers, before)
    }

    /// The event by which the node of a book goes on, where it can: it enters, or takes its next entry.
    pub(crate) fn next_of(&self, book: &Book) -> Result<Option<ClusterEvent>, AllocError>
        ensures { AreNumbers self.now.cluster.past.sent self.now.numbers → IfOk result (Finds (IsNextOf self.now.cluster book.now)) }
    {
        let id = book.id();
        let Some(now) = self.cluster.book(id) else {
            return Ok(Some(ClusterEvent::Enter(id)));
        };
        match book.journal().get(now.events()) {
            Some(entry) => self.event_of(id, entry),
            None => Ok(None),
        }
    }

    /// The entry as an event of this node, where the message that it delivers was sent.
    fn event_of(&self, node: u64, entry: &Entry) -> Result<Option<ClusterEvent>, AllocError>
        ensures { AreNumbers self.now.cluster.past.sent self.now.numbers → IfOk result (Finds (IsEventOf self.now.cluster node entry.now)) }
    {
        let event = match entry {
            Entry::Call(call) => ClusterEvent::Call {
                node,
                call: call.clone()?,
            },
            Entry::Deliver(message) => {
                let Some(message) = self.numbers.find(message)? else {
                    return Ok(None);
                };
                ClusterEvent::Deliver { message, node }
            }
            Entry::Post { query, .. } => {
                let Some(job) = self.job_for(node, *query)? else {
                    return Ok(None);
                };
                ClusterEvent::Finish(job)
            }
        };
        Ok(Some(event))
    }

    /// The number of the job that this node handed out for this query.
    fn job_for(&self, node: u64, query: usize) -> Result<Option<usize>, AllocError>
        ensures { IfOk result (Finds (IsJobFor self.now.cluster.jobs node query)) }
    {
        match self.kept_job_for(node, query) {
            Some(number) => Ok(Some(number)),
            None => self.first_job_for(node, query),
        }
    }

    /// The number that was kept, where it is that of such a job.
    fn kept_job_for(&self, node: u64, query: usize) -> Option<usize>
        ensures { IfSome result (IsJobFor self.now.cluster.jobs node query) }
    {
        let number = self.jobs.get(node, query)?;
        let job = self.cluster.job(number)?;
        if job.node() == node && job.query() == query {
            Some(number)
        } else {
            None
        }
    }

    /// The first such number.
    fn first_job_for(&self, node: u64, query: usize) -> Result<Option<usize>, AllocError>
        ensures { IfOk result (Finds (IsJobFor self.now.cluster.jobs node query)) }
    {
        for number in 0..usize::MAX {
            let Some(job) = self.cluster.job(number) else {
                return Ok(None);
            };
            if job.node() == node && job.query() == query {
                return Ok(Some(number));
            }
        }
        Err(AllocError)
    }

    /// Whether the nodes have taken all entries of their books.
    pub(crate) fn have_taken(&self, books: &[Book]) -> bool
        ensures { MatchBool result (HaveTaken self.now.cluster books.now) (HaveTaken self.now.cluster books.now → ⊥) }
    {
        for book in books {
            if !self.has_taken(book) {
                return false;
            }
        }
        true
    }

    fn has_taken(&self, book: &Book) -> bool
        ensures { MatchBool result (HasTaken self.now.cluster book.now) (HasTaken self.now.cluster book.now → ⊥) }
    {
        match self.cluster.book(book.id()) {
            Some(now) => now.events() == book.events(),
            None => false,
        }
    }
}

/// Keeps where the job stands that this event handed out.
fn keep_job(jobs: &mut Jobs, event: &ClusterEvent, told: EventAnswer) -> Result<(), AllocError> {
    if let ClusterEvent::Call { node, .. } = event
        && let EventAnswer::HandedOut(Some(handed)) = told
    {
        jobs.add(*node, handed)?;
    }
    Ok(())
}

/// Gives the messages from this number on their numbers.
fn number_from(
    cluster: &Cluster,
    numbers: &mut MessageNumbers,
    first: usize,
) -> Result<(), AllocError>
    ensures { AreNumbers (take first cluster.now.past.sent) numbers.old → OnOk result (AreNumbers cluster.now.past.sent numbers.new) }
{
    numbers_are_least();
    for number in first..cluster.sent() {
        let Some(message) = cluster.message(number) else {
            return Err(AllocError);
        };
        numbers.add(message, number)?;
    }
    Ok(())
}
