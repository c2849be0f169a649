//! Rounds over the books: which of them goes on next.

ghost use Rattle.std.specs.Prelude.{◌≡◌, ◌+◌, ◌<◌, ◌≤◌, ℕ, true, nat_eq, [], length, IfOk, OnOk, IfErr};
ghost use Rattle.std.specs.List.{list_any};
ghost use Rattle.q_gather.specs.Numbers.{AreNumbers};
ghost use Rattle.q_gather.specs.Gathering.{Finds, IsNextAmong, IsNextWithin, AreIdle, AreWaiting, IsGathering, IsMerged, IsStuck};

use crate::fault::GatherFault;
use crate::gathering::Gathering;
use q_book::Book;
use q_history::ClusterEvent;
use std::alloc::{AllocError, Global};
use std::collections::HashSet;

/// The places of the books that were found waiting since so many messages had been sent, and where the next round
/// begins: at the book that went last.
#[derive(Drop)]
pub(crate) struct Rounds {
    waiting: HashSet<usize>,
    sent: usize,
    first: usize,
}

/// Takes events of the books, until none can go on. Refused with 82 where some are left.
pub(crate) fn take_all(
    alloc: Global,
    gathering: &mut Gathering,
    books: &[Book],
) -> Result<(), GatherFault>
    requires { IsGathering books.now gathering.old.cluster gathering.old.numbers }
    ensures ok { OnOk result (IsMerged books.now gathering.new.cluster) }
    ensures err { IfErr result (IsStuck books.now) }
{
    let mut rounds = Rounds::new(alloc);
    while let Some(event) = rounds.next(gathering, books)? {
        gathering.take(&event)?;
    }
    if !gathering.have_taken(books) {
        return Err(GatherFault::NeverSent);
    }
    Ok(())
}

impl Rounds {
    /// No book waits.
    fn new(alloc: Global) -> Rounds
        ensures { result.waiting.keys ≡ [] }
    {
        Rounds {
            waiting: HashSet::new(alloc),
            sent: 0,
            first: 0,
        }
    }

    /// The event of the next book that can go on: of the one that went last, or of the first behind it, in a round over
    /// all. A book that waits is not looked at until more was sent.
    fn next(
        &mut self,
        gathering: &Gathering,
        books: &[Book],
    ) -> Result<Option<ClusterEvent>, AllocError>
        ensures next { AreNumbers gathering.now.cluster.past.sent gathering.now.numbers → AreWaiting gathering.now.cluster books.now self.old → IfOk result (Finds (IsNextAmong gathering.now.cluster books.now)) }
        ensures waiting { AreNumbers gathering.now.cluster.past.sent gathering.now.numbers → AreWaiting gathering.now.cluster books.now self.old → OnOk result (AreIdle gathering.now.cluster books.now self.new.waiting.keys) }
        ensures sent { self.new.sent ≡ length gathering.now.cluster.past.sent }
    {
        self.wake(gathering.sent());
        let first = self.first.min(books.len());
        if let Some(event) = self.next_within(gathering, books, first, books.len())? {
            return Ok(Some(event));
        }
        self.next_within(gathering, books, 0, first)
    }

    /// Where more was sent by now, no book waits.
    fn wake(&mut self, sent: usize)
        ensures sent { self.new.sent ≡ sent }
        ensures waiting { (k : ℕ) → list_any (nat_eq k) self.new.waiting.keys ≡ true → (sent ≡ self.old.sent) × (list_any (nat_eq k) self.old.waiting.keys ≡ true) }
    {
        if self.sent == sent {
            return;
        }
        self.sent = sent;
        self.waiting.clear();
    }

    /// The event of the first book from one place up to another that can go on.
    fn next_within(
        &mut self,
        gathering: &Gathering,
        books: &[Book],
        first: usize,
        end: usize,
    ) -> Result<Option<ClusterEvent>, AllocError>
        requires { end ≤ length books.now }
        ensures next { AreNumbers gathering.now.cluster.past.sent gathering.now.numbers → AreIdle gathering.now.cluster books.now self.old.waiting.keys → IfOk result (IsNextWithin gathering.now.cluster books.now first end) }
        ensures waiting { AreNumbers gathering.now.cluster.past.sent gathering.now.numbers → AreIdle gathering.now.cluster books.now self.old.waiting.keys → OnOk result (AreIdle gathering.now.cluster books.now self.new.waiting.keys) }
        ensures sent { self.new.sent ≡ self.old.sent }
    {
        for place in first..end {
            if let Some(event) = self.next_at(gathering, books, place)? {
                return Ok(Some(event));
            }
        }
        Ok(None)
    }

    /// The event by which the book at this place goes on. Where it cannot, it waits.
    fn next_at(
        &mut self,
        gathering: &Gathering,
        books: &[Book],
        place: usize,
    ) -> Result<Option<ClusterEvent>, AllocError>
        requires { place < length books.now }
        ensures next { AreNumbers gathering.now.cluster.past.sent gathering.now.numbers → AreIdle gathering.now.cluster books.now self.old.waiting.keys → IfOk result (IsNextWithin gathering.now.cluster books.now place (place + 1)) }
        ensures waiting { AreNumbers gathering.now.cluster.past.sent gathering.now.numbers → AreIdle gathering.now.cluster books.now self.old.waiting.keys → OnOk result (AreIdle gathering.now.cluster books.now self.new.waiting.keys) }
        ensures sent { self.new.sent ≡ self.old.sent }
    {
        if self.waiting.contains(&place) {
            return Ok(None);
        }
        match gathering.next_of(&books[place])? {
            Some(event) => {
                self.first = place;
                Ok(Some(event))
            }
            None => {
                self.waiting.insert(place)?;
                Ok(None)
            }
        }
    }
}
