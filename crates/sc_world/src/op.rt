//! The record of an operation.

ghost use Rattle.std.specs.Prelude.{◌≡◌};
ghost use Rattle.std.specs.FinSet as set;
ghost use Rattle.sc_node.specs.Sessions.{open_phase};
ghost use Rattle.sc_world.specs.Operations.{IsMeeting};
ghost use Rattle.sc_world.specs.Worlds.{end_at, moved};

use sc_members::IdSet;
use sc_node::{Advance, Progress, Session};
use std::alloc::Global;

/// The record of an operation.
#[derive(Drop)]
pub struct Op {
    /// The node whose operation it is.
    pub node: u64,
    /// The node's number of the operation, from 0.
    pub tag: u64,
    /// The place of the event that began it, in the list of accepted events.
    pub begin: usize,
    /// The place of the event that ended it.
    pub end: Option<usize>,
    /// Its kind, and for each phase the threshold and all senders that were counted.
    pub session: Session,
}

impl Op {
    /// Moves by a progress of its node at a place in the list of events. The set has all senders of the phase. Takes
    /// no memory.
    pub(crate) fn advance(
        &mut self,
        alloc: Global,
        place: usize,
        progress: Progress,
        counted: IdSet,
    )
        requires { counted ≡ set.insert (open_phase self.old.session).counted progress.sender }
        ensures { self.new ≡ moved place progress self.old }
    {
        self.end = end_at(place, &progress.advance);
        self.session.advance(alloc, progress, counted);
    }
}

/// The end of an operation that so moved at a place.
fn end_at(place: usize, advance: &Advance) -> Option<usize>
    ensures { result ≡ end_at place advance.now }
{
    match advance {
        Advance::Ended => Some(place),
        _ => None,
    }
}

/// The least id that is both among the first operation's counted acknowledgers and among the second's counted
/// repliers. Takes no memory.
pub fn meets(first: &Op, second: &Op) -> Option<u64>
    ensures { IsMeeting first.now second.now result }
{
    let back = first.session.back()?;
    let query = second.session.query()?;
    back.phase.counted.least_common(&query.counted)
}
