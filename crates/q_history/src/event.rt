//! What happens to a cluster, and what it tells.

use q_desk::{Call, Completed};
use q_session::Ran;
use q_table::ProgramId;
use reasons::Reason;
use sc_world::Sent;

/// Why an event is refused. After a refusal the cluster is as it was. Where several hold, the first of 83, 81, 82, 42,
/// 41, 51, 59, 50, 52, 56, 55, 43, 53, 48, 46, 47 is told; 44 is that of an entering, 49 the founders'.
pub type ClusterFault = Reason;

/// What happens to a cluster.
#[derive(Drop)]
pub enum ClusterEvent {
    /// A node with a new id enters.
    Enter(u64),
    /// A node stops for good, and tells nobody.
    Crash(u64),
    /// The book of a node takes a call: the node leaves for good and tells it, registers a program, is asked a query,
    /// begins to store a value, or hands out the job of its ready query with the least number, if there is one.
    Call {
        /// The node.
        node: u64,
        /// The call.
        call: Call,
    },
    /// A message that was sent, by its number, reaches a node.
    Deliver {
        message: usize,
        node: u64,
    },
    /// A job, by its number, is run, and its node records the answer.
    Finish(usize),
}

/// A job that was handed out, and its query.
#[derive(Clone, Copy, Debug, PartialEq, Eq)]
pub struct Handed {
    /// The job's number, from 0.
    pub job: usize,
    /// The number of its query at its node, from 0.
    pub query: usize,
}

/// The recorded answer of a query.
#[derive(Clone, Copy, Debug, PartialEq, Eq)]
pub struct Answer {
    /// The node at which the query was asked.
    pub node: u64,
    /// The number of the query there, from 0.
    pub query: usize,
    /// The answer, and in how many steps.
    pub ran: Ran,
}

/// What an accepted event tells, beside its messages.
#[derive(Clone, Copy, Debug, PartialEq, Eq)]
pub enum EventAnswer {
    /// A node entered.
    Entered,
    /// The node left.
    Left,
    /// The node stopped.
    Crashed,
    /// The program's id.
    Registered(ProgramId),
    /// The query's number.
    Asked(usize),
    /// The tag of the store that began.
    Stored(u64),
    /// The operation that ended.
    Delivered(Option<Completed>),
    /// The job, where a query was ready.
    HandedOut(Option<Handed>),
    /// The answer that the node recorded.
    Finished(Answer),
}

/// What an accepted event tells, and the messages that it sent.
#[derive(Clone, Copy, Debug, PartialEq, Eq)]
pub struct ClusterStep {
    /// What it tells.
    pub told: EventAnswer,
    /// The numbers of the messages that it sent.
    pub sent: Sent,
}
