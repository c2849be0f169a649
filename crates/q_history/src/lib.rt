//! Every history of nodes that store, collect and answer queries.
//!
//! A history is what a list of events makes of its founders. Nodes enter, leave and crash; they register programs, ask
//! queries and store values; messages that were sent are delivered, to any node, any number of times and in any order,
//! or never; jobs are handed out, and finished in any order, or never. An event that is refused is no part of a
//! history.
//!
//! A query begins with a collect of its node. When that collect ends, the view that it returned is the query's, and the
//! query's job runs its program over the records of the view. A job that is finished comes to its right answer.
//!
//! These laws of every history are proved. Each recorded answer is the meaning of the program that its query names,
//! from the query's start, over the view that the query's own collect returned; and that view holds each store that
//! ended before the collect began and that meets it. A recorded answer stays as it is. Each node with its desk is the
//! replay of its own journal: the calls that the journal names, from the node's first state, lead to this node and this
//! desk. And the world of nodes and messages is a history of a world, so that all that is true of these is true of it.
#![tactic(auto)]

mod event;
pub mod laws;

pub use event::{Answer, ClusterEvent, ClusterFault, ClusterStep, EventAnswer, Handed};
