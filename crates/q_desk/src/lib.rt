//! Desks: the programs and queries of one node, and its journal.
//!
//! A [`Desk`] registers certified programs and takes queries of them. A query collects until its collect returns a
//! view, is handed out as a job, and its answer is posted once the job was run. Each recorded answer is right: the
//! meaning of the query's program, folded over the view that its collect returned.
//!
//! Each call that is accepted and changes something puts one [`Entry`] into the desk's journal, which also holds what
//! its node did: stores, deliveries, collects and its leave. Such a call of the node is made by the desk, which is
//! given the node: the journal has room for the entry before the node acts, so both do their part, or neither. No call
//! drops or changes an earlier entry. What those who use a node tell it to do is a [`Call`], which the entry holds.
//!
//! Of its queries the one that is ready and has the least number is handed out next. The result of a job of this node
//! alone is accepted, where its query runs and the job is that query's: so a query has one answer, and whoever posts
//! the result of another job, or a second result, is refused. `specs/Queries` says what is answered, and with which of
//! the two refusals.
//!
//! Each call is exact: `specs/Desks` says what it answers and which state it leaves, or with which fault it refuses.
//! After a refusal the desk is as it was.
#![tactic(auto)]

mod answer;
mod check;
mod completed;
mod desk;
mod entries;
mod journal;
mod next;
pub mod worked;

pub use completed::Completed;
pub use desk::{Desk, DeskFault, MOST_EVENTS, MOST_QUERIES};
pub use journal::{Call, Entry};
