//! Every history of a store-collect object: its nodes, the messages that were ever sent, the list of accepted events
//! and the record of each operation.
//!
//! A message that was sent may be delivered to any node that is there, any number of times and in any order; nodes
//! enter, leave and crash. Whatever the list of events is, the views that collects return are regular: each holds
//! only what nodes began to store before, each store that ended before the collect began and that meets it, and at
//! least what an earlier collect that it meets had returned.
//!
//! Nothing is said of whether the phases of two operations meet while nodes come and go. But where all senders that two
//! ended phases counted are of one set of members, and each phase waited for the same fraction of them, above a half, a
//! node was counted in both, so [`meets`] answers one: a law says so.
#![tactic(auto)]

mod act;
mod counting;
mod event;
pub mod laws;
mod ledger;
mod nodes;
mod op;
mod op_change;
mod op_index;
pub mod worked;
mod world;

pub use act::BegunOp;
pub use counting::Counting;
pub use event::{Sent, WorldEvent, WorldStep};
pub use ledger::Ledger;
pub use op::{Op, meets};
pub use op_change::OpChange;
pub use world::{World, WorldFault};
