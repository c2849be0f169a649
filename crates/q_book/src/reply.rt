//! What a book answers to a call.

use crate::answer::Asked;
use q_session::Job;
use q_table::ProgramId;
use sc_node::{Begun, Outs};
use sc_view::Value;

/// What an accepted call answers.
#[derive(Drop)]
pub enum Reply {
    /// The node left, and sends this.
    Left(Outs),
    /// The id of the program.
    Registered(ProgramId),
    /// The query that began.
    Asked(Asked),
    /// The store of this value that began.
    Stored {
        /// The value.
        value: Value,
        /// The store.
        begun: Begun,
    },
    /// The job; none where no query is ready.
    HandedOut(Option<Job>),
}
