//! What calls of a book answer.

use q_desk::Completed;
use sc_node::{Begun, Outs, Progress};

/// A query that began.
#[derive(Drop)]
pub struct Asked {
    /// The query's number, from 0.
    pub query: usize,
    /// The collect that began with it.
    pub begun: Begun,
}

/// What a delivery came to.
#[derive(Drop)]
pub struct Delivery {
    /// The messages that the node sends.
    pub outs: Outs,
    /// The operation that the message moved.
    pub progress: Option<Progress>,
    /// The operation that the message ended.
    pub completed: Option<Completed>,
}
