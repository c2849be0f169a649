//! Queries and their phases.

use crate::ran::Ran;
use q_table::ProgramId;
use sc_view::View;

/// How far a query has come. The view is the one that its collect returned.
#[derive(Drop)]
pub enum Phase {
    /// Its collect has not ended.
    Collecting,
    /// It waits to be handed out.
    Ready(View),
    /// It was handed out.
    Running(View),
    /// Its answer is recorded.
    Answered(View, Ran),
}

/// A query: the program, over the view that a collect returns, from a start value.
#[derive(Drop)]
pub struct Query {
    /// The tag of its collect.
    pub tag: u64,
    /// The number of the program that it names.
    pub program: ProgramId,
    /// The accumulator before the first record.
    pub start: u64,
    /// How far it has come.
    pub phase: Phase,
}
