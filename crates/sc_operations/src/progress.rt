//! What a message does to an operation, and what an operation gives at its end.

use sc_view::View;

/// What a message did to the phase in which its sender was counted.
#[derive(Drop)]
pub enum Advance {
    /// The phase goes on.
    Counted,
    /// The query phase ended. The view is stored back, and so many acknowledgements are waited for.
    Turned { threshold: u64, view: View },
    /// The operation ended.
    Ended,
}

/// A sender was counted in an operation of the node. Applied to the operation as it was, it gives the operation as
/// it is.
#[derive(Drop)]
pub struct Progress {
    /// The operation's tag.
    pub tag: u64,
    /// The node that was counted.
    pub sender: u64,
    /// What that did to the phase.
    pub advance: Advance,
}

/// What an operation gives at its end.
#[derive(Drop)]
pub enum OpResult {
    /// A store gives nothing.
    Stored,
    /// The view that was stored back.
    Returned(View),
}

/// The operation that a message ended.
#[derive(Drop)]
pub struct Ended {
    /// The operation's tag.
    pub tag: u64,
    /// What it gives.
    pub what: OpResult,
}
