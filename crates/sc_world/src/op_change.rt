//! What an event does to the operations of the node that takes it.

ghost use Rattle.std.specs.Prelude.{◌≡◌, None};
ghost use Rattle.sc_world.specs.Acts.{begun_in, progress_in};

use crate::act::BegunOp;
use sc_node::Progress;

/// What an event does to the operations of the node that takes it.
#[derive(Drop)]
pub enum OpChange {
    /// None begins, goes on or ends.
    Nothing,
    /// A call begins one.
    Begins(BegunOp),
    /// A message moves one on, or ends it.
    Moves(Progress),
}

impl OpChange {
    /// What a call does: it may begin an operation, and moves none.
    pub fn by_call(begun: Option<BegunOp>) -> OpChange
        ensures begun { begun_in result ≡ begun }
        ensures moves { progress_in result ≡ None }
    {
        match begun {
            Some(begun) => OpChange::Begins(begun),
            None => OpChange::Nothing,
        }
    }

    /// What a message does: it may move an operation, and begins none.
    pub fn by_message(progress: Option<Progress>) -> OpChange
        ensures moves { progress_in result ≡ progress }
        ensures begun { begun_in result ≡ None }
    {
        match progress {
            Some(progress) => OpChange::Moves(progress),
            None => OpChange::Nothing,
        }
    }
}
