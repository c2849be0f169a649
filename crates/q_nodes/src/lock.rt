//! What is done and seen under the lock of a node, which the caller takes once for each call.
//!
//! A call names the node whose book it means, and says what it found of some book of that node which is the replay of
//! its journal: which one it was no clause can say, since other threads go on. Where the lock keeps the book of another
//! node no call is made. It never does, but no contract of a lock says so.

ghost use Rattle.std.specs.Prelude.{MatchOption};
ghost use Rattle.q_book.specs.State.{BookState};
ghost use Rattle.q_nodes.specs.Books.{CallIs};
ghost use Rattle.q_book.specs.Replays.{IsOther};

use crate::fault::ClusterRunFault;
use crate::outcome::Outcome;
use q_book::is_of;
use q_held::LiveNode;
use q_table::{Program, ProgramId};
use std::sync::Mutex;

/// A call that a line of a script makes of a node.
#[derive(Clone, Copy)]
pub(crate) enum NodeCall<'a> {
    /// To register a program.
    Register(&'a Program),
    /// To store a value of these bytes.
    Store(&'a [u8]),
    /// To begin a query.
    Ask {
        /// The program that it asks for.
        program: ProgramId,
        /// The number that the fold starts from.
        start: u64,
    },
}

/// The lock of this node, which is counted from 1.
pub(crate) fn lock_of<'s, 'b>(
    locks: &'s [Mutex<LiveNode<'b>>],
    node: u64,
) -> Option<&'s Mutex<LiveNode<'b>>> {
    let place = node.checked_sub(1)?;
    locks.get(place as usize)
}

/// Makes a call of the book of the node.
pub(crate) fn call(held: &mut LiveNode<'_>, node: u64, call: &NodeCall<'_>) -> Option<Outcome>
    ensures { MatchOption result ((b : BookState) × IsOther node b) (CallIs node call.now) }
{
    if !is_of(&held.book, node) {
        return None;
    }
    match call {
        NodeCall::Register(program) => match held.book.register(program) {
            Ok(id) => Some(Outcome::Registered(id)),
            Err(fault) => Some(Outcome::Refused(ClusterRunFault::from(fault))),
        },
        NodeCall::Store(value) => match held.store(value) {
            Ok(tag) => Some(Outcome::Stored(tag)),
            Err(fault) => Some(Outcome::Refused(ClusterRunFault::from(fault))),
        },
        NodeCall::Ask { program, start } => match held.ask(*program, *start) {
            Ok(query) => Some(Outcome::Asked(query)),
            Err(fault) => Some(Outcome::Refused(ClusterRunFault::from(fault))),
        },
    }
}
