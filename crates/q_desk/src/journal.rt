//! The calls of a node, and what its journal holds.

ghost use Rattle.std.specs.Prelude.{◌≡◌};

use q_session::Ran;
use q_table::{Program, ProgramId};
use sc_msg::Message;
use sc_view::Value;
use std::alloc::AllocError;

/// A call of a node by who uses it. All that the call needs is in it, so it can be kept, sent on and made again. What
/// reaches a node from elsewhere, a message or the result of a job, is no call.
#[derive(Drop)]
pub enum Call {
    /// The node leaves for good.
    Leave,
    /// A program is registered, also one whose text is there.
    Register(Program),
    /// A query begins, and with it a collect.
    Ask {
        /// The program of the query.
        program: ProgramId,
        /// The accumulator that it begins with.
        start: u64,
    },
    /// A store of this value begins.
    Store(Value),
    /// The job of the ready query with the least number is handed out.
    HandOut,
}

impl Clone for Call {
    ghost is_clone = { λ call copy. copy ≡ call };

    fn clone(&self) -> Result<Call, AllocError> {
        Ok(match self {
            Call::Leave => Call::Leave,
            Call::Register(program) => Call::Register(program.clone()?),
            Call::Ask { program, start } => Call::Ask {
                program: *program,
                start: *start,
            },
            Call::Store(value) => Call::Store(*value),
            Call::HandOut => Call::HandOut,
        })
    }
}

/// An entry of a node's journal: what the node accepted and was changed by.
#[derive(Drop)]
pub enum Entry {
    /// A call was made. Of a hand-out: there was a job.
    Call(Call),
    /// A message was delivered, also one that told nothing new.
    Deliver(Message),
    /// The answer of a query was recorded.
    Post { query: usize, ran: Ran },
}
