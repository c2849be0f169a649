//! What the lock of a node keeps, whose threads share it: its book, the messages that wait to be sent, its seat at the
//! board of jobs, and counts of what was lost.
//!
//! Proved of what is done under a lock ([`LiveNode`]): a datagram changes nothing, or the message that its bytes spell
//! is delivered and what the book gives waits to be sent; the datagrams that change nothing are counted, by why
//! ([`LossCounts`]); each other call is one of the book, exact, and what the book gives waits too; the pump carries
//! results and jobs. The book is always the replay of its journal, since its type keeps that. [`addressee`] says for
//! whom a message is meant, and that nobody else takes anything from it.
//!
//! A node that comes back after its process ended has the book of its journal ([`LiveNode::resumed`]). Proved: the
//! messages that wait to be sent are those whose answers it still waits for. A node that left says only that it left.
//! A node that entered asks to enter until it has joined, and from then on says that it joined. Each open operation
//! asks what its phase asks, by rising tags. The jobs of the queries that run are offered at the board again, by rising
//! numbers, until the row is full.
//!
//! `q_nodes` stands on it, whose nodes are threads of one process, and so do nodes that run apart.
#![tactic(auto)]

mod addressees;
mod live_node;
mod losses;
mod resumed;
pub mod worked;

pub use addressees::{addressee, asking_operation, others_take_nothing};
pub use live_node::{LiveNode, LossReason};
pub use losses::{LossCounts, Unsent};
