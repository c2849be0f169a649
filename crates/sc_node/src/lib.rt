//! One node of a store-collect object: what it does at each call and at each message.
//!
//! A node knows who entered, joined and left, keeps a view, and has up to 64 operations open. A store puts a value
//! into its view and waits until enough nodes acknowledged that view; a collect first asks for views, then stores
//! back what it learned and returns that. Each call answers the messages that go to all nodes, the sender included.
//! What an operation is, and how answers move it, stands in `sc_operations`.
//!
//! The definitions of every call stand in `specs/Nodes.antt`: the answer, the next state and the refusal together,
//! refusals in the order in which they are tested. Each call meets its definition by the word `Steps`: it answers
//! and leaves what is said, or refuses as is said, or was refused memory; after a refusal the node is as it was.
//! The handlers follow the CCC store-collect algorithm (Attiya, Kumari, Somani, Welch 2020).
//!
//! A node takes values of 0 to 112 bytes. Where a layer above stores values within some lengths alone, as 48 bytes for
//! the first version of messages, and delivers messages whose values are within them, each value that its nodes keep or
//! send is within them too, says [`laws`]: so all their messages have bytes in that version, and each view that a
//! collect returns has records of such lengths.
//!
//! A caller, proved in `callers`: the only founder of a cluster begins to store its first value.
//!
//! ```rust
//! pub fn first_store(alloc: Global, config: Config, id: u64, value: &Value) -> Result<(Node, Begun), NodeFault>
//!     ensures view { IfOk result (λ r. r.0.view ≡ put fin.empty id (record { number = 1; value = value.now })) }
//!     ensures sent { IfOk result (λ r. r.1.outs ≡ message_from id (Store (store_under 0 r.0.view)) ∷ []) }
//! {
//!     let mut node = Node::founder(alloc, config, id, &[id])?;
//!     let begun = node.begin_store(value)?;
//!     Ok((node, begun))
//! }
//! ```
#![tactic(auto)]

mod answer;
mod copies;
mod founders;
pub mod laws;
mod node;
mod outs;
pub mod worked;

pub use answer::{Advance, Begun, Delivered, Ended, OpResult, Progress};
pub use founders::{MOST_FOUNDERS, are_founders};
pub use node::{MOST_OPEN, MOST_OPERATIONS, Node, NodeFault};
pub use outs::Outs;
pub use sc_operations::{OperationKind, Phase, Session, StoreBack};
