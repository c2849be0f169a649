//! The operations of a node: how a store and a collect begin, and how the answers to them move and end them.
//!
//! A store begins with the view that it stores, and ends once enough nodes acknowledged it. A collect first counts
//! replies in its query phase; at enough of them it stores back what it learned, and at enough acknowledgements of that
//! it returns the view that it stored back. Each phase counts a sender once.
//!
//! The definitions stand in `specs/Sessions.antt`. The node that holds these operations, and asks and answers the
//! others, stands above in `sc_node`.
#![tactic(auto)]

mod holdings;
mod progress;
mod session;
mod sessions;

pub use holdings::{Acknowledged, Holdings};
pub use progress::{Advance, Ended, OpResult, Progress};
pub use session::{OperationKind, Phase, Session, StoreBack};
pub use sessions::Sessions;
