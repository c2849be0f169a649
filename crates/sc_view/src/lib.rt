//! Views of a store-collect object (Attiya, Kumari, Somani, Welch 2020): for each node the newest value that is
//! known of it.
//!
//! A `View` is a finite map from the ids of nodes to the values that they stored, each under the sequence number that
//! the storing node gave it. It holds at most 256 ids, its numbers count from 1, and its values have 0 to 112 bytes.
//! `put` and `merge` learn values: for each id the one with the larger number stays, and at equal numbers the one that
//! is there. `records` gives the entries in rising order of their ids.
//!
//! Every contract speaks of the map itself. `laws` holds what follows for all views: `merge` takes the larger number at
//! each id, the order on views is a partial order, and a merge is the least view above both. Nodes, messages and the
//! runs of programs over a collected view stand on this crate.
//!
//! A view keeps its entries in a row of chunks that it shares with its copies (`sc_chunk`, `row`). `form` says what any
//! form of a view answers, by the map alone; `sorted` is a second form, for tests.
//!
//! A caller, proved in `callers`: a view learns a value of a node, and answers what it then knows of that node.
//!
//! ```rust
//! pub fn learn(view: &mut View, id: u64, stored: Stored) -> Result<Option<Stored>, ViewFault>
//!     ensures learned { OnOk result (view.new ≡ put view.old id stored) }
//!     ensures known { IfOk result (λ known. known ≡ fin.get view.new id) }
//!     ensures same { OnErr result (view.new ≡ view.old) }
//! {
//!     view.put(id, stored)?;
//!     Ok(view.get(id))
//! }
//! ```
#![tactic(auto)]

mod chunks;
pub mod form;
pub mod laws;
mod row;
mod sorted;
mod value;
mod view;
pub mod worked;

pub use chunks::Chunks;
pub use sorted::SortedView;
pub use value::{MOST_VALUE_BYTES, VALUE_LENGTH, Value, ValueFault};
pub use view::{Entry, MOST_ENTRIES, Records, Stored, View, ViewFault};
