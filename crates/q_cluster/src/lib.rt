//! A cluster: the nodes of a store-collect object, each with its desk as a book, and the jobs that were handed out.
//!
//! A [`Cluster`] takes events one at a time or a list of them. Each event is taken or refused as the definitions of
//! histories say, which pin the answer, the new state and the refusal that comes first; after a refusal, 99 OutOfMemory
//! among them, the cluster is as it was. So every cluster is what some list of events made of its founders, and each
//! answer that any of its desks recorded is true: the meaning of its query's program over the view that the query's own
//! collect returned, which holds each store that ended before the collect began and that meets it.
//!
//! The books of its nodes are kept by their ids, also those of nodes that have left. A book is lent for a call, which
//! does what that book's own call does; the others are as they were, and where it is refused, all are. So no call loses
//! what another recorded (`specs/Lends`).
//!
//! Each node with its desk is the replay of its own journal, also where it has left or crashed.
//!
//! A caller, proved in `callers`: founders begin a cluster, which takes one event.
//!
//! ```rust
//! pub fn first_event(
//!     alloc: Global,
//!     config: Config,
//!     founders: &[u64],
//!     event: &ClusterEvent,
//! ) -> Result<(Cluster, ClusterStep), ClusterFault>
//!     ensures answers { IfOk result (λ r. AnswersAreTrue r.0) }
//!     ensures follows { IfOk result (λ r. (before : ClusterState)
//!         × (started version.Second config founders.now ≡ Ok before) × Follows before event.now r.1 r.0) }
//! {
//!     let mut cluster = Cluster::new(alloc, config, founders)?;
//!     let told = cluster.step(event)?;
//!     Ok((cluster, told))
//! }
//! ```
#![tactic(auto)]

mod books;
mod cluster;
pub mod worked;

pub use cluster::Cluster;
