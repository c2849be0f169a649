//! Who has entered, joined and left a cluster, and how many answers a phase waits for (Attiya, Kumari, Somani,
//! Welch 2020).
//!
//! `IdSet` is a finite set of ids of nodes. `Facts` is what a node knows of the cluster: three such sets, of at most
//! 1,024 ids each, which only grow. `present` and `members` count who has not left. `Config` holds two fractions,
//! beta for the phases of operations and gamma for joining, made of two [`Fraction`]s as they are given, and `threshold`
//! is such a fraction of a count, rounded up and at least 1.
//!
//! Every contract speaks of the sets themselves: an addition is an insertion or a union, exactly, and a refusal leaves
//! the facts as they were. Nodes and messages stand on this crate.
#![tactic(auto)]

mod config;
mod facts;
mod ids;
pub mod worked;

pub use config::{BadFraction, Config, Fraction, threshold};
pub use facts::{Facts, FactsFault, MOST_FACTS};
pub use ids::{IdIter, IdSet};
