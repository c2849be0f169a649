//! Queries of one node, their jobs, and what a job comes to.
//!
//! A certified program runs over the records of a view in rising order of ids, over raw memory and without tests:
//! [`run_fold`]. The result is the meaning of its text folded over these records from the start value, the same at
//! every placement, in at most the longest path for each record. [`fold_checked`] has the same by the machine that
//! tests every access, for tests to compare with. A job that was run holds its right answer: [`Done`]. No run takes
//! memory.
//!
//! [`is_job_of`] tells whether a job is that of a query. It compares the program, the start value and the view, and not
//! only their numbers: a right answer of such a job is a right answer of the query.
//!
//! `specs/Records` says which bytes a record has, `specs/Folds` what a fold comes to, `specs/Right` when an answer is
//! right, `specs/Same` when two views and two programs are the same.
#![tactic(auto)]

mod done;
mod fold;
mod job;
pub mod laws;
mod query;
mod ran;
mod run;
mod same;
mod shared_view;
mod view_fold;
pub mod worked;

pub use done::Done;
pub use fold::fold_checked;
pub use job::Job;
pub use query::{Phase, Query};
pub use ran::Ran;
pub use run::run_fold;
pub use same::is_job_of;
pub use shared_view::SharedView;
