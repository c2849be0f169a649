//! Where jobs stand. What is told is a guess that is tested, so nothing is promised of it: a wrong one would cost time
//! alone.

use indexmap::IndexMap;
use q_history::Handed;
use std::alloc::{AllocError, Global};

/// The number of the job that each node handed out for each of its queries.
#[derive(Drop)]
pub(crate) struct Jobs {
    by_query: IndexMap<(u64, usize), usize>,
}

impl Jobs {
    pub(crate) fn new(alloc: Global) -> Jobs {
        Jobs {
            by_query: IndexMap::new(alloc),
        }
    }

    /// A node handed out this job.
    pub(crate) fn add(&mut self, node: u64, handed: Handed) -> Result<(), AllocError> {
        self.by_query.insert((node, handed.query), handed.job)?;
        Ok(())
    }

    /// The number of the job that the node may have handed out for this query.
    pub(crate) fn get(&self, node: u64, query: usize) -> Option<usize> {
        self.by_query.get(&(node, query)).copied()
    }
}
