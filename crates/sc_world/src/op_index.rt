//! Where the record of an operation stands. What is told is a guess that the ledger tests, so nothing is promised of
//! it: a wrong one would cost time alone.

use std::alloc::{AllocError, Global};
use std::collections::BTreeMap;

/// For each node the places of its operations' records, in the order in which they began: by their tags.
#[derive(Drop)]
pub(crate) struct OpIndex {
    alloc: Global,
    of_nodes: BTreeMap<u64, Vec<usize>>,
}

impl OpIndex {
    pub(crate) fn new(alloc: Global) -> OpIndex {
        OpIndex {
            alloc,
            of_nodes: BTreeMap::new(alloc),
        }
    }

    /// Makes room for one more operation of this node.
    pub(crate) fn reserve(&mut self, node: u64) -> Result<(), AllocError> {
        if let Some(places) = self.of_nodes.get_mut(&node) {
            return places.reserve(1);
        }
        let mut places = Vec::new(self.alloc);
        places.reserve(1)?;
        self.of_nodes.insert(node, places)?;
        Ok(())
    }

    /// The next operation of this node stands at this place. Takes no memory.
    pub(crate) fn push(&mut self, node: u64, place: usize) {
        if let Some(places) = self.of_nodes.get_mut(&node)
            && places.len() < places.capacity()
        {
            places.push_reserved(place);
        }
    }

    /// Where the operation of this node with this tag may stand.
    pub(crate) fn get(&self, node: u64, tag: u64) -> Option<usize> {
        let places = self.of_nodes.get(&node)?;
        let tag = usize::try_from(tag).ok()?;
        places.get(tag).copied()
    }
}
