//! Deliveries, each once.

ghost use Rattle.std.specs.Prelude.{◌≡◌, OnOk, OnErr};
ghost use Rattle.std.specs.FinSet as set;

use std::alloc::{AllocError, Global};
use std::collections::BTreeSet;
use std::marker::Model;

/// A set of deliveries, each as the message's number and the node's id.
#[derive(Drop)]
pub struct Delivered {
    pairs: BTreeSet<(usize, u64)>,
}

impl Model for Delivered {
    ghost use Rattle.std.specs.FinSet as set;
    ghost use Rattle.q_sim.specs.Delivered.{Deliveries, deliveries_code};

    ghost Value = { Deliveries };

    ghost coded = { deliveries_code };

    ghost view = { λ a. set.from_list a.pairs.keys };
}

impl Delivered {
    /// No delivery.
    pub fn new(alloc: Global) -> Delivered
        ensures { result ≡ set.empty }
    {
        Delivered {
            pairs: BTreeSet::new(alloc),
        }
    }

    /// Whether this message was delivered to this node.
    pub fn contains(&self, message: usize, node: u64) -> bool
        ensures { result ≡ set.contains self.now (message, node) }
    {
        self.pairs.contains(&(message, node))
    }

    /// Puts a delivery into the set. At Err the set is as it was.
    pub fn insert(&mut self, message: usize, node: u64) -> Result<(), AllocError>
        ensures ok { OnOk result (self.new ≡ set.insert self.old (message, node)) }
        ensures err { OnErr result (self.new ≡ self.old) }
    {
        self.pairs.insert((message, node))?;
        Ok(())
    }
}
