//! Where the records of operations stand.

ghost use Rattle.std.specs.Prelude.{◌≡◌, ◌&&◌, nat_eq, IfOk, MatchOption};
ghost use Rattle.indexmap.specs.IndexMap.{get};
ghost use Rattle.sc_world.specs.Records.{Among, AreDistinct};
ghost use Rattle.sc_world.specs.declared.op.Op.{Op as Record};
ghost use Rattle.q_nodes.specs.Found.{AreFiled, IsOnly};

use indexmap::IndexMap;
use sc_world::Op;
use std::alloc::{AllocError, Global};

/// The place of the record of each operation in their list, by its node and its tag. So each is found at once, however
/// many there are.
#[derive(Drop)]
pub(crate) struct OpsByTag {
    by_tag: IndexMap<(u64, u64), usize>,
}

impl OpsByTag {
    /// The places of these records. The one error is that memory ran out.
    pub(crate) fn of(alloc: Global, ops: &[Op]) -> Result<OpsByTag, AllocError>
        ensures { AreDistinct ops.now → IfOk result (λ p. AreFiled ops.now (get (λ a b. nat_eq a.0 b.0 && nat_eq a.1 b.1) p.by_tag)) }
    {
        let mut by_tag = IndexMap::new(alloc);
        for (place, op) in ops.iter().enumerate() {
            by_tag.insert((op.node, op.tag), place)?;
        }
        Ok(OpsByTag { by_tag })
    }

    /// The operation of this node with this tag, among these records.
    pub(crate) fn find<'a>(&self, ops: &'a [Op], node: u64, tag: u64) -> Option<&'a Op>
        requires { AreFiled ops.now (get (λ a b. nat_eq a.0 b.0 && nat_eq a.1 b.1) self.now.by_tag) }
        ensures { MatchOption result
            ((o : Record) → Among o ops.now → o.node ≡ node → o.tag ≡ tag → ⊥)
            (λ op. IsOnly ops.now node tag op.now) }
    {
        let key = (node, tag);
        let Some(place) = self.by_tag.get(&key) else {
            return None;
        };
        let Some(op) = ops.get(*place) else {
            return None;
        };
        if op.node == node && op.tag == tag {
            Some(op)
        } else {
            None
        }
    }
}
