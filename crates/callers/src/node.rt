//! A caller of `sc_node`.

ghost use Rattle.std.specs.Prelude.{◌≡◌, [], ◌∷◌, IfOk};
ghost use Rattle.std.specs.FinMap as fin;
ghost use Rattle.sc_view.specs.Views.{put};
ghost use Rattle.sc_msg.specs.declared.message.Body.TheVariants.{Store};
ghost use Rattle.sc_node.specs.Nodes.{message_from, store_under};

use sc_members::Config;
use sc_node::{Begun, Node, NodeFault};
use sc_view::Value;
use std::alloc::Global;

/// The only founder of a cluster stores a value. What it sends is its view with that value, the first of its own.
pub fn first_store(
    alloc: Global,
    config: Config,
    id: u64,
    value: &Value,
) -> Result<(Node, Begun), NodeFault>
    ensures view { IfOk result (λ r. r.0.view ≡ put fin.empty id (record { number = 1; value = value.now })) }
    ensures sent { IfOk result (λ r. r.1.outs ≡ message_from id (Store (store_under 0 r.0.view)) ∷ []) }
{
    let mut node = Node::founder(alloc, config, id, &[id])?;
    let begun = node.begin_store(value)?;
    Ok((node, begun))
}
