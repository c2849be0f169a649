//! A caller of `sc_view`.

ghost use Rattle.std.specs.Prelude.{◌≡◌, IfOk, OnOk, OnErr};
ghost use Rattle.std.specs.FinMap as fin;
ghost use Rattle.sc_view.specs.Views.{put};

use sc_view::{Stored, View, ViewFault};

/// A view learns a value of a node, and answers what it then knows of that node.
pub fn learn(view: &mut View, id: u64, stored: Stored) -> Result<Option<Stored>, ViewFault>
    ensures learned { OnOk result (view.new ≡ put view.old id stored) }
    ensures known { IfOk result (λ known. known ≡ fin.get view.new id) }
    ensures same { OnErr result (view.new ≡ view.old) }
{
    view.put(id, stored)?;
    Ok(view.get(id))
}
