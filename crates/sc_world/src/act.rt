//! What a node that is there does at an event.

ghost use Rattle.std.specs.Prelude.{◌≡◌, None, Some};
ghost use Rattle.sc_world.specs.Acts.{Acts};
ghost use Rattle.sc_world.specs.declared.op_change.OpChange.TheVariants.{Begins};
ghost use Rattle.sc_world.specs.Worlds.{acted, leaves, stores, collects, delivers};

use crate::op_change::OpChange;
use crate::world::WorldFault;
use sc_msg::Message;
use sc_node::{Begun, Delivered, Ended, Node, Outs, Session};
use sc_view::Value;

/// What a node that is there does at an event.
#[derive(Clone, Copy)]
pub(crate) enum Act {
    Leave,
    Store(Value),
    Collect,
    /// It takes the message of that number.
    Deliver(usize),
}

/// An operation that began.
#[derive(Drop)]
pub struct BegunOp {
    /// The operation's tag.
    pub tag: u64,
    /// The operation as the node keeps it.
    pub session: Session,
}

/// What a node tells of an act.
#[derive(Drop)]
pub(crate) struct Report {
    pub(crate) outs: Outs,
    pub(crate) change: OpChange,
    pub(crate) ended: Option<Ended>,
}

/// The node acts. At Err it is as it was.
pub(crate) fn perform(node: &mut Node, act: &Act, sent: &[Message]) -> Result<Report, WorldFault>
    ensures { Acts (acted sent.now act.now node.old) node.old node.new result }
{
    match act {
        Act::Leave => leave(node),
        Act::Store(value) => store(node, value),
        Act::Collect => collect(node),
        Act::Deliver(number) => match sent.get(*number) {
            Some(message) => deliver(node, message),
            None => Err(WorldFault::NeverSent),
        },
    }
}

fn leave(node: &mut Node) -> Result<Report, WorldFault>
    ensures { Acts (leaves node.old) node.old node.new result }
{
    let outs = node.leave()?;
    Ok(Report {
        outs,
        change: OpChange::Nothing,
        ended: None,
    })
}

fn store(node: &mut Node, value: &Value) -> Result<Report, WorldFault>
    ensures { Acts (stores value.now node.old) node.old node.new result }
{
    let begun = node.begin_store(value)?;
    Ok(Report::begun(begun))
}

fn collect(node: &mut Node) -> Result<Report, WorldFault>
    ensures { Acts (collects node.old) node.old node.new result }
{
    let begun = node.begin_collect()?;
    Ok(Report::begun(begun))
}

fn deliver(node: &mut Node, message: &Message) -> Result<Report, WorldFault>
    ensures { Acts (delivers (Some message.now) node.old) node.old node.new result }
{
    let Delivered {
        outs,
        progress,
        ended,
    } = node.deliver(message)?;
    Ok(Report {
        outs,
        change: OpChange::by_message(progress),
        ended,
    })
}

impl Report {
    fn begun(begun: Begun) -> Report
        ensures { result ≡ record { outs = begun.outs; change = Begins (record { tag = begun.tag; session = begun.session }); ended = None } }
    {
        let Begun { tag, session, outs } = begun;
        Report {
            outs,
            change: OpChange::Begins(BegunOp { tag, session }),
            ended: None,
        }
    }
}
