//! Scripts as lists of events.

use crate::program::program as certified;
use q_cluster::Cluster;
use q_desk::Call;
use q_history::ClusterEvent;
use q_script::{CallLine, Founding, Script, ScriptLine};
use q_sim::event_of;
use sc_members::Config;
use sc_msg::Version;
use sc_view::Value;
use std::alloc::Global;

/// The event of a line, at nodes of this version; none where it is a line of no event.
fn event(alloc: Global, version: Version, line: &ScriptLine) -> Option<ClusterEvent> {
    match line {
        ScriptLine::Call(CallLine::Program { node, code }) => Some(ClusterEvent::Call {
            node: *node,
            call: Call::Register(certified(alloc, version, code.as_slice())?),
        }),
        ScriptLine::Call(CallLine::Store { node, value }) => Some(ClusterEvent::Call {
            node: *node,
            call: Call::Store(Value::new(value.as_slice()).ok()?),
        }),
        _ => event_of(line),
    }
}

/// The events of a script, at nodes of this version; none where one of its lines is of no event.
fn events(alloc: Global, version: Version, script: &Script) -> Option<Vec<ClusterEvent>> {
    let mut events = Vec::new(alloc);
    for line in script.lines.iter() {
        if events.push(event(alloc, version, line)?).is_err() {
            return None;
        }
    }
    Some(events)
}

/// The cluster of the founders, of this version. It is held in a box, since a proof writes out the drop of what is held
/// by value.
fn founded(alloc: Global, version: Version, founding: &Founding) -> Option<Box<Cluster>> {
    let config = Config::new(founding.beta, founding.gamma).ok()?;
    let ids: Vec<u64> = (1..=founding.count).collect(alloc).ok()?;
    let cluster = Cluster::new_as(alloc, version, config, ids.as_slice()).ok()?;
    Box::new(alloc, cluster).ok()
}

/// How the run of a list of events ends.
#[derive(Clone, Copy)]
pub enum EventsEnding {
    All,
    /// The event at this place was refused with this number.
    Refused(usize, u8),
    /// There is no list, no cluster, or no memory.
    Nothing,
}

/// Runs a list of events over a cluster.
fn run_events(cluster: &mut Cluster, events: &[ClusterEvent]) -> EventsEnding {
    match cluster.run(events) {
        Ok(()) => EventsEnding::All,
        Err((place, reason)) => EventsEnding::Refused(place, reason.number()),
    }
}

/// Runs a script's events over a cluster of its founders, of this version, which is put into `made`.
fn run_script(
    alloc: Global,
    version: Version,
    script: &Script,
    made: &mut Option<Box<Cluster>>,
) -> EventsEnding {
    *made = founded(alloc, version, &script.founding);
    match (made, events(alloc, version, script)) {
        (Some(cluster), Some(events)) => run_events(cluster, events.as_slice()),
        _ => EventsEnding::Nothing,
    }
}

/// The same of the script that a text spells.
pub fn run(
    alloc: Global,
    version: Version,
    text: &str,
    made: &mut Option<Box<Cluster>>,
) -> EventsEnding {
    match Script::read(alloc, text) {
        Ok(script) => run_script(alloc, version, &script, made),
        Err(_) => EventsEnding::Nothing,
    }
}
