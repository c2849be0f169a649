//! Scripts over a cluster, each event of which is issued again where memory is refused.

use crate::refusals::again::{again, is_told, tell_change};
use crate::refusals::digest::{Journal, NODES, see};
use crate::refusals::rows::{ROWS, Row};
use q_cluster::Cluster;
use q_desk::Call;
use q_history::{ClusterEvent, ClusterFault, ClusterStep, EventAnswer};
use q_script::{CallLine, Founding, Script, ScriptLine};
use q_sim::event_of;
use q_told::{Refusal, certified_code, print_pairs, print_told};
use sc_members::Config;
use sc_view::Value;
use sc_world::Op;
use std::alloc::{AllocError, Global};
use std::io;

/// The most messages of a script.
const MESSAGES: usize = 100;

/// A cluster, and the least message that `all` has not delivered. A script's lines `deliver` stand behind its last
/// `all`, so `all` delivers to every node.
#[derive(Drop)]
struct Course {
    cluster: Cluster,
    next: usize,
}

/// The cluster that a script founds.
fn found(alloc: Global, founding: &Founding) -> Result<Cluster, Refusal> {
    let config = Config::new(founding.beta, founding.gamma)?;
    let ids = [1, 2, 3];
    let count = (founding.count as usize).min(NODES);
    Ok(Cluster::new(alloc, config, &ids[..count])?)
}

/// The event of a line that registers a program.
fn registration(rt: &HostRuntime, node: u64, code: &[u8]) -> Option<ClusterEvent> {
    match again!(rt, certified_code(rt.alloc(), code)) {
        Ok(program) => Some(ClusterEvent::Call {
            node,
            call: Call::Register(program),
        }),
        Err(_) => None,
    }
}

/// The event of a line; none where it has none of its own.
fn event(rt: &HostRuntime, line: &ScriptLine) -> Option<ClusterEvent> {
    match line {
        ScriptLine::Call(CallLine::Program { node, code }) => {
            registration(rt, *node, code.as_slice())
        }
        ScriptLine::Call(CallLine::Store { node, value }) => Some(ClusterEvent::Call {
            node: *node,
            call: Call::Store(Value::new(value.as_slice()).ok()?),
        }),
        _ => event_of(line),
    }
}

/// Takes an event, and once more where memory is refused; tells `changed` where the cluster is then not as it was.
fn step(
    rt: &HostRuntime,
    cluster: &mut Cluster,
    event: &ClusterEvent,
) -> Result<ClusterStep, ClusterFault> {
    let before = again!(rt, see(rt.alloc(), cluster)).ok();
    let first = cluster.step(event);
    let Err(fault) = first else {
        return first;
    };
    if before.is_none() || before != again!(rt, see(rt.alloc(), cluster)).ok() {
        tell_change(rt);
    }
    if is_told(rt, &fault) {
        return cluster.step(event);
    }
    first
}

/// The line of what an event tells.
fn told_line(alloc: Global, told: &EventAnswer) -> Result<String, AllocError> {
    let mut line = String::new(alloc);
    print_told(&mut line, told)?;
    Ok(line)
}

/// Prints text that was made, or that it was not made for want of memory.
fn print(rt: &HostRuntime, text: Result<String, AllocError>) -> io::Result<()> {
    match text {
        Ok(text) => rt.print(text),
        Err(_) => rt.println(Refusal::OutOfMemory),
    }
}

/// Prints what an event answers.
fn print_answer(rt: &HostRuntime, answer: Result<ClusterStep, ClusterFault>) -> io::Result<()> {
    match answer {
        Ok(ClusterStep { told, .. }) => print(rt, again!(rt, told_line(rt.alloc(), &told))),
        Err(fault) => rt.println(Refusal::Cluster(fault)),
    }
}

/// Prints the pairs of stores and collects.
fn pair_lines(alloc: Global, ops: &[Op]) -> Result<String, AllocError> {
    let mut lines = String::new(alloc);
    print_pairs(&mut lines, ops)?;
    Ok(lines)
}

/// Delivers a message to each node that is there.
fn deliver(rt: &HostRuntime, cluster: &mut Cluster, message: usize) -> io::Result<()> {
    for node in 1..4 {
        if cluster.is_live(node) {
            let event = ClusterEvent::Deliver { message, node };
            if let Err(fault) = step(rt, cluster, &event) {
                rt.println(Refusal::Cluster(fault))?;
            }
        }
    }
    Ok(())
}

/// Delivers each message that was not delivered, with those that come of it.
fn deliver_all(rt: &HostRuntime, course: &mut Course) -> io::Result<()> {
    for message in course.next..MESSAGES {
        if message >= course.cluster.sent() {
            return Ok(());
        }
        deliver(rt, &mut course.cluster, message)?;
        course.next = message + 1;
    }
    Ok(())
}

/// Prints how many events the journal of a node has.
fn print_events(rt: &HostRuntime, cluster: &Cluster, node: u64) -> io::Result<()> {
    let events = match cluster.book(node) {
        Some(book) => book.events(),
        None => 0,
    };
    println!(rt; "journal {events} events")
}

/// Takes a line, and prints what it tells.
fn take(rt: &HostRuntime, course: &mut Course, line: &ScriptLine) -> io::Result<()> {
    match line {
        ScriptLine::All { .. } => deliver_all(rt, course),
        ScriptLine::Pairs => {
            let lines = again!(rt, pair_lines(rt.alloc(), course.cluster.ops()));
            print(rt, lines)
        }
        ScriptLine::Journal { node, .. } => print_events(rt, &course.cluster, *node),
        _ => match event(rt, line) {
            Some(event) => {
                let answer = step(rt, &mut course.cluster, &event);
                print_answer(rt, answer)
            }
            None => rt.println("no event"),
        },
    }
}

/// Takes the lines of a script: the journals at its end. None where memory was refused twice.
fn take_all(
    rt: &HostRuntime,
    course: &mut Course,
    lines: &[ScriptLine],
) -> io::Result<Option<[Journal; NODES]>> {
    for line in lines {
        take(rt, course, line)?;
    }
    match again!(rt, see(rt.alloc(), &course.cluster)) {
        Ok(seen) => Ok(Some(seen.journals)),
        Err(_) => Ok(None),
    }
}

/// Runs a script: the journals at its end. None where memory was refused twice.
fn run(rt: &HostRuntime, script: &Script) -> io::Result<Option<[Journal; NODES]>> {
    match again!(rt, found(rt.alloc(), &script.founding)) {
        Ok(cluster) => {
            let mut course = Course { cluster, next: 0 };
            take_all(rt, &mut course, script.lines.as_slice())
        }
        Err(_) => Ok(None),
    }
}

/// Runs a script twice, and prints whether the journals at the end are the same.
fn run_twice(rt: &HostRuntime, title: &str, script: &Script) -> io::Result<()> {
    println!(rt; "-- {title}, event by event")?;
    let first = run(rt, script)?;
    println!(rt; "-- {title}, once more")?;
    let second = run(rt, script)?;
    if first.is_some() && first == second {
        rt.println("both have the same journals")
    } else {
        rt.println("the journals differ")
    }
}

/// Runs the script of a row.
fn run_row(rt: &HostRuntime, row: &Row) -> io::Result<()> {
    match again!(rt, Script::read(rt.alloc(), row.text)) {
        Ok(script) => run_twice(rt, row.title, &script),
        Err(_) => rt.println("no script"),
    }
}

/// Runs the scripts.
pub fn run_steps(rt: &HostRuntime) -> io::Result<()> {
    for row in &ROWS {
        run_row(rt, row)?;
    }
    Ok(())
}
