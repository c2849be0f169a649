//! Nodes with sockets.

use crate::measured::{Measured, RUNS};
use anyhow::{Context, Result, bail};
use q_nodes::{
    Calls, ClusterRunFault, ClusterScript, Outcome, make_calls, open_sockets, run_over_sockets,
};
use q_outside::{Counted, UdpTransport};
use std::alloc::{AllocError, Global};
use std::net::Net;
use std::sync::Wait;
use std::thread::Threads;
use std::time::{Clock, Duration, Instant};

/// It counts the records of a view.
const COUNT: &str = "bf3000000000000007000000010000009500000000000000";

/// What is done so often at node 1.
#[derive(Clone, Copy)]
pub(crate) enum Operation {
    /// `store 1 7`.
    Store,
    /// `ask 1 0 0`, after one store.
    Ask,
}

/// Appends a line so many times.
fn repeat(script: &mut String, line: &str, count: u64) -> Result<(), AllocError> {
    for _ in 0..count {
        script.push_str(line)?;
    }
    Ok(())
}

/// A script of so many nodes, with so many operations.
fn script(alloc: Global, nodes: u64, operation: Operation, count: u64) -> Result<String> {
    let mut script = format!(in alloc; "nodes {nodes} 4/5 4/5\n")?;
    match operation {
        Operation::Store => repeat(&mut script, "store 1 7\n", count)?,
        Operation::Ask => {
            let before = format!(in alloc; "program 1 {COUNT}\nstore 1 7\n")?;
            script.push_str(before.as_str())?;
            repeat(&mut script, "ask 1 0 0\n", count)?;
        }
    }
    Ok(script)
}

/// What a script that was read says; none of these is refused.
fn read(alloc: Global, text: &str) -> Result<ClusterScript> {
    match ClusterScript::read(alloc, text) {
        Ok(script) => Ok(script),
        Err(fault) => refuse(fault),
    }
}

/// A refusal.
fn refuse<T>(fault: ClusterRunFault) -> Result<T> {
    bail!("refused: {fault}")
}

/// Whether a call at node 1 began such an operation, which has ended.
fn has_ended(calls: &Calls, operation: Operation, outcome: Outcome) -> bool {
    let Some(book) = calls.books.first() else {
        return false;
    };
    match (operation, outcome) {
        (Operation::Store, Outcome::Stored(tag)) => !book.is_open(tag),
        (Operation::Ask, Outcome::Asked(query)) => matches!(book.answer(query), Ok(Some(_))),
        _ => false,
    }
}

/// Makes the calls of a script once, so many in flight: how many such operations have ended, and how long the lines
/// took.
fn call_once<R>(
    rt: &R,
    script: &ClusterScript,
    operation: Operation,
    in_flight: u64,
    transports: Vec<UdpTransport>,
) -> Result<Measured>
where
    R: Net + Wait + Threads + Clock + Alloc<A = Global> + Sync,
{
    let in_flight = in_flight.clamp(1, 64) as usize;
    let calls = match make_calls(rt, rt.alloc(), script, in_flight, transports) {
        Ok(calls) => calls,
        Err(halt) => return refuse(halt.fault()),
    };
    let mut done: u64 = 0;
    for outcome in &calls.outcomes {
        done = done.saturating_add(u64::from(has_ended(&calls, operation, *outcome)));
    }
    Ok(Measured {
        done,
        taken: calls.taken,
    })
}

/// So many operations, so many in flight, without the start and the end of the nodes.
pub(crate) fn operations<R>(
    rt: &R,
    nodes: u64,
    operation: Operation,
    count: u64,
    in_flight: u64,
) -> Result<Measured>
where
    R: Net + Wait + Threads + Clock + Alloc<A = Global> + Sync,
{
    let text = script(rt.alloc(), nodes, operation, count)?;
    let script = read(rt.alloc(), text.as_str())?;
    let mut least: Option<Measured> = None;
    for _ in 0..RUNS {
        let transports = open_sockets(rt, rt.alloc(), nodes)?;
        let measured = call_once(rt, &script, operation, in_flight, transports)?;
        least = Some(match least {
            Some(least) => least.least(measured),
            None => measured,
        });
    }
    least.context("nothing was run")
}

/// Runs a script of so many stores as `bqview cluster` does, with the start and the end of the nodes: how many lines
/// are printed, and how long it took.
pub(crate) fn run_script<R>(rt: &R, nodes: u64, count: u64) -> Result<Measured>
where
    R: Net + Wait + Threads + Clock + Alloc<A = Global> + Sync,
{
    let text = script(rt.alloc(), nodes, Operation::Store, count)?;
    let mut printed = Counted::new(Vec::new(rt.alloc()));
    let mut notes = Vec::new(rt.alloc());
    let start = Instant::now(rt)?;
    let ending = run_over_sockets(rt, rt.alloc(), text.as_str(), &mut printed, &mut notes);
    let taken = start.elapsed(rt)?;
    let status = ending.status(true);
    if status != 0 {
        bail!("the run ended with status {status}");
    }
    let lines = printed.inner.split(|byte| *byte == b'\n').count() as u64;
    Ok(Measured {
        done: lines.saturating_sub(1),
        taken,
    })
}

/// So many nodes with nothing to do: none knows where another is, and so a store at node 1 is waited for in vain.
pub(crate) fn idle<R>(rt: &R, nodes: u64) -> Result<Measured>
where
    R: Net + Wait + Threads + Clock + Alloc<A = Global> + Sync,
{
    let text = script(rt.alloc(), nodes, Operation::Store, 1)?;
    let script = read(rt.alloc(), text.as_str())?;
    let mut transports = Vec::new(rt.alloc());
    for _ in 0..nodes {
        let patience = Duration::from_millis(50);
        transports.push(UdpTransport::open(rt, rt.alloc(), patience)?)?;
    }
    call_once(rt, &script, Operation::Store, 1, transports)
}
