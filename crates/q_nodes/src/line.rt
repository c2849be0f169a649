//! The calls that the lines of a script name, one after the other.

ghost use Rattle.std.specs.Prelude.{IfErr, IfOk};
ghost use Rattle.std.specs.List.{AllZip};
ghost use Rattle.q_nodes.specs.Books.{CallIs};
ghost use Rattle.q_nodes.specs.Lines.{CallsAt, ComesTo, ComesToProgram};
ghost use Rattle.q_nodes.specs.Halts.{IsHalt};

use crate::fault::ClusterRunFault;
use crate::flight::Flight;
use crate::halt::Halt;
use crate::lock::{self, NodeCall};
use crate::outcome::Outcome;
use crate::script::is_node;
use q_held::LiveNode;
use q_outside::Transport;
use q_script::CallLine;
use q_table::ProgramId;
use q_told::certified_code;
use std::alloc::Global;
use std::sync::{Mutex, Wait};
use std::time::Clock;

/// Makes a call of a node; refused where there is no such node.
fn call_at<R: Wait>(
    rt: &R,
    locks: &[Mutex<LiveNode<'_>>],
    nodes: u64,
    node: u64,
    call: &NodeCall<'_>,
) -> Result<Outcome, Halt>
    ensures came { IfOk result (CallsAt nodes node (CallIs node call.now)) }
    ensures halt { IfErr result (IsHalt nodes) }
{
    if !is_node(nodes, node) {
        return Ok(Outcome::Refused(ClusterRunFault::no_such_node()));
    }
    // There are as many locks as nodes.
    let Some(held) = lock::lock_of(locks, node) else {
        return Err(Halt::OutOfMemory);
    };
    match lock::call(&mut held.lock(rt), node, call) {
        Some(outcome) => Ok(outcome),
        None => Err(Halt::Astray),
    }
}

/// `program NODE HEX`: the program is decoded, verified and checked before the node is looked for.
fn run_program<R: Wait>(
    rt: &R,
    alloc: Global,
    locks: &[Mutex<LiveNode<'_>>],
    nodes: u64,
    node: u64,
    code: &[u8],
) -> Result<Outcome, Halt>
    ensures came { IfOk result (ComesToProgram nodes node code.now) }
    ensures halt { IfErr result (IsHalt nodes) }
{
    match certified_code(alloc, code) {
        Ok(program) => call_at(rt, locks, nodes, node, &NodeCall::Register(&program)),
        Err(refusal) => Ok(Outcome::Refused(ClusterRunFault::Script(refusal))),
    }
}

/// Makes the call that a line names: what it came to.
fn run_line<R: Wait>(
    rt: &R,
    alloc: Global,
    locks: &[Mutex<LiveNode<'_>>],
    nodes: u64,
    line: &CallLine,
) -> Result<Outcome, Halt>
    ensures came { IfOk result (ComesTo nodes line.now) }
    ensures halt { IfErr result (IsHalt nodes) }
{
    match line {
        CallLine::Program { node, code } => {
            run_program(rt, alloc, locks, nodes, *node, code.as_slice())
        }
        CallLine::Store { node, value } => {
            call_at(rt, locks, nodes, *node, &NodeCall::Store(value.as_slice()))
        }
        CallLine::Ask {
            node,
            program,
            start,
        } => {
            let program = ProgramId::of_number(*program);
            let start = *start;
            call_at(rt, locks, nodes, *node, &NodeCall::Ask { program, start })
        }
    }
}

/// Makes the calls of the lines in turn, and waits for the end of what they begin: what each came to. Memory ran out
/// where that is refused.
pub(crate) fn run_lines<R: Wait + Clock, T: Transport + Drop>(
    rt: &R,
    alloc: Global,
    locks: &[Mutex<LiveNode<'_>>],
    nodes: u64,
    lines: &[CallLine],
    flight: &mut Flight<'_, T>,
) -> Result<Vec<Outcome>, Halt>
    ensures came { IfOk result (λ outcomes. AllZip (ComesTo nodes) lines.now outcomes.items) }
    ensures halt { IfErr result (IsHalt nodes) }
{
    let mut outcomes = Vec::new(alloc);
    for line in lines {
        let outcome = match run_line(rt, alloc, locks, nodes, line) {
            Ok(outcome) => outcome,
            Err(halt) => return Err(halt),
        };
        flight.join(rt, locks, line.node(), &outcome);
        if outcomes.push(outcome).is_err() {
            return Err(Halt::OutOfMemory);
        }
    }
    flight.await_fewer(rt, locks, 1);
    Ok(outcomes)
}
