//! The explanation of a refusal.

ghost use Rattle.std.specs.Prelude.{IfOk};
ghost use Rattle.bq_explain.specs.Told.{IsKnown, IsTold, IsToldOfCode};

use crate::advice::{of_flow, of_rule, of_rule_at};
use crate::listing::{write_state, write_unit};
use bq_check::CheckFault;
use bq_flow::FlowRule;
use bq_insn::{DecodeFault, Text, decode};
use bq_state::{Bounds, Rule, State};
use bq_verify::state_at;
use std::alloc::{AllocError, Global};

/// What is known of the registers at a unit; none where nothing reaches it, and where the flow or a
/// unit below is refused.
fn known(
    alloc: Global,
    text: &Text,
    bounds: Bounds,
    unit: usize,
) -> Result<Option<State>, AllocError>
    ensures { IfOk result (IsKnown bounds text.now unit) }
{
    match state_at(alloc, text, bounds, unit) {
        Ok(state) => Ok(state),
        Err(CheckFault::Flow { .. } | CheckFault::Rule { .. }) => Ok(None),
        Err(_) => Err(AllocError),
    }
}

/// The words of an advice, on lines of their own.
fn write_advice(out: &mut String, advice: &str) -> Result<(), AllocError> {
    out.push_str(advice)?;
    out.push('\n')
}

/// The line of a unit of a text.
fn write_place(
    alloc: Global,
    out: &mut String,
    text: &Text,
    unit: usize,
) -> Result<(), AllocError> {
    match text.at(unit) {
        Some(insn) => write_unit(alloc, out, unit, insn),
        None => writeln!(out, "unit {unit}"),
    }
}

/// What is known of the registers at a unit, and why a rule is broken there.
fn write_rule(
    alloc: Global,
    out: &mut String,
    text: &Text,
    bounds: Bounds,
    unit: usize,
    rule: Rule,
) -> Result<(), AllocError> {
    let (Some(state), Some(insn)) = (known(alloc, text, bounds, unit)?, text.at(unit)) else {
        return write_advice(out, of_rule(rule));
    };
    out.push_str("known of the registers there (of the others nothing):\n")?;
    write_state(out, &state)?;
    write_advice(out, of_rule_at(rule, &insn, &state))
}

/// What a fault of an instruction breaks, and where.
#[derive(Clone, Copy)]
enum Broken {
    /// Legal flow, at this unit.
    Flow(usize, FlowRule),
    /// A rule of the verifier, at this unit.
    Rule(usize, Rule),
}

/// What a fault breaks, if it is of an instruction.
fn broken_by(fault: CheckFault) -> Option<Broken>
    ensures { IsTold fault result }
{
    match fault {
        CheckFault::Rule { unit, rule } => Some(Broken::Rule(unit, rule)),
        CheckFault::Flow { unit, rule } => Some(Broken::Flow(unit, rule)),
        _ => None,
    }
}

/// Why a text is refused.
fn told(alloc: Global, text: &Text, bounds: Bounds, broken: Broken) -> Result<String, AllocError> {
    let mut out = String::new(alloc);
    match broken {
        Broken::Flow(unit, rule) => {
            write_place(alloc, &mut out, text, unit)?;
            write_advice(&mut out, of_flow(rule))?;
        }
        Broken::Rule(unit, rule) => {
            write_place(alloc, &mut out, text, unit)?;
            write_rule(alloc, &mut out, text, bounds, unit, rule)?;
        }
    }
    Ok(out)
}

/// Why the verifier refuses a text for records of these lengths for this fault, in a few lines; none where the fault is
/// of no instruction. The first line is that of the unit: `unit U: ` and the instruction as assembler text.
///
/// The one error is that memory ran out (99 OutOfMemory).
pub fn explain(
    alloc: Global,
    text: &Text,
    bounds: Bounds,
    fault: CheckFault,
) -> Result<Option<String>, AllocError>
    ensures { IfOk result (IsTold fault) }
{
    match broken_by(fault) {
        Some(broken) => Ok(Some(told(alloc, text, bounds, broken)?)),
        None => Ok(None),
    }
}

/// As [`explain`], of the text that these bytes spell; none too where they spell none.
pub fn explain_code(
    alloc: Global,
    code: &[u8],
    bounds: Bounds,
    fault: CheckFault,
) -> Result<Option<String>, AllocError>
    ensures { IfOk result (IsToldOfCode code.now fault) }
{
    match decode(alloc, code) {
        Ok(text) => explain(alloc, &text, bounds, fault),
        Err(DecodeFault::OutOfMemory) => Err(AllocError),
        Err(_) => Ok(None),
    }
}
