//! Whether a text's flow is legal, and its first fault.

ghost use Rattle.std.specs.Prelude.{◌≡◌, ◌<◌, IfOk, IfErr, OnOk, OnErr, ℤ};
ghost use Rattle.bq_insn.specs.Slots.{units};
ghost use Rattle.bq_flow.specs.Successors.{destination};
ghost use Rattle.bq_flow.specs.Paths.{IsLegalFlow};
ghost use Rattle.bq_flow.specs.Faults.{place_fault, flow_fault, NoFlowFault, IsFirstFlowFault, IsFlowFault};

use crate::fault::{FlowFault, FlowRule};
use crate::successors::{destination, distance_of, unit_behind};
use bq_insn::{Insn, Text};

/// What is first wrong with where a jump leads.
fn place_fault(text: &Text, unit: usize, distance: i32) -> Option<FlowRule>
    requires { unit < 4096 }
    ensures { result ≡ place_fault text.now unit (destination unit distance) }
{
    match destination(unit, distance) {
        None => Some(FlowRule::Backward),
        Some(next) => if next <= unit {
            Some(FlowRule::Backward)
        } else if text.units() <= next {
            Some(FlowRule::OutsideText)
        } else if text.at(next).is_none() {
            Some(FlowRule::IntoWide)
        } else {
            None
        },
    }
}

/// What is first wrong with the flow of an instruction.
fn flow_fault(text: &Text, unit: usize, insn: &Insn) -> Option<FlowRule>
    requires { unit < 4096 }
    ensures { result ≡ flow_fault text.now unit insn.now }
{
    if let Some(distance) = distance_of(insn) {
        if let Some(rule) = place_fault(text, unit, distance) {
            return Some(rule);
        }
    }
    match unit_behind(unit, insn) {
        Some(next) if text.units() <= next => Some(FlowRule::FallsOff),
        _ => None,
    }
}

/// The first fault of a text's flow, in rising order of the instructions.
pub(crate) fn check(text: &Text) -> Result<(), FlowFault>
    ensures legal { OnOk result (IsLegalFlow text.now) }
    ensures fault { IfErr result (IsFlowFault text.now) }
{
    for unit in 0..text.units() {
        if let Some(insn) = text.at(unit) {
            if let Some(rule) = flow_fault(text, unit, &insn) {
                return Err(FlowFault::At { unit, rule });
            }
        }
    }
    Ok(())
}
