//! One step of a machine.

ghost use Rattle.std.specs.Prelude.{◌≡◌, ◌<◌, IfSome};
ghost use Rattle.bq_insn.specs.Slots.{insn_at};
ghost use Rattle.bq_meaning.specs.Meaning.{step};
ghost use Rattle.bq_meaning.specs.Runs.{StepAnswers};

use crate::fault::Fault;
use crate::machine::Machine;
use crate::placement::Placement;
use bq_insn::{Insn, Text};

/// What a step gives.
#[derive(Clone, Copy, Debug, PartialEq, Eq, Drop)]
pub enum Step {
    /// The machine goes on.
    Continues,
    /// An exit, with r0.
    Ends(u64),
}

/// The instruction that begins at a unit.
fn insn_at(text: &Text, unit: u64) -> Option<Insn>
    ensures value { result ≡ insn_at text.now unit }
    ensures within { IfSome result (λ _. unit < 4096) }
{
    let unit = unit as usize;
    if unit < text.units() {
        text.at(unit)
    } else {
        None
    }
}

/// One step of a machine (RFC 9669, sections 4 and 5), or the least of the faults 91 to 95 that stands in its way.
/// At a fault and at an exit the machine is as it was.
pub fn step_checked(
    text: &Text,
    placement: &Placement,
    machine: &mut Machine<'_>,
) -> Result<Step, Fault>
    ensures { StepAnswers (step placement.now text.now machine.old) machine.old result machine.new }
{
    match insn_at(text, machine.unit) {
        Some(insn) => machine.perform(placement, &insn),
        None => Err(Fault::BadPlace),
    }
}
