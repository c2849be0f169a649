//! Where control may go from an instruction (RFC 9669, section 4.3).

ghost use Rattle.std.specs.Prelude.{◌≡◌, ◌<◌, ◌++◌};
ghost use Rattle.bq_flow.specs.Successors.{distance_of, destination, unit_of};
ghost use Rattle.bq_flow.specs.Paths.{IsLegalFlow};
ghost use Rattle.bq_flow.specs.Flow.{unit_behind, unit_jumped_to, place_of, successors_at, places, AreNext};

use bq_insn::{Insn, Text};

/// The units where control may be after an instruction. Where there are two, the first is the unit
/// behind the instruction and the second is where its jump leads.
#[derive(Clone, Copy, Debug, PartialEq, Eq)]
pub enum Successors {
    /// None: the instruction ends the program, or no instruction begins at the unit.
    None,
    /// One: control goes on behind the instruction, or always jumps.
    One(usize),
    /// Two, which may be equal: a conditional jump.
    Two(usize, usize),
}

/// The unit behind an instruction, where control may go on there. A wide one takes two units.
pub(crate) fn unit_behind(unit: usize, insn: &Insn) -> Option<usize>
    requires { unit < 4096 }
    ensures { result ≡ unit_behind unit insn.now }
{
    match insn {
        Insn::Jump { .. } | Insn::JumpFar { .. } | Insn::Exit => None,
        Insn::Wide { .. } => Some(unit + 2),
        _ => Some(unit + 1),
    }
}

/// The distance of a jump, in units.
pub(crate) fn distance_of(insn: &Insn) -> Option<i32>
    ensures { result ≡ distance_of insn.now }
{
    match insn {
        Insn::Jump { offset } => Some(i32::from(*offset)),
        Insn::JumpFar { distance } => Some(*distance),
        Insn::Branch { offset, .. } => Some(i32::from(*offset)),
        _ => None,
    }
}

/// Where a jump at a unit leads; none where that is before the text.
pub(crate) fn destination(unit: usize, distance: i32) -> Option<usize>
    requires { unit < 4096 }
    ensures { result ≡ unit_of (destination unit distance) }
{
    (unit + 1).checked_add_signed(distance as isize)
}

/// Where the jump of an instruction leads; none where it is no jump, or leads before the text.
fn unit_jumped_to(unit: usize, insn: &Insn) -> Option<usize>
    requires { unit < 4096 }
    ensures { result ≡ unit_jumped_to unit (distance_of insn.now) }
{
    destination(unit, distance_of(insn)?)
}

impl Successors {
    /// The unit behind an instruction, and where it jumps.
    fn new(behind: Option<usize>, jumped_to: Option<usize>) -> Successors
        ensures { places result ≡ place_of behind ++ place_of jumped_to }
    {
        match (behind, jumped_to) {
            (None, None) => Successors::None,
            (Some(unit), None) | (None, Some(unit)) => Successors::One(unit),
            (Some(behind), Some(target)) => Successors::Two(behind, target),
        }
    }
}

/// The successors of the instruction that begins at a unit.
pub(crate) fn successors_at(text: &Text, unit: usize) -> Successors
    requires { IsLegalFlow text.now }
    ensures places { places result ≡ successors_at text.now unit }
    ensures next { AreNext text.now unit result }
{
    match text.at(unit) {
        Some(insn) if unit < text.units() => Successors::new(
            unit_behind(unit, &insn),
            unit_jumped_to(unit, &insn),
        ),
        _ => Successors::None,
    }
}
