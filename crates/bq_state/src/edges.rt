//! Where an instruction may lead, each feasible way with its state.

ghost use Rattle.std.specs.Prelude.{◌≡◌, ◌<◌, Some, None, if◌then◌else◌};
ghost use Rattle.bq_word.specs.Word.{bits_of, low, modulo};
ghost use Rattle.bq_meaning.specs.Meaning.{target};
ghost use Rattle.bq_range.specs.Interval.{Interval};
ghost use Rattle.bq_state.specs.Kinds.{kind_of, read_kind};
ghost use Rattle.bq_state.specs.Edges.{narrowed, refined, refined_by_number, refined_by_register, edges};
ghost use Rattle.bq_state.specs.InPlace.{where_feasible, arrived, way};
ghost use Rattle.bq_state.specs.Listed.{edge_list, listed};
ghost use Rattle.bq_state.specs.Onward.{IsOnward};

use crate::kind::Kind;
use crate::state::State;
use crate::transfer::word_of;
use bq_insn::{Insn, Operand, Register};
use bq_range::Range;
use bq_word::{Relation, Width};

/// A way on from an instruction.
#[derive(Clone, Copy, Debug, PartialEq, Eq)]
pub struct Edge {
    /// The unit where it leads, counted from 0, modulo 2^64.
    pub unit: u64,
    /// What is known there.
    pub state: State,
}

/// The feasible ways on from an instruction, two at most.
#[derive(Clone, Copy, Debug, PartialEq, Eq)]
pub struct Edges {
    /// To the unit behind the instruction.
    pub behind: Option<Edge>,
    /// Where it jumps.
    pub jump: Option<Edge>,
}

/// How control goes on from an instruction.
#[derive(Clone, Copy, Debug, PartialEq, Eq)]
pub enum Onward {
    /// Not at all: the instruction ends the program.
    Nowhere,
    /// To this unit, counted from 0, modulo 2^64, with the very state that the instruction leaves.
    To(u64),
    /// By a branch: [`State::follow`] gives each of the two ways.
    Branches,
}

// The low bits of a word at a width.
fn low(width: Width, word: u64) -> u64
    ensures { result ≡ low (bits_of width) word }
{
    match width {
        Width::W32 => word & 0xffff_ffff,
        Width::W64 => word,
    }
}

// Where a jump leads: its distance counts from the next unit.
fn target(unit: u64, distance: i32) -> u64
    requires { unit < 4096 }
    ensures { result ≡ target unit distance }
{
    (unit + 1).wrapping_add_signed(i64::from(distance))
}

// The unit behind an instruction, where it does not jump.
fn unit_behind(jumps: bool, unit: u64) -> Option<u64>
    ensures { result ≡ (if jumps then None else Some unit) }
{
    if jumps { None } else { Some(unit) }
}

// Where an instruction jumps that always does.
fn unit_jumped_to(jumps: bool, unit: u64, distance: i32) -> Option<u64>
    requires { unit < 4096 }
    ensures { result ≡ (if jumps then Some (target unit distance) else None) }
{
    if jumps {
        Some(target(unit, distance))
    } else {
        None
    }
}

/// How control goes on from the instruction at a unit. Where that is no branch, no state needs a copy to follow it.
#[inline]
pub fn way_on(unit: u64, insn: &Insn) -> Onward
    requires { unit < 4096 }
    ensures { IsOnward result unit insn.now }
{
    match insn {
        Insn::Exit => Onward::Nowhere,
        Insn::Jump { offset } => Onward::To(target(unit, i32::from(*offset))),
        Insn::JumpFar { distance } => Onward::To(target(unit, *distance)),
        Insn::Branch { .. } => Onward::Branches,
        Insn::Wide { .. } => Onward::To(unit + 2),
        _ => Onward::To(unit + 1),
    }
}

impl State {
    // The number in a register is in a range: a register that holds the record's length says so of the record. Answers
    // whether that can be.
    fn narrow(&mut self, register: Register, range: Range) -> bool
        ensures { where_feasible result self.new ≡ narrowed self.old register range (kind_of self.old register) }
    {
        match self.kind(register.number()) {
            Kind::Length => match self.lengths().meet(range) {
                Some(lengths) => {
                    self.set_lengths(lengths);
                    true
                }
                None => false,
            },
            _ => {
                self.set(register, Kind::Number(range));
                true
            }
        }
    }

    fn learn_by_number(
        &mut self,
        width: Width,
        relation: Relation,
        taken: bool,
        dst: Register,
        word: u64,
    ) -> bool
        ensures { where_feasible result self.new ≡ refined_by_number self.old width relation taken dst word (read_kind self.old dst) }
    {
        let Kind::Number(a) = self.read(dst) else {
            return true;
        };
        let b = Range::single(low(width, word));
        match Range::narrow(width, relation, taken, a, b) {
            Some((a, _)) => self.narrow(dst, a),
            None => false,
        }
    }

    fn learn_by_register(
        &mut self,
        width: Width,
        relation: Relation,
        taken: bool,
        dst: Register,
        src: Register,
    ) -> bool
        ensures { where_feasible result self.new ≡ refined_by_register self.old width relation taken dst src (read_kind self.old dst) (read_kind self.old src) }
    {
        let Kind::Number(a) = self.read(dst) else {
            return true;
        };
        let Kind::Number(b) = self.read(src) else {
            return true;
        };
        match Range::narrow(width, relation, taken, a, b) {
            Some((a, b)) => self.narrow(dst, a) && self.narrow(src, b),
            None => false,
        }
    }

    // The state becomes what is known on an edge of a branch; whether that edge is feasible is answered.
    fn learn(
        &mut self,
        width: Width,
        relation: Relation,
        dst: Register,
        operand: Operand,
        taken: bool,
    ) -> bool
        ensures { where_feasible result self.new ≡ refined self.old width relation taken dst operand }
    {
        match operand {
            Operand::Number(number) => {
                self.learn_by_number(width, relation, taken, dst, word_of(number))
            }
            Operand::Register(src) => {
                if src.number() == dst.number() {
                    true
                } else {
                    self.learn_by_register(width, relation, taken, dst, src)
                }
            }
        }
    }

    /// What is known on an edge of a branch on a relation: the edge where it holds, with `taken`, or
    /// the one where it does not. None where that edge is not feasible.
    ///
    /// A register compared with itself tells nothing.
    pub fn refine(
        &self,
        width: Width,
        relation: Relation,
        dst: Register,
        operand: Operand,
        taken: bool,
    ) -> Option<State>
        ensures { result ≡ refined self.now width relation taken dst operand }
    {
        let mut state = *self;
        if state.learn(width, relation, dst, operand, taken) {
            Some(state)
        } else {
            None
        }
    }

    /// Follows one way on from the instruction at a unit, given this state, which the instruction leaves: its jump,
    /// with `jumps`, or the way to the unit behind it. Answers the unit where that way leads, and the state becomes
    /// what is known there; none where the instruction has no such way, or where it is not feasible.
    pub fn follow(&mut self, unit: u64, insn: &Insn, jumps: bool) -> Option<u64>
        requires { unit < 4096 }
        ensures { arrived result self.new ≡ way unit insn.now jumps self.old }
    {
        match insn {
            Insn::Exit => None,
            Insn::Jump { offset } => unit_jumped_to(jumps, unit, i32::from(*offset)),
            Insn::JumpFar { distance } => unit_jumped_to(jumps, unit, *distance),
            Insn::Branch {
                width,
                relation,
                dst,
                operand,
                offset,
            } => {
                let next = if jumps {
                    target(unit, i32::from(*offset))
                } else {
                    unit + 1
                };
                if self.learn(*width, *relation, *dst, *operand, jumps) {
                    Some(next)
                } else {
                    None
                }
            }
            Insn::Wide { .. } => unit_behind(jumps, unit + 2),
            _ => unit_behind(jumps, unit + 1),
        }
    }

    // The edge of one way on.
    fn edge(&self, unit: u64, insn: &Insn, jumps: bool) -> Option<Edge>
        requires { unit < 4096 }
        ensures { edge_list result ≡ way unit insn.now jumps self.now }
    {
        let mut state = *self;
        let unit = state.follow(unit, insn, jumps)?;
        Some(Edge { unit, state })
    }

    /// The feasible edges of the instruction at a unit, each with what is known there, given this
    /// state, which the instruction leaves.
    pub fn edges(&self, unit: u64, insn: &Insn) -> Edges
        requires { unit < 4096 }
        ensures { listed result ≡ edges unit insn.now self.now }
    {
        Edges {
            behind: self.edge(unit, insn, false),
            jump: self.edge(unit, insn, true),
        }
    }
}
