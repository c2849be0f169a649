//! States: what is known of the eleven registers and of the record's length.

ghost use Rattle.std.specs.Prelude.{◌≡◌, ◌↔◌, ◌<◌, ℕ, IsTrue, List, length};
ghost use Rattle.bq_state.specs.Kinds.{StateKinds, StateCovers, kind_of, read_kind, with_kind, with_lengths, join_lists, join_states, entry_state};
ghost use Rattle.bq_state.specs.Plain.{IsPlain};

use crate::bounds::Bounds;
use crate::kind::Kind;
use crate::offsets::Offsets;
use crate::region::Region;
use bq_insn::Register;
use bq_meaning::FRAME_LENGTH;
use bq_range::Range;
use std::marker::Model;

/// What is known of the registers r0 to r10, and the lengths that the record may have. Contracts see it as the list of
/// the registers' kinds with these lengths.
#[derive(Clone, Copy, Debug, PartialEq, Eq)]
pub struct State {
    kinds: [Kind; 11],
    lengths: Bounds,
}

impl Model for State {
    ghost use Rattle.std.specs.Prelude.{◌≡◌, length};
    ghost use Rattle.bq_state.specs.Kinds.{StateKinds};

    ghost Value = { StateKinds };

    ghost view = { λ s. record { kinds = s.kinds; lengths = s.lengths } };

    ghost invariant = { λ s. length s.kinds ≡ 11 };

    ghost inverse = { λ s. record { kinds = s.kinds; lengths = s.lengths } };
}

impl State {
    /// The state of these kinds, that of r0 first, where the record has one of these lengths.
    pub fn new(kinds: [Kind; 11], lengths: Bounds) -> State
        ensures kinds { result.kinds ≡ kinds }
        ensures lengths { result.lengths ≡ lengths }
    {
        State { kinds, lengths }
    }

    /// The kinds of the registers, that of r0 first.
    pub fn kinds(&self) -> &[Kind; 11]
        ensures kinds { result.now ≡ self.now.kinds }
        ensures count { length self.now.kinds ≡ 11 }
    {
        &self.kinds
    }

    /// The lengths that the record may have.
    pub fn lengths(&self) -> Bounds
        ensures { result ≡ self.now.lengths }
    {
        self.lengths
    }

    /// What is known at the entry of a run over a record of one of these lengths: r1 points to the record and r2 is its
    /// length, r3 is any number, and r10 points to the end of the frame.
    pub fn entry(lengths: Bounds) -> State
        ensures { result ≡ entry_state lengths }
    {
        State {
            kinds: [
                Kind::Unset,
                Kind::Pointer(Region::Record, Offsets::at(0)),
                lengths.kind(),
                Kind::Number(Range::full()),
                Kind::Unset,
                Kind::Unset,
                Kind::Unset,
                Kind::Unset,
                Kind::Unset,
                Kind::Unset,
                Kind::Pointer(Region::Frame, Offsets::at(FRAME_LENGTH as i32)),
            ],
            lengths,
        }
    }

    /// What is known of a register: nothing of a number above 10.
    pub fn kind(&self, register: u8) -> Kind
        ensures { result ≡ kind_of self.now register }
    {
        if register < 11 {
            self.kinds[usize::from(register)]
        } else {
            Kind::Unset
        }
    }

    /// Whether the record has so many bytes, and no register is known as their number but by the number itself.
    pub fn is_plain(&self, length: u8) -> bool
        ensures { IsTrue result ↔ IsPlain length self.now }
    {
        if self.lengths.least() != length || self.lengths.most() != length {
            return false;
        }
        for register in 0..11 {
            if !self.kinds[register].is_plain() {
                return false;
            }
        }
        true
    }

    // What is known of a register whose number is asked for.
    pub(crate) fn read(&self, register: Register) -> Kind
        ensures { result ≡ read_kind self.now register }
    {
        self.kind(register.number()).as_number(self.lengths)
    }

    // This kind takes the place of what was known of the register.
    #[inline(always)]
    pub(crate) fn set(&mut self, register: Register, kind: Kind)
        ensures { self.new ≡ with_kind self.old register kind }
    {
        self.kinds[usize::from(register.number())] = kind;
    }

    // Records now have these lengths.
    #[inline(always)]
    pub(crate) fn set_lengths(&mut self, lengths: Bounds)
        ensures { self.new ≡ with_lengths self.old lengths }
    {
        self.lengths = lengths;
    }

    /// Whether what holds of the other, register by register, holds of this one.
    pub fn covers(&self, other: &State) -> bool
        ensures { IsTrue result ↔ StateCovers self.now other.now }
    {
        if !self.lengths.covers(other.lengths) {
            return false;
        }
        for register in 0..11 {
            if !self.kinds[register].covers(other.kinds[register], other.lengths) {
                return false;
            }
        }
        true
    }

    /// The least state that covers both.
    pub fn join(&self, other: &State) -> State
        ensures row { result ≡ join_states self.now other.now }
        ensures covers { StateCovers result self.now × StateCovers result other.now }
    {
        let mut joined = *self;
        joined.join_with(other);
        joined
    }

    /// The state becomes the least that covers it and another.
    pub fn join_with(&mut self, other: &State)
        ensures row { self.new ≡ join_states self.old other.now }
        ensures covers { StateCovers self.new self.old × StateCovers self.new other.now }
    {
        join_kinds(&mut self.kinds, self.lengths, &other.kinds, other.lengths);
        self.lengths = self.lengths.join(other.lengths);
    }
}

// Each kind becomes the least that covers it and the other of the register, each where records have its lengths. Where
// nothing is known it stays so, and is not written.
fn join_kinds(kinds: &mut [Kind; 11], lengths: Bounds, others: &[Kind; 11], other_lengths: Bounds)
    ensures { kinds.new ≡ join_lists lengths other_lengths kinds.old others.now }
{
    for register in 0..11 {
        if kinds[register].is_set() {
            kinds[register] = kinds[register].join(lengths, others[register], other_lengths);
        }
    }
}
