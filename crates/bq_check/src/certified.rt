//! A text that was checked.

ghost use Rattle.std.specs.Prelude.{◌≡◌, ◌≤◌, ℕ};
ghost use Rattle.bq_code.specs.Lowered.{IsLowered};
ghost use Rattle.bq_flow.specs.Paths.{IsLongest};
ghost use Rattle.bq_range.specs.Interval.{IsIn};
ghost use Rattle.bq_state.specs.Kinds.{AreLengths};
ghost use Rattle.bq_sound.specs.Passes.{Passes};
ghost use Rattle.bq_sound.specs.Safe.{IsSafe};
ghost use Rattle.bq_check.specs.Certified.{IsCertified};

use crate::notes::Notes;
use bq_code::Code;
use bq_insn::Text;
use bq_sound::laws::passing_is_safe;
use bq_state::Bounds;
use std::marker::Model;

/// A text whose notes pass for records of some lengths, with these notes and lengths, its longest path and its codes,
/// which follow from the text. Contracts see the first four. [`check_within`](crate::check_within) alone makes
/// one.
#[derive(Drop)]
pub struct Certified {
    pub(crate) text: Text,
    pub(crate) notes: Notes,
    pub(crate) lengths: Bounds,
    pub(crate) longest: u32,
    pub(crate) codes: Vec<Code>,
}

impl Model for Certified {
    ghost use Rattle.bq_check.specs.Certificate.{Certificate};
    ghost use Rattle.bq_check.specs.Codes.{HasCodes};

    ghost Value = { Certificate };

    ghost view = { λ c. record { text = c.text; notes = c.notes; lengths = c.lengths; longest = c.longest } };

    ghost invariant = { λ c. HasCodes (record { text = c.text; notes = c.notes; lengths = c.lengths; longest = c.longest }) c.codes.items };
}

impl Certified {
    /// The text.
    pub fn text(&self) -> &Text
        ensures { result.now ≡ self.now.text }
    {
        &self.text
    }

    /// The notes, which pass for the text and records of these lengths.
    pub fn notes(&self) -> &Notes
        ensures value { result.now ≡ self.now.notes }
        ensures passes { Passes self.now.lengths self.now.text self.now.notes }
    {
        &self.notes
    }

    /// The lengths that records may have.
    pub fn lengths(&self) -> Bounds
        ensures value { result ≡ self.now.lengths }
        ensures lengths { AreLengths self.now.lengths }
    {
        self.lengths
    }

    /// The greatest number of instructions on a path from unit 0 to an EXIT, from 1 to 4,096. A wide
    /// instruction counts once.
    pub fn longest(&self) -> u32
        ensures value { result ≡ self.now.longest }
        ensures longest { IsLongest self.now.text result }
        ensures some { 1 ≤ result }
        ensures within { result ≤ 4096 }
    {
        self.longest
    }

    /// What the loop over checked code runs: one code for each unit of the text.
    pub fn codes(&self) -> &[Code]
        ensures { IsLowered self.now.text result.now }
    {
        self.codes.as_slice()
    }

    /// A law of every certificate: its text is legal, its notes pass for records of its lengths, and its longest path
    /// is that of the text.
    pub fn is_certified(&self)
        ensures { IsCertified self.now }
    {
        let _text = &self.text;
    }

    /// From every accumulator, record of one of these lengths and frame a record run of the text ends within the
    /// longest path, with no fault, and with one answer and one frame that are the same at every placement.
    pub fn is_safe(&self)
        ensures { (len : ℕ) → IsIn len self.now.lengths → IsSafe len self.now.text self.now.longest }
    {
        passing_is_safe();
        let _text = &self.text;
    }
}
