//! The flow of a text.

ghost use Rattle.std.specs.Prelude.{◌≡◌, ◌≤◌, IfOk, IfErr, MatchResult, ⊤};
ghost use Rattle.bq_insn.specs.Slots.{units};
ghost use Rattle.bq_flow.specs.Paths.{IsLegalFlow, IsLongest};
ghost use Rattle.bq_flow.specs.Faults.{IsFlowFault};
ghost use Rattle.bq_flow.specs.Flow.{IsFlow, successors_at, places, AreNext};

use crate::check::check;
use crate::fault::FlowFault;
use crate::longest::longest;
use crate::successors::{Successors, successors_at};
use bq_insn::Text;
use std::alloc::Global;
use std::marker::Model;

/// A text whose flow is legal, with its longest path. Contracts see it as those two.
#[derive(Drop)]
pub struct Flow<'a> {
    text: &'a Text,
    longest: u32,
}

impl<'a> Model for Flow<'a> {
    ghost use Rattle.bq_flow.specs.Flow.{TextFlow, IsFlow};

    ghost Value = { TextFlow };

    ghost view = { λ f. record { text = f.text.now; longest = f.longest } };

    ghost invariant = { λ f. IsFlow (record { text = f.text.now; longest = f.longest }) };
}

impl<'a> Flow<'a> {
    /// The flow of a text, or the first fault in rising order of the instructions. At one instruction
    /// it is the least of 11 Backward, 12 OutsideText, 13 IntoWide and 14 FallsOff.
    ///
    /// 99 OutOfMemory may stand in place of any of these answers.
    pub fn of(alloc: Global, text: &'a Text) -> Result<Flow<'a>, FlowFault>
        // What is answered is the flow of this very text, which is legal.
        ensures text { IfOk result (λ f. f.text ≡ text.now) }
        ensures flow { IfOk result IsFlow }

        // A legal flow is refused for want of memory alone.
        ensures all { IsLegalFlow text.now → MatchResult result (λ f. ⊤) (λ e. e ≡ FlowFault.OutOfMemory) }

        // Which fault it is.
        ensures fault { IfErr result (IsFlowFault text.now) }
    {
        check(text)?;
        let longest = longest(alloc, text)?;
        Ok(Flow { text, longest })
    }

    /// The text.
    pub fn text(&self) -> &'a Text
        ensures value { result.now ≡ self.now.text }
        ensures legal { IsLegalFlow self.now.text }
    {
        self.text
    }

    /// The successors of the instruction that begins at a unit, counted from 0. There is none where no
    /// instruction begins. Each is a unit of the text behind this one, where an instruction begins.
    pub fn successors(&self, unit: usize) -> Successors
        ensures places { places result ≡ successors_at self.now.text unit }
        ensures next { AreNext self.now.text unit result }
    {
        successors_at(self.text, unit)
    }

    /// The greatest number of instructions on a path from unit 0 to an EXIT, from 1 to 4,096. A wide
    /// instruction counts once.
    pub fn longest(&self) -> u32
        ensures value { result ≡ self.now.longest }
        ensures longest { IsLongest self.now.text result }
        ensures some { 1 ≤ result }
        ensures within { result ≤ units self.now.text }
    {
        self.longest
    }
}
