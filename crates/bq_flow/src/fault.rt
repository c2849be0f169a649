//! Why a text's flow is refused, and the reason that is told of each.

ghost use Rattle.std.specs.Prelude.{◌≡◌};
ghost use Rattle.bq_flow.specs.Faults.{rule_reason, reason};

use reasons::{Reason, told};
use std::alloc::AllocError;

/// What is wrong with the flow at an instruction.
#[derive(Clone, Copy, Debug, PartialEq, Eq)]
pub enum FlowRule {
    /// 11: a jump leads to its own unit or to one before it.
    Backward,
    /// 12: a jump leads behind the text.
    OutsideText,
    /// 13: a jump leads to the second half of a wide instruction.
    IntoWide,
    /// 14: control may go on behind the end of the text.
    FallsOff,
}

/// Why a text's flow is refused.
#[derive(Clone, Copy, Debug, PartialEq, Eq)]
pub enum FlowFault {
    /// 11 to 14: the first instruction whose flow is not legal.
    At {
        /// The unit where it begins, counted from 0.
        unit: usize,
        /// The first rule that it breaks.
        rule: FlowRule,
    },
    /// 99: memory ran out. It may stand in place of any other answer.
    OutOfMemory,
}

impl FlowRule {
    /// The reason by which the fault is told, 11 to 14.
    pub fn reason(self) -> Reason
        ensures { result ≡ rule_reason self }
    {
        told!(self, FlowRule: Backward, OutsideText, IntoWide, FallsOff)
    }
}

impl FlowFault {
    /// The reason by which the fault is told, 11 to 14 or 99.
    pub fn reason(self) -> Reason
        ensures { result ≡ reason self }
    {
        told!(self, FlowFault: At { rule, .. }, OutOfMemory)
    }
}

impl From<AllocError> for FlowFault {
    ghost use Rattle.bq_flow.specs.declared.fault.FlowFault.TheVariants.{OutOfMemory};

    ghost from_gives = { λ _ e. e ≡ OutOfMemory };

    fn from(_error: AllocError) -> Self {
        FlowFault::OutOfMemory
    }
}
