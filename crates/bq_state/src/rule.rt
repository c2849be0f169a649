//! The rules of the checker.

ghost use Rattle.std.specs.Prelude.{◌≡◌};
ghost use Rattle.bq_state.specs.Reasons.{reason};

use reasons::{Reason, told};

/// A rule of the checker that an instruction breaks.
#[derive(Clone, Copy, Debug, PartialEq, Eq)]
pub enum Rule {
    /// 23: it reads a register that is not set.
    UnsetRegister,
    /// 24: an operand's kind is not allowed there.
    WrongKind,
    /// 25: it accesses bytes outside the frame.
    OutsideFrame,
    /// 26: it accesses bytes outside the record.
    OutsideRecord,
    /// 27: it stores into the record.
    RecordWritten,
    /// 28: it writes r10.
    FramePointerWritten,
    /// 30: the answer is a pointer.
    AnswerKind,
}

impl Rule {
    /// The reason by which it is told: 23 to 28, or 30.
    pub fn reason(self) -> Reason
        ensures { result ≡ reason self }
    {
        told!(self, Rule: UnsetRegister, WrongKind, OutsideFrame, OutsideRecord, RecordWritten, FramePointerWritten, AnswerKind)
    }
}
