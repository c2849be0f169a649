//! An operation, and the code and the offset that spell it.

ghost use Rattle.std.specs.Prelude.{◌≡◌};
ghost use Rattle.bq_insn.specs.Insn.{code_of, offset_of, op_at, FitsCode};

use crate::opcode::AluCode;
use bq_word::AluOp;
use reasons::passed_on;

/// The code of an operation, which a signed division or remainder has in common with its unsigned
/// form.
pub(crate) fn alu_code(op: AluOp) -> AluCode
    ensures { result ≡ code_of op }
{
    match op {
        AluOp::Add => AluCode::Add,
        AluOp::Sub => AluCode::Sub,
        AluOp::Mul => AluCode::Mul,
        AluOp::Div | AluOp::SignedDiv => AluCode::Div,
        AluOp::Or => AluCode::Or,
        AluOp::And => AluCode::And,
        AluOp::ShiftLeft => AluCode::ShiftLeft,
        AluOp::ShiftRight => AluCode::ShiftRight,
        AluOp::Mod | AluOp::SignedMod => AluCode::Mod,
        AluOp::Xor => AluCode::Xor,
        AluOp::Mov => AluCode::Mov,
        AluOp::ArithmeticShiftRight => AluCode::ArithmeticShiftRight,
    }
}

/// The offset of an operation: 1 where it is signed, 0 where it is unsigned or has no signed form.
pub(crate) fn signed_offset(op: AluOp) -> u16
    ensures { result ≡ offset_of op }
{
    match op {
        AluOp::SignedDiv | AluOp::SignedMod => 1,
        _ => 0,
    }
}

impl AluCode {
    /// The operation of a code and an offset.
    pub(crate) fn op(self, offset: u16) -> AluOp
        requires { FitsCode self offset }
        ensures value { result ≡ op_at self offset }
        ensures code { code_of result ≡ self }
        ensures offset { offset_of result ≡ offset }
    {
        if offset == 0 {
            passed_on!(self, AluCode as AluOp: Add, Sub, Mul, Div, Or, And, ShiftLeft, ShiftRight, Mod, Xor, Mov,
                ArithmeticShiftRight)
        } else {
            match self {
                AluCode::Div => AluOp::SignedDiv,
                _ => AluOp::SignedMod,
            }
        }
    }
}
