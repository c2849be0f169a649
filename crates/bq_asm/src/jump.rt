//! Jumps without their distance.

ghost use Rattle.std.specs.Prelude.{◌≡◌};
ghost use Rattle.bq_asm.specs.Jumps.{jump_by};

use bq_insn::{Insn, Operand, Register};
use bq_word::{Relation, Width};

/// A jump without its distance.
#[derive(Clone, Copy)]
pub enum Jump {
    /// `ja`, whose distance has 16 bits.
    Always,
    /// `ja32`, whose distance has 32 bits.
    Far,
    /// A conditional jump, whose distance has 16 bits.
    Branch {
        /// The width at which the two are compared.
        width: Width,
        /// What is asked of them.
        relation: Relation,
        /// The first.
        dst: Register,
        /// The second.
        operand: Operand,
    },
}

impl Jump {
    /// The jump by a distance; none where its field does not hold the distance.
    pub fn by(self, distance: i64) -> Option<Insn>
        ensures { result ≡ jump_by self distance }
    {
        match self {
            Jump::Always => {
                let offset = i16::try_from(distance).ok()?;
                Some(Insn::Jump { offset })
            }
            Jump::Far => {
                let distance = i32::try_from(distance).ok()?;
                Some(Insn::JumpFar { distance })
            }
            Jump::Branch {
                width,
                relation,
                dst,
                operand,
            } => {
                let offset = i16::try_from(distance).ok()?;
                Some(Insn::Branch {
                    width,
                    relation,
                    dst,
                    operand,
                    offset,
                })
            }
        }
    }
}
