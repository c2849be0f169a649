//! A program with the bytes of its text.

ghost use Rattle.std.specs.Prelude.{◌≡◌, IfOk};

use crate::program::Program;
use bq_insn::encode;
use std::alloc::{AllocError, Global};
use std::marker::Model;

/// A program with the bytes of its text, by which a table finds it: they are written once, however many calls then ask
/// for the program. Contracts see it as the certificate.
#[derive(Drop)]
pub struct EncodedProgram {
    pub(crate) bytes: Vec<u8>,
    pub(crate) program: Program,
}

impl Model for EncodedProgram {
    ghost use Rattle.std.specs.Prelude.{◌≡◌};
    ghost use Rattle.bq_check.specs.Certificate.{Certificate};
    ghost use Rattle.bq_insn.specs.Slots.{spelling};

    ghost Value = { Certificate };

    ghost view = { λ k. k.program };

    ghost invariant = { λ k. k.bytes.items ≡ spelling k.program.text };
}

impl EncodedProgram {
    /// A program, with the bytes of its text. The one error is that memory ran out (99 OutOfMemory).
    pub fn of(alloc: Global, program: &Program) -> Result<EncodedProgram, AllocError>
        ensures { IfOk result (λ k. k ≡ program.now) }
    {
        Ok(EncodedProgram {
            bytes: encode(alloc, program.certified().text())?,
            program: program.clone()?,
        })
    }
}
