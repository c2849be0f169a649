//! A certified program that several owners share, and its id.

ghost use Rattle.std.specs.Prelude.{◌≡◌, IfOk, IfErr, MatchResult, ⊤};
ghost use Rattle.bq_sound.specs.Passes.{Passes};
ghost use Rattle.bq_check.specs.Certified.{IsCertified};
ghost use Rattle.bq_check.specs.Faults.{IsFirstFault};
ghost use Rattle.q_table.specs.Programs.{program_id};

use bq_check::{Certified, CheckFault, Notes, check_within};
use bq_insn::Text;
use bq_state::Bounds;
use std::alloc::{AllocError, Global};
use std::marker::Model;
use std::sync::Arc;

/// The number of a program in its table, from 0. Contracts see it as that number.
#[derive(Clone, Copy, Debug, PartialEq, Eq)]
pub struct ProgramId(u32);

impl Model for ProgramId {
    ghost use Rattle.std.specs.Prelude.{ℕ};

    ghost Value = { ℕ };

    ghost view = { λ p. p.0 };

    ghost inverse = { λ n. record { 0 = n } };
}

impl ProgramId {
    /// The id of this number.
    pub fn new(number: u32) -> ProgramId
        ensures { result ≡ number }
    {
        ProgramId(number)
    }

    /// The id of a program that is named by this number. Of a number that is too large it is the greatest id, which no
    /// program has.
    pub fn of_number(number: u64) -> ProgramId
        ensures { result ≡ program_id number }
    {
        ProgramId(u32::try_from(number).unwrap_or(u32::MAX))
    }

    /// The number, from 0.
    pub fn number(&self) -> u32
        ensures { result ≡ self.now }
    {
        self.0
    }
}

/// A certified program that several owners share. Contracts see it as the certificate.
pub struct Program {
    certified: Arc<Certified>,
}

impl Drop for Program {
    // By hand, so that it is proved here alone, and not in each crate that drops one.
    fn drop(self) {
        let Program { certified: _ } = self;
    }
}

impl Model for Program {
    ghost use Rattle.bq_check.specs.Certificate.{Certificate};

    ghost Value = { Certificate };

    ghost view = { λ p. p.certified.value };
}

impl Program {
    /// A certified program, to be shared. The one error is that memory ran out (99 OutOfMemory).
    pub fn new(alloc: Global, certified: Certified) -> Result<Program, AllocError>
        ensures { IfOk result (λ p. p ≡ certified) }
    {
        let certified = Arc::new(alloc, certified).map_err(AllocError::from)?;
        Ok(Program { certified })
    }

    /// The text with these notes as a program for records of these lengths, where the notes pass; else the first fault,
    /// as [`check_within`] has it. 99 OutOfMemory may stand in place of any of these answers.
    pub fn of_text(
        alloc: Global,
        text: Text,
        notes: Notes,
        lengths: Bounds,
    ) -> Result<Program, CheckFault>
        ensures same { IfOk result (λ p. (p.text ≡ text) × (p.notes ≡ notes) × (p.lengths ≡ lengths)) }
        ensures passes { IfOk result IsCertified }
        ensures all { Passes lengths text notes → MatchResult result (λ p. ⊤) (λ e. e ≡ CheckFault.OutOfMemory) }
        ensures fault { IfErr result (IsFirstFault lengths text notes) }
    {
        let certified = check_within(alloc, text, notes, lengths)?;
        match Program::new(alloc, certified) {
            Ok(program) => Ok(program),
            Err(_) => Err(CheckFault::OutOfMemory),
        }
    }

    /// The certificate.
    pub fn certified(&self) -> &Certified
        ensures { result.now ≡ self.now }
    {
        &self.certified
    }
}

impl Clone for Program {
    ghost use Rattle.std.specs.Prelude.{◌≡◌};

    ghost is_clone = { λ program copy. copy ≡ program };

    fn clone(&self) -> Result<Program, AllocError> {
        Ok(Program {
            certified: self.certified.clone()?,
        })
    }
}
