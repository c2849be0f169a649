//! Programs by their ids.

ghost use Rattle.std.specs.Prelude.{◌≡◌, [], length, option_map, slice_get, position, Ok, IfOk};
ghost use Rattle.forms.specs.Calls.{Steps};
ghost use Rattle.reasons.specs.declared.Reason.TheVariants as reasons;
ghost use Rattle.q_table.specs.Programs.{registered, checked, IsTable};

use crate::encoded::EncodedProgram;
use crate::program::{Program, ProgramId};
use indexmap::IndexMap;
use reasons::Reason;
use std::alloc::{AllocError, Global};
use std::marker::Model;

/// The most programs of a table.
pub const MOST_PROGRAMS: usize = 1024;

/// Why a program is not registered: 52 TableFull, or 99 OutOfMemory. After a refusal the table is as it was.
pub type TableFault = Reason;

/// Certified programs of distinct texts, by the bytes of their texts, in the order in which they were registered.
/// Contracts see it as the list of the certificates.
pub struct Programs {
    alloc: Global,
    by_text: IndexMap<Vec<u8>, Program>,
}

impl Drop for Programs {
    // By hand, so that it is proved here alone, and not in each crate that drops one.
    fn drop(self) {
        let Programs {
            alloc: _,
            by_text: _,
        } = self;
    }
}

impl Model for Programs {
    ghost use Rattle.std.specs.Prelude.{List, map};
    ghost use Rattle.bq_check.specs.Certificate.{Certificate};
    ghost use Rattle.q_table.specs.Programs.{IsTable, AreSpelled};

    ghost Value = { List Certificate };

    ghost view = { λ p. map (λ e. e.1) p.by_text.entries };

    ghost invariant = { λ p. IsTable (map (λ e. e.1) p.by_text.entries) × AreSpelled (map (λ e. (e.0.items, e.1)) p.by_text.entries) };
}

impl Programs {
    /// No programs.
    pub fn new(alloc: Global) -> Programs
        ensures { result ≡ [] }
    {
        Programs {
            alloc,
            by_text: IndexMap::new(alloc),
        }
    }

    /// Registers a program: a text that is there keeps its id and its first certificate, a new one gets the next id.
    /// Refused with 52 where a new text would be the 1,025th; else 99.
    pub fn register(&mut self, program: &Program) -> Result<ProgramId, TableFault>
        ensures { Steps reasons.OutOfMemory (registered self.old program.now) self.old self.new result }
    {
        let encoded = self.encoded(program)?;
        self.insert(encoded)
    }

    /// A program with the bytes of its text, to be asked for and then inserted. The one error is that memory ran out
    /// (99 OutOfMemory).
    pub fn encoded(&self, program: &Program) -> Result<EncodedProgram, AllocError>
        ensures { IfOk result (λ k. k ≡ program.now) }
    {
        EncodedProgram::of(self.alloc, program)
    }

    /// Whether `insert` would refuse the program for another cause than memory: with 52. Takes no memory.
    pub fn check(&self, encoded: &EncodedProgram) -> Result<(), TableFault>
        ensures { result ≡ checked self.now encoded.now }
    {
        if self.by_text.get_index_of(&encoded.bytes).is_none()
            && MOST_PROGRAMS <= self.by_text.len()
        {
            return Err(TableFault::TableFull);
        }
        Ok(())
    }

    /// Registers a program, as [`register`](Programs::register) does. Refused with 52, 99.
    pub fn insert(&mut self, encoded: EncodedProgram) -> Result<ProgramId, TableFault>
        ensures { Steps reasons.OutOfMemory (registered self.old encoded) self.old self.new result }
    {
        let EncodedProgram { bytes, program } = encoded;
        if let Some(id) = self.by_text.get_index_of(&bytes) {
            return Ok(ProgramId::new(id as u32));
        }
        let id = self.by_text.len();
        if MOST_PROGRAMS <= id {
            return Err(TableFault::TableFull);
        }
        match self.by_text.insert(bytes, program) {
            Ok(_) => Ok(ProgramId::new(id as u32)),
            Err(_) => Err(TableFault::OutOfMemory),
        }
    }

    /// The program with this id. Takes no memory.
    pub fn get(&self, id: ProgramId) -> Option<&Program>
        ensures { option_map (λ p. p.now) result ≡ slice_get self.now id }
    {
        let (_, program) = self.by_text.get_index(id.number() as usize)?;
        Some(program)
    }

    /// How many programs there are.
    pub fn len(&self) -> usize
        ensures count { result ≡ length self.now }
        ensures table { IsTable self.now }
    {
        self.by_text.len()
    }
}
