//! Machines, and what they read without memory: registers and operands.

ghost use Rattle.std.specs.Prelude.{◌≡◌, ◌≤◌, length, Some, None, IfOk, IfErr};
ghost use Rattle.bq_meaning.specs.Place.{least_record, record_room};
ghost use Rattle.bq_meaning.specs.Meaning.{held, value, taken};
ghost use Rattle.bq_meaning.specs.Runs.{entry_machine};

use crate::fault::Fault;
use crate::placement::{FRAME_LENGTH, Placement};
use bq_insn::{Operand, Register};
use bq_word::AluOp;
use std::marker::Model;

/// A machine. Pointers are plain words.
#[derive(Debug, Drop)]
pub struct Machine<'a> {
    /// Which unit of the text is next, counted from 0.
    pub unit: u64,
    /// r0 to r10: none until it is written.
    pub registers: [Option<u64>; 11],
    /// What r10 points to the end of: read and written.
    pub frame: [u8; FRAME_LENGTH],
    /// What r1 points to: 16 to 128 bytes, only read.
    pub record: &'a [u8],
}

impl<'a> Model for Machine<'a> {
    ghost use Rattle.std.specs.Prelude.{◌≡◌, ◌≤◌, length};
    ghost use Rattle.bq_meaning.specs.Place.{least_record, record_room};
    ghost use Rattle.bq_meaning.specs.Memory.{MachineState};

    ghost Value = { MachineState };

    ghost view = { λ m. record { unit = m.unit; registers = m.registers; frame = m.frame; «record» = m.record.now } };

    ghost invariant = { λ m. (length m.registers ≡ 11) × (length m.frame ≡ 512) × (least_record ≤ length m.«record».now) × (length m.«record».now ≤ record_room) };
}

/// Where an access lies: so many bytes behind the start of the frame, or of the record.
#[derive(Clone, Copy, Debug, PartialEq, Eq)]
pub enum Location {
    /// Behind the frame's first byte.
    Frame(usize),
    /// Behind the record's first byte.
    Record(usize),
}

impl<'a> Machine<'a> {
    /// The machine at the entry of a record run.
    pub(crate) fn at_entry(
        placement: &Placement,
        acc: u64,
        record: &'a [u8],
        frame: &[u8; FRAME_LENGTH],
    ) -> Machine<'a>
        requires least { least_record ≤ length «record».now }
        requires room { length «record».now ≤ record_room }
        ensures { result ≡ entry_machine placement.now acc «record».now frame.now }
    {
        let record_start = placement.record();
        let frame_end = placement.frame() + FRAME_LENGTH as u64;
        Machine {
            unit: 0,
            registers: [
                None,
                Some(record_start),
                Some(record.len() as u64),
                Some(acc),
                None,
                None,
                None,
                None,
                None,
                None,
                Some(frame_end),
            ],
            frame: *frame,
            record,
        }
    }

    pub(crate) fn read(&self, register: Register) -> Result<u64, Fault>
        ensures ok { IfOk result (λ v. held self.now.registers register ≡ Some v) }
        ensures err { IfErr result (λ f. (f ≡ Fault.ReadUnset) × (held self.now.registers register ≡ None)) }
    {
        self.registers[register.number() as usize].ok_or(Fault::ReadUnset)
    }

    pub(crate) fn value(&self, operand: Operand) -> Result<u64, Fault>
        ensures ok { IfOk result (λ v. value self.now.registers operand ≡ Some v) }
        ensures err { IfErr result (λ f. (f ≡ Fault.ReadUnset) × (value self.now.registers operand ≡ None)) }
    {
        match operand {
            Operand::Number(number) => Ok(i64::from(number).cast_unsigned()),
            Operand::Register(register) => self.read(register),
        }
    }

    /// What an operation takes from its destination.
    pub(crate) fn taken(&self, op: AluOp, dst: Register) -> Result<u64, Fault>
        ensures ok { IfOk result (λ v. taken self.now.registers op dst ≡ Some v) }
        ensures err { IfErr result (λ f. (f ≡ Fault.ReadUnset) × (taken self.now.registers op dst ≡ None)) }
    {
        match op {
            AluOp::Mov => Ok(0),
            _ => self.read(dst),
        }
    }
}
