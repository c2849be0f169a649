//! What each form of instruction does, one method for each.

ghost use Rattle.std.specs.Prelude.{◌≡◌, ◌+◌, ◌≤◌, ◌<◌, OnOk, IfErr, ℤ};
ghost use Rattle.bq_word.specs.Word.{swap_bits};
ghost use Rattle.bq_meaning.specs.Meaning.{Continues, at_unit, moved, ordered, perform, target, writing, written};
ghost use Rattle.bq_meaning.specs.Place.{Place};
ghost use Rattle.bq_meaning.specs.Runs.{StepAnswers};

use crate::fault::Fault;
use crate::machine::Machine;
use crate::placement::Placement;
use crate::step::Step;
use bq_insn::{ByteOrder, Extension, Insn, Operand, Register, Size};
use bq_word::{AluOp, Relation, SignBits, SwapBits, Width, alu, extend, low_bits, relates, swap};

fn writable(dst: Register) -> Result<(), Fault>
    ensures ok { OnOk result (dst < 10) }
    ensures err { IfErr result (λ f. (f ≡ Fault.WroteFramePointer) × (10 ≤ dst)) }
{
    if dst.number() < 10 {
        Ok(())
    } else {
        Err(Fault::WroteFramePointer)
    }
}

/// A word and a signed number, modulo 2^64.
fn moved(word: u64, by: i32) -> u64
    ensures { (z : ℤ) → z ≡ by → result ≡ moved word z }
{
    word.wrapping_add_signed(i64::from(by))
}

/// The low bits of a register in a byte order.
fn ordered(order: ByteOrder, bits: SwapBits, value: u64) -> u64
    ensures { result ≡ ordered order (swap_bits bits) value }
{
    match order {
        ByteOrder::Little => low_bits(bits, value),
        ByteOrder::Big | ByteOrder::Swapped => swap(bits, value),
    }
}

impl Machine<'_> {
    /// Writes a register, and goes to the next unit.
    fn write(&mut self, dst: Register, value: u64) -> Result<Step, Fault>
        requires { self.old.unit < 4096 }
        ensures { StepAnswers (writing dst (Continues (written self.old dst value))) self.old result self.new }
    {
        writable(dst)?;
        self.registers[dst.number() as usize] = Some(value);
        self.unit += 1;
        Ok(Step::Continues)
    }

    fn operate(
        &mut self,
        width: Width,
        op: AluOp,
        dst: Register,
        operand: Operand,
    ) -> Result<Step, Fault>
        requires { self.old.unit < 4096 }
        ensures { (p : Place) → StepAnswers (perform p (Insn.Alu width op dst operand) self.old) self.old result self.new }
    {
        let a = self.taken(op, dst)?;
        let b = self.value(operand)?;
        self.write(dst, alu(width, op, a, b))
    }

    fn negate(&mut self, width: Width, dst: Register) -> Result<Step, Fault>
        requires { self.old.unit < 4096 }
        ensures { (p : Place) → StepAnswers (perform p (Insn.Negate width dst) self.old) self.old result self.new }
    {
        let a = self.read(dst)?;
        self.write(dst, alu(width, AluOp::Sub, 0, a))
    }

    fn extend(&mut self, extension: Extension, dst: Register, src: Register) -> Result<Step, Fault>
        requires { self.old.unit < 4096 }
        ensures { (p : Place) → StepAnswers (perform p (Insn.Extend extension dst src) self.old) self.old result self.new }
    {
        let b = self.read(src)?;
        self.write(dst, extend(extension.source(), extension.width(), b))
    }

    fn order(&mut self, order: ByteOrder, bits: SwapBits, dst: Register) -> Result<Step, Fault>
        requires { self.old.unit < 4096 }
        ensures { (p : Place) → StepAnswers (perform p (Insn.Order order bits dst) self.old) self.old result self.new }
    {
        let a = self.read(dst)?;
        self.write(dst, ordered(order, bits, a))
    }

    fn jump(&mut self, distance: i32) -> Result<Step, Fault>
        requires { self.old.unit < 4096 }
        ensures { (z : ℤ) → z ≡ distance → StepAnswers (Continues (at_unit self.old (target self.old.unit z))) self.old result self.new }
    {
        self.unit = moved(self.unit + 1, distance);
        Ok(Step::Continues)
    }

    fn jump_if(
        &mut self,
        width: Width,
        relation: Relation,
        dst: Register,
        operand: Operand,
        offset: i16,
    ) -> Result<Step, Fault>
        requires { self.old.unit < 4096 }
        ensures { (p : Place) (z : ℤ) → z ≡ offset → StepAnswers (perform p (Insn.Branch width relation dst operand z) self.old) self.old result self.new }
    {
        let a = self.read(dst)?;
        let b = self.value(operand)?;
        let next = self.unit + 1;
        self.unit = if relates(width, relation, a, b) {
            moved(next, i32::from(offset))
        } else {
            next
        };
        Ok(Step::Continues)
    }

    fn load(
        &mut self,
        placement: &Placement,
        size: Size,
        dst: Register,
        base: Register,
        offset: i16,
    ) -> Result<Step, Fault>
        requires { self.old.unit < 4096 }
        ensures { StepAnswers (perform placement.now (Insn.Load size dst base offset) self.old) self.old result self.new }
    {
        let a = self.read(base)?;
        writable(dst)?;
        let from = moved(a, i32::from(offset));
        let value = self.number_at(placement, from, size.bytes() as usize)?;
        self.write(dst, value)
    }

    fn load_signed(
        &mut self,
        placement: &Placement,
        size: SignBits,
        dst: Register,
        base: Register,
        offset: i16,
    ) -> Result<Step, Fault>
        requires { self.old.unit < 4096 }
        ensures { StepAnswers (perform placement.now (Insn.LoadSigned size dst base offset) self.old) self.old result self.new }
    {
        let a = self.read(base)?;
        writable(dst)?;
        let from = moved(a, i32::from(offset));
        let value = self.number_at(placement, from, size.bytes() as usize)?;
        self.write(dst, extend(size, Width::W64, value))
    }

    fn store(
        &mut self,
        placement: &Placement,
        size: Size,
        base: Register,
        offset: i16,
        value: Operand,
    ) -> Result<Step, Fault>
        requires { self.old.unit < 4096 }
        ensures { StepAnswers (perform placement.now (Insn.Store size base offset value) self.old) self.old result self.new }
    {
        let a = self.read(base)?;
        let value = self.value(value)?;
        self.store_at(
            placement,
            moved(a, i32::from(offset)),
            size.bytes() as usize,
            value,
        )
    }

    fn wide(&mut self, dst: Register, value: u64) -> Result<Step, Fault>
        requires { self.old.unit < 4096 }
        ensures { (p : Place) → StepAnswers (perform p (Insn.Wide dst value) self.old) self.old result self.new }
    {
        writable(dst)?;
        self.registers[dst.number() as usize] = Some(value);
        self.unit += 2;
        Ok(Step::Continues)
    }

    /// Does one instruction, which begins at the machine's unit.
    pub(crate) fn perform(&mut self, placement: &Placement, insn: &Insn) -> Result<Step, Fault>
        requires { self.old.unit < 4096 }
        ensures { StepAnswers (perform placement.now insn.now self.old) self.old result self.new }
    {
        match *insn {
            Insn::Alu {
                width,
                op,
                dst,
                operand,
            } => self.operate(width, op, dst, operand),
            Insn::Negate { width, dst } => self.negate(width, dst),
            Insn::Extend {
                extension,
                dst,
                src,
            } => self.extend(extension, dst, src),
            Insn::Order { order, bits, dst } => self.order(order, bits, dst),
            Insn::Jump { offset } => self.jump(i32::from(offset)),
            Insn::JumpFar { distance } => self.jump(distance),
            Insn::Branch {
                width,
                relation,
                dst,
                operand,
                offset,
            } => self.jump_if(width, relation, dst, operand, offset),
            Insn::Exit => Ok(Step::Ends(self.read(Register::at(0))?)),
            Insn::Load {
                size,
                dst,
                base,
                offset,
            } => self.load(placement, size, dst, base, offset),
            Insn::LoadSigned {
                size,
                dst,
                base,
                offset,
            } => self.load_signed(placement, size, dst, base, offset),
            Insn::Store {
                size,
                base,
                offset,
                value,
            } => self.store(placement, size, base, offset, value),
            Insn::Wide { dst, value } => self.wide(dst, value),
        }
    }
}
