//! What an instruction makes of a state.

ghost use Rattle.std.specs.Prelude.{◌≡◌, ℤ, IfErr, OnErr};
ghost use Rattle.bq_word.specs.Word.{swap_bits, modulo};
ghost use Rattle.bq_state.specs.Kinds.{read_kind};
ghost use Rattle.bq_state.specs.InPlace.{became};
ghost use Rattle.bq_state.specs.Rules.{and_then, known, number, writable, ordered_range, operand_kind, read_operand, taken_kind, loaded_state, transfer};

use crate::kind::Kind;
use crate::rule::Rule;
use crate::state::State;
use bq_insn::{ByteOrder, Extension, Insn, Operand, Register, Size};
use bq_range::Range;
use bq_word::{AluOp, Relation, SwapBits, Width};

// Instructions write r0 to r9.
fn writable(dst: Register) -> Result<(), Rule>
    ensures { result ≡ writable dst }
{
    if dst.number() < 10 {
        Ok(())
    } else {
        Err(Rule::FramePointerWritten)
    }
}

// A number in the instruction is extended with its sign to 64 bits.
pub(crate) fn word_of(number: i32) -> u64
    ensures { result ≡ modulo 64 number }
{
    i64::from(number).cast_unsigned()
}

fn ordered(order: ByteOrder, bits: SwapBits, range: Range) -> Range
    ensures { result ≡ ordered_range order (swap_bits bits) range }
{
    match order {
        ByteOrder::Little => Range::low_bits(bits, range),
        ByteOrder::Big | ByteOrder::Swapped => Range::swap(bits, range),
    }
}

impl State {
    fn operand(&self, operand: Operand) -> Kind
        ensures { result ≡ operand_kind self.now operand }
    {
        match operand {
            Operand::Register(register) => self.kind(register.number()),
            Operand::Number(number) => Kind::Number(Range::single(word_of(number))),
        }
    }

    // An operand whose number is asked for.
    fn read_operand(&self, operand: Operand) -> Kind
        ensures { result ≡ read_operand self.now operand }
    {
        self.operand(operand).as_number(self.lengths())
    }

    // What an operation reads of its destination; a move reads nothing there.
    fn taken(&self, op: AluOp, dst: Register) -> Kind
        ensures { result ≡ taken_kind self.now op dst }
    {
        match op {
            AluOp::Mov => Kind::Number(Range::single(0)),
            _ => self.read(dst),
        }
    }

    fn operate(
        &mut self,
        width: Width,
        op: AluOp,
        dst: Register,
        operand: Operand,
    ) -> Result<(), Rule>
        ensures made { became result self.new ≡ transfer (Insn.Alu width op dst operand) self.old }
        ensures kept { OnErr result (self.new ≡ self.old) }
    {
        let a = self.taken(op, dst).known()?;
        let b = self.operand(operand).known()?;
        writable(dst)?;
        match Kind::alu(self.lengths(), width, op, a, b) {
            Some(kind) => {
                self.set(dst, kind);
                Ok(())
            }
            None => Err(Rule::WrongKind),
        }
    }

    // The number in a register from which an instruction makes one in `dst`.
    fn source(&self, dst: Register, src: Register) -> Result<Range, Rule>
        ensures { result ≡ and_then (known (read_kind self.now src)) (λ k. and_then (writable dst) (λ _. number Rule.WrongKind k)) }
    {
        let kind = self.read(src).known()?;
        writable(dst)?;
        kind.number(Rule::WrongKind)
    }

    fn negate(&mut self, width: Width, dst: Register) -> Result<(), Rule>
        ensures made { became result self.new ≡ transfer (Insn.Negate width dst) self.old }
        ensures kept { OnErr result (self.new ≡ self.old) }
    {
        let range = self.source(dst, dst)?;
        self.set(dst, Kind::Number(Range::negate(width, range)));
        Ok(())
    }

    fn extend(&mut self, extension: Extension, dst: Register, src: Register) -> Result<(), Rule>
        ensures made { became result self.new ≡ transfer (Insn.Extend extension dst src) self.old }
        ensures kept { OnErr result (self.new ≡ self.old) }
    {
        let range = self.source(dst, src)?;
        self.set(
            dst,
            Kind::Number(Range::extend(extension.source(), extension.width(), range)),
        );
        Ok(())
    }

    fn order(&mut self, order: ByteOrder, bits: SwapBits, dst: Register) -> Result<(), Rule>
        ensures made { became result self.new ≡ transfer (Insn.Order order bits dst) self.old }
        ensures kept { OnErr result (self.new ≡ self.old) }
    {
        let range = self.source(dst, dst)?;
        self.set(dst, Kind::Number(ordered(order, bits, range)));
        Ok(())
    }

    fn branch(&self, dst: Register, operand: Operand) -> Result<(), Rule>
        ensures { (w : Width) (r : Relation) (z : ℤ) → became result self.now ≡ transfer (Insn.Branch w r dst operand z) self.now }
    {
        let a = self.read(dst).known()?;
        let b = self.read_operand(operand).known()?;
        a.number(Rule::WrongKind)?;
        b.number(Rule::WrongKind)?;
        Ok(())
    }

    fn exit(&self) -> Result<(), Rule>
        ensures { became result self.now ≡ transfer Insn.Exit self.now }
    {
        self.kind(0)
            .as_number(self.lengths())
            .known()?
            .number(Rule::AnswerKind)?;
        Ok(())
    }

    // A number is loaded from so many bytes.
    fn load(
        &mut self,
        dst: Register,
        base: Register,
        offset: i16,
        size: u32,
        range: Range,
    ) -> Result<(), Rule>
        ensures made { became result self.new ≡ loaded_state self.old dst base offset size range }
        ensures kept { OnErr result (self.new ≡ self.old) }
    {
        let from = self.read(base).known()?;
        writable(dst)?;
        from.readable(self.lengths(), offset, size)?;
        self.set(dst, Kind::Number(range));
        Ok(())
    }

    fn store(&self, size: Size, base: Register, offset: i16, value: Operand) -> Result<(), Rule>
        ensures { became result self.now ≡ transfer (Insn.Store size base offset value) self.now }
    {
        let to = self.read(base).known()?;
        let value = self.read_operand(value).known()?;
        to.storable(value, offset, size.bytes())?;
        Ok(())
    }

    fn wide(&mut self, dst: Register, value: u64) -> Result<(), Rule>
        ensures made { became result self.new ≡ transfer (Insn.Wide dst value) self.old }
        ensures kept { OnErr result (self.new ≡ self.old) }
    {
        writable(dst)?;
        self.set(dst, Kind::Number(Range::single(value)));
        Ok(())
    }

    /// The state after an instruction, or the first rule that it breaks.
    pub fn transfer(&self, insn: &Insn) -> Result<State, Rule>
        ensures { result ≡ transfer insn.now self.now }
    {
        let mut state = *self;
        state.apply(insn)?;
        Ok(state)
    }

    /// The state becomes that after an instruction; where that breaks a rule, the state stays and the first such rule
    /// is answered.
    pub fn apply(&mut self, insn: &Insn) -> Result<(), Rule>
        ensures made { became result self.new ≡ transfer insn.now self.old }
        ensures kept { OnErr result (self.new ≡ self.old) }
    {
        match *insn {
            Insn::Alu {
                width,
                op,
                dst,
                operand,
            } => self.operate(width, op, dst, operand),
            Insn::Negate { width, dst } => self.negate(width, dst),
            Insn::Extend {
                extension,
                dst,
                src,
            } => self.extend(extension, dst, src),
            Insn::Order { order, bits, dst } => self.order(order, bits, dst),
            Insn::Jump { .. } | Insn::JumpFar { .. } => Ok(()),
            Insn::Branch { dst, operand, .. } => self.branch(dst, operand),
            Insn::Exit => self.exit(),
            Insn::Load {
                size,
                dst,
                base,
                offset,
            } => {
                let bytes = size.bytes();
                self.load(dst, base, offset, bytes, Range::of_load(bytes))
            }
            Insn::LoadSigned {
                size,
                dst,
                base,
                offset,
            } => self.load(dst, base, offset, size.bytes(), Range::of_signed_load()),
            Insn::Store {
                size,
                base,
                offset,
                value,
            } => self.store(size, base, offset, value),
            Insn::Wide { dst, value } => self.wide(dst, value),
        }
    }
}
