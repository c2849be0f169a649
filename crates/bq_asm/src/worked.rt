//! What the definitions say at telling mnemonics, operands and instructions, worked by hand from RFC 9669's names and
//! the crate's page.

ghost use Rattle.std.specs.Prelude.{◌≡◌, ◌++◌, ℕ, List, Some, None, [], ◌∷◌, codes, pos, negsuc};
ghost use Rattle.reasons.specs.Table as table;
ghost use Rattle.bq_asm.specs.Mnemonic.{mnemonic_at, name};
ghost use Rattle.bq_asm.specs.Reading.{jump_by, line_at, operand_at, place_at, statement_at};
ghost use Rattle.bq_asm.specs.Source.{disassembly, reason, insn_line, IsFault};
ghost use Rattle.bq_asm.specs.Line.{Label};
ghost use Rattle.bq_asm.specs.declared.fault.AsmFault.TheVariants as fault;
ghost use Rattle.bq_asm.specs.declared.jump.Jump.TheVariants as jump;
ghost use Rattle.bq_asm.specs.declared.mnemonic.Mnemonic.TheVariants as mnemonic;
ghost use Rattle.bq_insn.specs.declared.insn.Extension.TheVariants as extension;
ghost use Rattle.bq_insn.specs.declared.insn.Insn.TheVariants as insn;
ghost use Rattle.bq_insn.specs.declared.insn.Operand.TheVariants as operand;
ghost use Rattle.bq_insn.specs.declared.insn.Size.TheVariants as size;
ghost use Rattle.bq_word.specs.declared.AluOp.TheVariants as op;
ghost use Rattle.bq_word.specs.declared.Width.TheVariants as width;

/// Mnemonics and their texts.
#[tactic(auto, unfolding(crate::specs::Mnemonic::mnemonic_at))]
pub fn worked_mnemonics()
    ensures divided { name (mnemonic.Alu width.W64 op.SignedDiv) ≡ codes "sdiv64" }
    ensures shifted { name (mnemonic.Alu width.W32 op.ArithmeticShiftRight) ≡ codes "arsh32" }
    ensures read { mnemonic_at (codes "smod32") ≡ Some (mnemonic.Alu width.W32 op.SignedMod) }
    ensures last { mnemonic_at (codes "store8") ≡ Some (mnemonic.Store size.B8) }
    ensures none { mnemonic_at (codes "mov") ≡ None }
{}

/// Instructions on a line, with offsets and distances that have more than eight bits.
pub fn worked_lines()
    ensures load { insn_line (insn.Load size.B8 4 1 (pos 256)) ≡ codes "load8 r4, [r1+256]" ++ 10 ∷ [] }
    ensures store { insn_line (insn.Store size.B8 10 (negsuc 255) (operand.Register 4)) ≡ codes "store8 [r10-256], r4" ++ 10 ∷ [] }
    ensures far { insn_line (insn.JumpFar (pos 256)) ≡ codes "ja32 +256" ++ 10 ∷ [] }
    ensures two { disassembly (insn.JumpFar (pos 256) ∷ insn.Exit ∷ []) ≡ codes "ja32 +256" ++ 10 ∷ (codes "exit" ++ 10 ∷ []) }
    ensures extended { insn_line (insn.Extend extension.W32From8 0 4) ≡ codes "mov32s8 r0, r4" ++ 10 ∷ [] }
{}

/// Operands as they are read: a number has 32 bits, an offset 16 and its sign, the number of
/// `wide` 64, and `exit` has no operand.
#[tactic(auto, unfolding(spelling::specs::Natural::natural_at, spelling::specs::Natural::is_decimal, crate::specs::Reading::operand_at, crate::specs::Reading::signed_at, crate::specs::Reading::negative_at, crate::specs::Reading::positive_at, crate::specs::Reading::register_at, crate::specs::Reading::place_at, crate::specs::Reading::statement_at, crate::specs::Reading::line_at, crate::specs::Reading::trimmed))]
pub fn worked_operands()
    ensures least { operand_at (codes "-2147483648") ≡ Some (operand.Number (negsuc 2147483647)) }
    ensures wide { operand_at (codes "2147483648") ≡ None }
    ensures below { place_at (codes "r10-8") ≡ Some (10, negsuc 7) }
    ensures exit { statement_at mnemonic.Exit (codes "0") ≡ None }
    ensures label { line_at (codes "a:") ≡ Some (Label (codes "a")) }
    ensures behind_a_label { line_at (codes "a: exit") ≡ None }
    ensures reach { jump_by jump.Always (pos 32767) ≡ Some (insn.Jump (pos 32767)) }
    ensures far { jump_by jump.Always (pos 32768) ≡ None }
{}

/// Where the first line is of no form, no memory is asked for.
pub fn worked_faults()
    ensures unreadable { (source : List ℕ) → IsFault source (fault.Syntax 1) → IsFault source fault.OutOfMemory → ⊥ }
{}

/// How faults are reported.
pub fn worked_reports()
    ensures long { table.number (reason fault.TooLong) ≡ 2 }
    ensures memory { table.number (reason fault.OutOfMemory) ≡ 99 }
    ensures name { table.name (reason fault.TooLong) ≡ codes "TooLong" }
{}
