//! What the definitions say at telling instructions and bytes, worked by hand from RFC 9669's tables.

ghost use Rattle.std.specs.Prelude.{◌≡◌, ◌≤◌, ℕ, List, length, IfNone, Some, None, [], ◌∷◌, codes, pos, negsuc, true, false};
ghost use Rattle.reasons.specs.Table as table;
ghost use Rattle.bq_insn.specs.Fault.{reason, front_fault, unit_reason, IsFault, IsLengthFault};
ghost use Rattle.bq_insn.specs.Insn.{unit_bytes, insn_bytes};
ghost use Rattle.bq_insn.specs.Opcode.{opcode_at};
ghost use Rattle.bq_insn.specs.Rows.{is_left_out, is_listed, unit_fault};
ghost use Rattle.bq_insn.specs.Slots.{insn_at, units, IsText};
ghost use Rattle.bq_insn.specs.declared.fault.DecodeFault.TheVariants as fault;
ghost use Rattle.bq_fields.specs.declared.fault.UnitFault.TheVariants as wrong;
ghost use Rattle.bq_insn.specs.declared.insn.Insn.{Insn};
ghost use Rattle.bq_insn.specs.declared.insn.Insn.TheVariants as insn;
ghost use Rattle.bq_insn.specs.declared.insn.Operand.TheVariants.{Register};
ghost use Rattle.bq_insn.specs.declared.opcode.AluCode.TheVariants.{Add};
ghost use Rattle.bq_insn.specs.declared.opcode.Opcode.TheVariants as opcode;
ghost use Rattle.bq_insn.specs.declared.opcode.Source.TheVariants.{Number};
ghost use Rattle.bq_fields.specs.declared.uses.FieldUse.TheVariants as uses;
ghost use Rattle.bq_word.specs.declared.AluOp.TheVariants.{SignedMod};
ghost use Rattle.bq_word.specs.declared.Width.TheVariants.{W64};

/// What first bytes say: `add64` with a number, EXIT, a CALL that is left out, and an atomic operation that is.
#[tactic(auto, unfolding(crate::specs::Opcode::opcode_at))]
pub fn worked_opcodes()
    ensures add { opcode_at 7 ≡ Some (opcode.Alu W64 Add Number) }
    ensures exit { opcode_at 149 ≡ Some opcode.Exit }
    ensures call { opcode_at 133 ≡ None }
    ensures atomic { is_left_out 219 ≡ true }
    ensures unknown { is_left_out 255 ≡ false }
{}

/// How fields lie in a unit, and units in an instruction: `mov32s8 r10, r1`, `smod64 r0, r4` and
/// `wide r0, 1099511627785`.
#[tactic(auto, unfolding(crate::specs::Insn::unit_bytes))]
pub fn worked_bytes()
    ensures fields { unit_bytes (record { opcode = 188; dst = 10; src = 1; offset = 8; imm = 0 }) ≡ 188 ∷ 26 ∷ 8 ∷ 0 ∷ 0 ∷ 0 ∷ 0 ∷ 0 ∷ [] }
    ensures signed { insn_bytes (insn.Alu W64 SignedMod 0 (Register 4)) ≡ 159 ∷ 64 ∷ 1 ∷ 0 ∷ 0 ∷ 0 ∷ 0 ∷ 0 ∷ [] }
    ensures wide { insn_bytes (insn.Wide 0 1099511627785) ≡ 24 ∷ 0 ∷ 0 ∷ 0 ∷ 9 ∷ 0 ∷ 0 ∷ 0 ∷ 0 ∷ 0 ∷ 0 ∷ 0 ∷ 0 ∷ 1 ∷ 0 ∷ 0 ∷ [] }
{}

/// What lies at each unit, how many units a text may have, and which numbers name a register.
pub fn worked_texts()
    ensures begins { insn_at (insn.Wide 0 7 ∷ insn.Exit ∷ []) 0 ≡ Some (insn.Wide 0 7) }
    ensures second_half { insn_at (insn.Wide 0 7 ∷ insn.Exit ∷ []) 1 ≡ None }
    ensures behind_wide { insn_at (insn.Wide 0 7 ∷ insn.Exit ∷ []) 2 ≡ Some insn.Exit }
    ensures behind_the_end { insn_at (insn.Exit ∷ []) 1 ≡ None }
    ensures empty { IsText [] → ⊥ }
    ensures exit { IsText (insn.Exit ∷ []) }
    ensures most { (text : List Insn) → units text ≡ 4096 → IsLengthFault text fault.TooLong → ⊥ }
    ensures too_many_for_memory { (text : List Insn) → units text ≡ 4097 → IsLengthFault text fault.OutOfMemory → ⊥ }
    ensures none_for_memory { IsLengthFault [] fault.OutOfMemory → ⊥ }
    ensures too_many { (text : List Insn) → units text ≡ 4097 → IsText text → ⊥ }
    ensures most_bytes { (bytes : List ℕ) → length bytes ≡ 32768 → IsFault bytes fault.TooLong → ⊥ }
    ensures too_many_bytes { (bytes : List ℕ) → length bytes ≡ 32776 → IsFault bytes fault.TooLong }
    ensures no_bytes { IsFault [] fault.BadLength }
    ensures no_bytes_for_memory { IsFault [] fault.OutOfMemory → ⊥ }
    ensures another { insn.Jump (pos 0) ≡ insn.JumpFar (pos 0) → ⊥ }
    ensures ten { IfNone {T = ℕ} None (11 ≤ 10) → ⊥ }
{}

/// Which fault stands first: a register above 10 before a field that is not used, 0x18 with a source before them, a
/// byte order of 17 bits, and a second unit of a wide instruction with something beside its `imm`.
#[tactic(auto, unfolding(crate::specs::Opcode::opcode_at))]
pub fn worked_faults()
    ensures register { unit_fault (record { opcode = 183; dst = 11; src = 0; offset = 8; imm = 0 }) ≡ Some wrong.BadRegister }
    ensures source { unit_fault (record { opcode = 24; dst = 0; src = 1; offset = 0; imm = 0 }) ≡ Some wrong.LeftOut }
    ensures unused { unit_fault (record { opcode = 149; dst = 0; src = 0; offset = 0; imm = 1 }) ≡ Some wrong.UnusedField }
    ensures bits { unit_fault (record { opcode = 220; dst = 0; src = 0; offset = 0; imm = 17 }) ≡ Some wrong.BadField }
    ensures listed { is_listed uses.SwapBits 32 ≡ true }
    ensures second { front_fault 3 (record { opcode = 24; dst = 0; src = 0; offset = 0; imm = 9 }) (1 ∷ 0 ∷ 0 ∷ 0 ∷ 0 ∷ 0 ∷ 0 ∷ 0 ∷ []) ≡ Some (fault.At 4 wrong.UnusedField) }
    ensures cut { front_fault 3 (record { opcode = 24; dst = 0; src = 0; offset = 0; imm = 9 }) [] ≡ Some (fault.At 3 wrong.CutWide) }
{}

/// How faults are reported.
pub fn worked_reports()
    ensures long { table.number (reason fault.TooLong) ≡ 2 }
    ensures memory { table.number (reason fault.OutOfMemory) ≡ 99 }
    ensures out { table.number (unit_reason wrong.LeftOut) ≡ 8 }
    ensures name { table.name (reason fault.TooLong) ≡ codes "TooLong" }
    ensures field { table.name (unit_reason wrong.BadField) ≡ codes "BadField" }
{}
