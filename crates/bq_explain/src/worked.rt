//! Worked values of which faults are told, and of what is known of the registers.

ghost use Rattle.std.specs.Prelude.{◌≡◌, ◌-◌, ◌^◌, ℕ, [], ◌∷◌, Some, None, codes, pos};
ghost use Rattle.bq_insn.specs.declared.insn.Insn.TheVariants as insn;
ghost use Rattle.bq_range.specs.Interval.{between, single};
ghost use Rattle.bq_state.specs.declared.kind.Kind.TheVariants as kind;
ghost use Rattle.bq_state.specs.declared.region.Region.TheVariants as region;
ghost use Rattle.bq_flow.specs.declared.fault.FlowRule.TheVariants.{FallsOff};
ghost use Rattle.bq_state.specs.declared.rule.Rule.TheVariants.{AnswerKind};
ghost use Rattle.bq_check.specs.declared.fault.CheckFault.TheVariants as fault;
ghost use Rattle.bq_explain.specs.Known.{register_line, states_text};
ghost use Rattle.bq_explain.specs.Told.{IsTold, IsToldOfCode};

/// A fault of an instruction is told, and no other. Of a register the line says its kind; of one of which nothing is
/// known there is none, nor of any where no run comes.
#[tactic(auto, unfolding(crate::proofs::OnLiterals::digits_on_literals))]
pub fn worked()
    ensures number { register_line (between 16 128) 4 (kind.Number (single 7)) ≡ codes "  r4: the number 7\n" }
    ensures range { register_line (between 16 128) 4 (kind.Number (between 0 255)) ≡ codes "  r4: a number from 0 to 255\n" }
    ensures any { register_line (between 16 128) 3 (kind.Number (between 0 (2 ^ 64 - 1))) ≡ codes "  r3: any number\n" }
    ensures pointer { register_line (between 16 128) 1 (kind.Pointer region.Record (record { lo = pos 0; hi = pos 8 })) ≡ codes "  r1: a pointer to the record's start plus 0 to 8\n" }
    ensures length { register_line (between 16 128) 2 kind.Length ≡ codes "  r2: the record's length, 16 to 128\n" }
    ensures nothing { register_line (between 16 128) 0 kind.Unset ≡ [] }
    ensures not_reached { states_text (insn.Exit ∷ []) (None ∷ []) ≡ codes "unit 0: exit\n" }
    ensures flow { IsTold {X = ℕ} (fault.Flow 7 FallsOff) None → ⊥ }
    ensures rule { IsTold {X = ℕ} (fault.Rule 7 AnswerKind) None → ⊥ }
    ensures entry { IsTold {X = ℕ} fault.Entry (Some 7) → ⊥ }
    ensures out_of_memory { IsTold {X = ℕ} fault.OutOfMemory (Some 7) → ⊥ }
    ensures exit_code { IsToldOfCode {X = ℕ} (149 ∷ 0 ∷ 0 ∷ 0 ∷ 0 ∷ 0 ∷ 0 ∷ 0 ∷ []) (fault.Flow 0 FallsOff) None → ⊥ }
{}
