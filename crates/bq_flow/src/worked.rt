//! Worked values of the definitions of flow.

ghost use Rattle.std.specs.Prelude.{◌≡◌, [], ◌∷◌, pos, negsuc, Some, None};
ghost use Rattle.reasons.specs.Table as table;
ghost use Rattle.bq_word.specs.declared.Width.TheVariants.{W64};
ghost use Rattle.bq_word.specs.declared.Relation.TheVariants.{Equal};
ghost use Rattle.bq_insn.specs.declared.insn.Insn.TheVariants as insn;
ghost use Rattle.bq_insn.specs.declared.insn.Operand.TheVariants.{Number};
ghost use Rattle.bq_flow.specs.declared.fault.FlowRule.TheVariants as rule;
ghost use Rattle.bq_flow.specs.declared.fault.FlowFault.TheVariants as fault;
ghost use Rattle.bq_flow.specs.Successors.{successors};
ghost use Rattle.bq_insn.specs.Slots.{insn_at};
ghost use Rattle.bq_flow.specs.Paths.{IsLegalFlow, IsLongest};
ghost use Rattle.bq_flow.specs.Flow.{successors_at};
ghost use Rattle.bq_flow.specs.Faults.{flow_fault, rule_reason, reason, IsFlowFault};

/// What the definitions say at telling operands.
pub fn worked()
    // Where control may go from unit 3.
    ensures behind { successors 3 (insn.Negate W64 1) ≡ pos 4 ∷ [] }
    ensures behind_wide { successors 3 (insn.Wide 1 7) ≡ pos 5 ∷ [] }
    ensures jumped { successors 3 (insn.Jump (pos 2)) ≡ pos 6 ∷ [] }
    ensures jumped_far { successors 3 (insn.JumpFar (pos 40000)) ≡ pos 40004 ∷ [] }
    ensures jumped_back { successors 3 (insn.Jump (negsuc 5)) ≡ negsuc 1 ∷ [] }
    ensures branched { successors 3 (insn.Branch W64 Equal 1 (Number (pos 7)) (pos 2)) ≡ pos 4 ∷ pos 6 ∷ [] }
    ensures ended { successors 3 insn.Exit ≡ [] }

    // Which instruction begins at a unit.
    ensures second_half { insn_at (insn.Wide 1 7 ∷ insn.Exit ∷ []) 1 ≡ None }
    ensures of_the_second_half { successors_at (insn.Wide 1 7 ∷ insn.Exit ∷ []) 1 ≡ [] }
    ensures of_the_second_unit { successors_at (insn.Exit ∷ insn.Jump (pos 0) ∷ []) 1 ≡ pos 2 ∷ [] }
    ensures after_wide { insn_at (insn.Wide 1 7 ∷ insn.Exit ∷ []) 2 ≡ Some insn.Exit }

    // What is first wrong with the flow of an instruction.
    ensures own_unit { flow_fault (insn.Jump (negsuc 0) ∷ insn.Exit ∷ []) 0 (insn.Jump (negsuc 0)) ≡ Some rule.Backward }
    ensures before_the_text { flow_fault (insn.Jump (negsuc 5) ∷ insn.Exit ∷ []) 0 (insn.Jump (negsuc 5)) ≡ Some rule.Backward }
    ensures past_the_end { flow_fault (insn.Jump (pos 1) ∷ insn.Exit ∷ []) 0 (insn.Jump (pos 1)) ≡ Some rule.OutsideText }
    ensures far_past_the_end { flow_fault (insn.JumpFar (pos 1) ∷ insn.Exit ∷ []) 0 (insn.JumpFar (pos 1)) ≡ Some rule.OutsideText }
    ensures into_wide { flow_fault (insn.Jump (pos 1) ∷ insn.Wide 1 7 ∷ insn.Exit ∷ []) 0 (insn.Jump (pos 1)) ≡ Some rule.IntoWide }
    ensures to_the_end { flow_fault (insn.Jump (pos 2) ∷ insn.Wide 1 7 ∷ insn.Exit ∷ []) 0 (insn.Jump (pos 2)) ≡ None }
    ensures falls_off { flow_fault (insn.Wide 1 7 ∷ []) 0 (insn.Wide 1 7) ≡ Some rule.FallsOff }

    // What is first wrong with a text.
    ensures faulty { IsFlowFault (insn.Jump (negsuc 0) ∷ insn.Exit ∷ []) (fault.At 0 rule.Backward) }
    ensures faulty_elsewhere { IsFlowFault (insn.Jump (negsuc 0) ∷ insn.Exit ∷ []) (fault.At 1 rule.Backward) → ⊥ }
    ensures not_first { IsFlowFault (insn.Jump (negsuc 0) ∷ insn.Negate W64 0 ∷ []) (fault.At 1 rule.FallsOff) → ⊥ }
    ensures not_legal { IsLegalFlow (insn.Jump (negsuc 0) ∷ insn.Exit ∷ []) → ⊥ }

    // The longest path.
    ensures exit_alone { IsLongest (insn.Exit ∷ []) 1 }
    ensures longer_than_all { IsLongest (insn.Exit ∷ []) 4294967295 → ⊥ }
    ensures shorter_way { IsLongest (insn.Branch W64 Equal 1 (Number (pos 7)) (pos 1) ∷ insn.Negate W64 1 ∷ insn.Exit ∷ []) 2 → ⊥ }

    // The numbers of the faults.
    ensures backward { table.number (rule_reason rule.Backward) ≡ 11 }
    ensures outside_text { table.number (rule_reason rule.OutsideText) ≡ 12 }
    ensures wide_number { table.number (rule_reason rule.IntoWide) ≡ 13 }
    ensures at_a_unit { table.number (reason (fault.At 3 rule.FallsOff)) ≡ 14 }
    ensures out_of_memory { table.number (reason fault.OutOfMemory) ≡ 99 }
{}
