//! Worked values of the rules.

ghost use Rattle.std.specs.Prelude.{◌≡◌, [], ◌∷◌, ◌++◌, ℕ, pos, negsuc, replicate, true, false, Some, None, Ok, Err};
ghost use Rattle.reasons.specs.Table as table;
ghost use Rattle.bq_word.specs.declared.Width.TheVariants.{W32, W64};
ghost use Rattle.bq_word.specs.declared.AluOp.TheVariants as op;
ghost use Rattle.bq_word.specs.declared.Relation.TheVariants as relation;
ghost use Rattle.bq_insn.specs.declared.insn.Insn.TheVariants as insn;
ghost use Rattle.bq_insn.specs.declared.insn.Operand.TheVariants as operand;
ghost use Rattle.bq_insn.specs.declared.insn.ByteOrder.TheVariants.{Big, Little};
ghost use Rattle.bq_insn.specs.declared.insn.Extension.TheVariants.{W64From8};
ghost use Rattle.bq_insn.specs.declared.insn.Size.TheVariants as size;
ghost use Rattle.bq_range.specs.Interval.{between, single, all_words};
ghost use Rattle.bq_state.specs.declared.edges.Onward.TheVariants.{To};
ghost use Rattle.bq_state.specs.declared.kind.Kind.TheVariants as kind;
ghost use Rattle.bq_state.specs.declared.region.Region.TheVariants as region;
ghost use Rattle.bq_state.specs.declared.rule.Rule.TheVariants as rule;
ghost use Rattle.bq_state.specs.Offsets.{Span, IsSpan, at_offset, join_spans, moved_on, moved_back, fits};
ghost use Rattle.bq_state.specs.Kinds.{AreLengths, KindCovers, StateCovers, all_lengths, as_number, entry_state, join_kinds, join_states, kind_of, state_of, view_lengths};
ghost use Rattle.bq_state.specs.Rules.{known, writable, number, storable, alu_kind, ordered_range, operand_kind, taken_kind, transfer};
ghost use Rattle.bq_state.specs.Edges.{refined, edges};
ghost use Rattle.bq_state.specs.InPlace.{way};
ghost use Rattle.bq_state.specs.Onward.{IsOnward};
ghost use Rattle.bq_state.specs.Plain.{IsPlain};
ghost use Rattle.bq_state.specs.Reasons.{reason};

/// What the definitions say at telling operands.
pub fn worked()
    // Offsets.
    ensures one { at_offset (negsuc 7) ≡ record { lo = negsuc 7; hi = negsuc 7 } }
    ensures widest { IsSpan (record { lo = negsuc 65535; hi = pos 65536 }) }
    ensures too_low { IsSpan (record { lo = negsuc 65536; hi = pos 0 }) → ⊥ }
    ensures too_high { IsSpan (record { lo = pos 0; hi = pos 65537 }) → ⊥ }
    ensures falling { IsSpan (record { lo = pos 3; hi = pos 1 }) → ⊥ }
    ensures least { (join_spans (at_offset (pos 3)) (at_offset (pos 9))).lo ≡ pos 3 }
    ensures greatest { (join_spans (at_offset (pos 3)) (at_offset (pos 9))).hi ≡ pos 9 }
    ensures joined { join_spans (record { lo = pos 3; hi = pos 4 }) (record { lo = negsuc 0; hi = pos 9 }) ≡ record { lo = negsuc 0; hi = pos 9 } }
    ensures on { moved_on (record { lo = pos 1; hi = pos 2 }) (between 3 5) ≡ Some (record { lo = pos 4; hi = pos 7 }) }
    ensures on_by_less { moved_on (at_offset (pos 512)) (single 18446744073709551608) ≡ Some (at_offset (pos 504)) }
    ensures back { moved_back (record { lo = pos 8; hi = pos 9 }) (between 3 5) ≡ Some (record { lo = pos 3; hi = pos 6 }) }
    ensures past_the_limit { moved_on (at_offset (pos 65536)) (single 1) ≡ None }
    ensures to_the_limit { moved_on (at_offset (pos 0)) (single 65536) ≡ Some (at_offset (pos 65536)) }
    ensures fits_up_to_the_end { fits (record { lo = pos 0; hi = pos 504 }) (pos 0) 8 512 ≡ true }
    ensures past_the_end { fits (record { lo = pos 0; hi = pos 505 }) (pos 0) 8 512 ≡ false }
    ensures past_the_end_by_distance { fits (at_offset (pos 504)) (pos 1) 8 512 ≡ false }
    ensures before_the_start { fits (at_offset (pos 4)) (negsuc 4) 1 512 ≡ false }

    // Kinds.
    ensures covered { KindCovers (single 64) (kind.Pointer region.Frame (record { lo = pos 1; hi = pos 3 })) (kind.Pointer region.Frame (at_offset (pos 3))) }
    ensures not_covered { KindCovers (single 64) (kind.Pointer region.Frame (at_offset (pos 1))) (kind.Pointer region.Frame (at_offset (pos 3))) → ⊥ }
    ensures not_of_that_region { KindCovers (single 64) (kind.Pointer region.Frame (at_offset (pos 1))) (kind.Pointer region.Record (at_offset (pos 1))) → ⊥ }
    ensures joined_pointers { join_kinds (single 64) (single 64) (kind.Pointer region.Frame (at_offset (pos 1))) (kind.Pointer region.Frame (at_offset (pos 3))) ≡ kind.Pointer region.Frame (record { lo = pos 1; hi = pos 3 }) }
    ensures joined_others { join_kinds (single 64) (single 64) (kind.Pointer region.Frame (at_offset (pos 1))) (kind.Pointer region.Record (at_offset (pos 1))) ≡ kind.Unset }
    ensures numbers { alu_kind (single 64) W64 op.Sub (kind.Number (single 7)) (kind.Number (single 2)) ≡ Some (kind.Number (single 5)) }
    ensures pointer_on { alu_kind (single 64) W64 op.Add (kind.Number (single 2)) (kind.Pointer region.Record (at_offset (pos 1))) ≡ Some (kind.Pointer region.Record (at_offset (pos 3))) }
    ensures pointer_back { alu_kind (single 64) W64 op.Sub (kind.Pointer region.Frame (at_offset (pos 512))) (kind.Number (single 8)) ≡ Some (kind.Pointer region.Frame (at_offset (pos 504))) }
    ensures pointer_taken_away { alu_kind (single 64) W64 op.Sub (kind.Number (single 8)) (kind.Pointer region.Frame (at_offset (pos 512))) ≡ None }
    ensures pointer_of_32_bits { alu_kind (single 64) W32 op.Add (kind.Pointer region.Frame (at_offset (pos 512))) (kind.Number (single 8)) ≡ None }
    ensures little { ordered_range Little 16 (single 4660) ≡ single 4660 }
    ensures big { ordered_range Big 16 (single 4660) ≡ single 13330 }

    // Lengths.
    ensures least_of_all { AreLengths (between 16 128) }
    ensures too_short { AreLengths (between 15 128) → ⊥ }
    ensures too_long { AreLengths (between 16 129) → ⊥ }
    ensures all { all_lengths ≡ between 16 128 }
    ensures of_views { view_lengths ≡ single 64 }
    ensures length_read { as_number (between 16 128) kind.Length ≡ kind.Number (between 16 128) }
    ensures length_covered { KindCovers (between 16 40) (kind.Number (between 10 40)) kind.Length }
    ensures length_not_covered { KindCovers (between 16 41) (kind.Number (between 10 40)) kind.Length → ⊥ }
    ensures number_is_no_length { KindCovers (single 64) kind.Length (kind.Number (single 64)) → ⊥ }
    ensures length_or_number { join_kinds (between 16 40) (single 64) kind.Length (kind.Number (single 7)) ≡ kind.Number (between 7 40) }
    ensures number_or_length { join_kinds (single 64) (between 16 40) (kind.Number (single 50)) kind.Length ≡ kind.Number (between 16 50) }
    ensures lengths_joined { join_states (state_of (kind.Length ∷ []) (between 16 40)) (state_of (kind.Length ∷ []) (between 60 128)) ≡ state_of (kind.Length ∷ []) (between 16 128) }
    ensures length_copied { alu_kind (between 16 128) W64 op.Mov (kind.Number (single 0)) kind.Length ≡ Some kind.Length }
    ensures length_added { alu_kind (between 16 128) W64 op.Add (kind.Number (single 1)) kind.Length ≡ Some (kind.Number (between 17 129)) }

    // States.
    ensures of_a_register { kind_of (state_of (kind.Unset ∷ kind.Number (single 5) ∷ []) (single 64)) 1 ≡ kind.Number (single 5) }
    ensures of_the_record { kind_of (entry_state (single 64)) 1 ≡ kind.Pointer region.Record (at_offset (pos 0)) }
    ensures of_the_length { kind_of (entry_state (single 64)) 2 ≡ kind.Number (single 64) }
    ensures of_a_length { kind_of (entry_state (between 16 128)) 2 ≡ kind.Length }
    ensures of_the_accumulator { kind_of (entry_state (single 64)) 3 ≡ kind.Number all_words }
    ensures of_the_frame { kind_of (entry_state (single 64)) 10 ≡ kind.Pointer region.Frame (at_offset (pos 512)) }
    ensures of_the_others { kind_of (entry_state (single 64)) 0 ≡ kind.Unset }
    ensures joined_states { join_states (state_of (kind.Number (single 3) ∷ kind.Unset ∷ []) (single 64)) (state_of (kind.Number (single 5) ∷ kind.Number (single 7) ∷ []) (single 64)) ≡ state_of (kind.Number (between 3 5) ∷ kind.Unset ∷ []) (single 64) }
    ensures second_not_covered { StateCovers (state_of (kind.Unset ∷ kind.Number (single 5) ∷ []) (single 64)) (state_of (kind.Unset ∷ kind.Unset ∷ []) (single 64)) → ⊥ }
    ensures lengths_not_covered { StateCovers (state_of [] (single 64)) (state_of [] (between 16 128)) → ⊥ }
    ensures length_not_plain { IsPlain 64 (state_of (kind.Length ∷ []) (single 64)) → ⊥ }

    // Rules.
    ensures unset { known kind.Unset ≡ Err rule.UnsetRegister }
    ensures last_written { writable 9 ≡ Ok tt }
    ensures never_written { writable 10 ≡ Err rule.FramePointerWritten }
    ensures no_number { number rule.AnswerKind (kind.Pointer region.Frame (at_offset (pos 0))) ≡ Err rule.AnswerKind }
    ensures stored { storable (kind.Pointer region.Frame (at_offset (pos 504))) (kind.Number all_words) (pos 0) 8 ≡ Ok tt }
    ensures stored_behind { storable (kind.Pointer region.Frame (at_offset (pos 504))) (kind.Number all_words) (pos 1) 8 ≡ Err rule.OutsideFrame }
    ensures stored_into_the_record { storable (kind.Pointer region.Record (at_offset (pos 0))) (kind.Number all_words) (pos 0) 1 ≡ Err rule.RecordWritten }
    ensures answer { table.number (reason rule.AnswerKind) ≡ 30 }
    ensures frame_pointer { table.number (reason rule.FramePointerWritten) ≡ 28 }

    // What an instruction makes of a state, or the rule that it breaks.
    ensures low_halves { transfer (insn.Alu W32 op.Add 0 (operand.Number (pos 1))) (state_of (kind.Number (single 4294967295) ∷ []) (single 64)) ≡ Ok (state_of (kind.Number (single 0) ∷ []) (single 64)) }
    ensures of_its_source { transfer (insn.Extend W64From8 1 0) (state_of (kind.Number (single 128) ∷ kind.Unset ∷ []) (single 64)) ≡ Ok (state_of (kind.Number (single 128) ∷ kind.Number (single 18446744073709551488) ∷ []) (single 64)) }
    ensures into_the_last { transfer (insn.Wide 9 7) (state_of (replicate 10 kind.Unset) (single 64)) ≡ Ok (state_of (replicate 9 kind.Unset ++ kind.Number (single 7) ∷ []) (single 64)) }
    ensures loaded { transfer (insn.Load size.B4 0 0 (pos 60)) (state_of (kind.Pointer region.Record (at_offset (pos 0)) ∷ []) (single 64)) ≡ Ok (state_of (kind.Number (between 0 4294967295) ∷ []) (single 64)) }
    ensures loaded_behind { transfer (insn.Load size.B4 0 0 (pos 61)) (state_of (kind.Pointer region.Record (at_offset (pos 0)) ∷ []) (single 64)) ≡ Err rule.OutsideRecord }
    ensures loaded_of_the_least { transfer (insn.Load size.B8 0 0 (pos 8)) (state_of (kind.Pointer region.Record (at_offset (pos 0)) ∷ []) (between 16 128)) ≡ Ok (state_of (kind.Number all_words ∷ []) (between 16 128)) }
    ensures loaded_behind_the_least { transfer (insn.Load size.B8 0 0 (pos 9)) (state_of (kind.Pointer region.Record (at_offset (pos 0)) ∷ []) (between 16 128)) ≡ Err rule.OutsideRecord }
    ensures compared { transfer (insn.Branch W64 relation.Equal 0 (operand.Register 1) (pos 2)) (state_of (kind.Number (single 1) ∷ kind.Pointer region.Frame (at_offset (pos 0)) ∷ []) (single 64)) ≡ Err rule.WrongKind }
    ensures answered { transfer insn.Exit (state_of (kind.Pointer region.Frame (at_offset (pos 0)) ∷ []) (single 64)) ≡ Err rule.AnswerKind }

    // What an instruction reads: a move has no use for what its destination held.
    ensures extended { operand_kind (state_of [] (single 64)) (operand.Number (negsuc 0)) ≡ kind.Number (single 18446744073709551615) }
    ensures moved { taken_kind (state_of (kind.Unset ∷ []) (single 64)) op.Mov 0 ≡ kind.Number (single 0) }
    ensures not_moved { taken_kind (state_of (kind.Unset ∷ []) (single 64)) op.Add 0 ≡ kind.Unset }

    // Edges.
    ensures cut { refined (state_of (kind.Number (between 0 4294967295) ∷ []) (single 64)) W32 relation.Equal true 0 (operand.Number (negsuc 0)) ≡ Some (state_of (kind.Number (single 4294967295) ∷ []) (single 64)) }
    ensures both_registers { refined (state_of (kind.Number (between 0 9) ∷ kind.Number (between 5 20) ∷ []) (single 64)) W64 relation.GreaterOrEqual true 0 (operand.Register 1) ≡ Some (state_of (kind.Number (between 5 9) ∷ kind.Number (between 5 9) ∷ []) (single 64)) }
    ensures each_register { refined (state_of (kind.Number (between 0 20) ∷ kind.Number (between 5 10) ∷ []) (single 64)) W64 relation.Less true 0 (operand.Register 1) ≡ Some (state_of (kind.Number (between 0 9) ∷ kind.Number (between 5 10) ∷ []) (single 64)) }
    ensures longer { refined (state_of (kind.Length ∷ []) (between 16 128)) W64 relation.Less false 0 (operand.Number (pos 24)) ≡ Some (state_of (kind.Length ∷ []) (between 24 128)) }
    ensures shorter { refined (state_of (kind.Length ∷ []) (between 16 128)) W64 relation.Less true 0 (operand.Number (pos 24)) ≡ Some (state_of (kind.Length ∷ []) (between 16 23)) }
    ensures never_so_short { refined (state_of (kind.Length ∷ []) (between 16 128)) W64 relation.Less true 0 (operand.Number (pos 16)) ≡ None }
    ensures both_lengths { refined (state_of (kind.Length ∷ kind.Length ∷ []) (between 16 128)) W64 relation.Less true 0 (operand.Register 1) ≡ Some (state_of (kind.Length ∷ kind.Length ∷ []) (between 17 127)) }
    ensures itself { refined (state_of (kind.Number (between 0 9) ∷ []) (single 64)) W64 relation.Less true 0 (operand.Register 0) ≡ Some (state_of (kind.Number (between 0 9) ∷ []) (single 64)) }
    ensures behind_wide { edges 3 (insn.Wide 1 7) (state_of [] (single 64)) ≡ (5, state_of [] (single 64)) ∷ [] }
    ensures jumped { edges 3 (insn.Jump (pos 2)) (state_of [] (single 64)) ≡ (6, state_of [] (single 64)) ∷ [] }
    ensures ended { edges 3 insn.Exit (state_of [] (single 64)) ≡ [] }
    ensures branched { edges 3 (insn.Branch W64 relation.Less 0 (operand.Number (pos 4)) (pos 2)) (state_of (kind.Number (between 0 9) ∷ []) (single 64)) ≡ (4, state_of (kind.Number (between 4 9) ∷ []) (single 64)) ∷ (6, state_of (kind.Number (between 0 3) ∷ []) (single 64)) ∷ [] }
    ensures way_behind { way 3 (insn.Branch W64 relation.Less 0 (operand.Number (pos 4)) (pos 2)) false (state_of (kind.Number (between 0 9) ∷ []) (single 64)) ≡ (4, state_of (kind.Number (between 4 9) ∷ []) (single 64)) ∷ [] }
    ensures way_of_the_jump { way 3 (insn.Branch W64 relation.Less 0 (operand.Number (pos 4)) (pos 2)) true (state_of (kind.Number (between 0 9) ∷ []) (single 64)) ≡ (6, state_of (kind.Number (between 0 3) ∷ []) (single 64)) ∷ [] }
    ensures not_into_wide { IsOnward (To 4) 3 (insn.Wide 1 7) → ⊥ }
{}
