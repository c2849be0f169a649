//! Worked values of the faults and of the bytes of notes.

ghost use Rattle.std.specs.Prelude.{◌≡◌, [], ◌∷◌, pos, negsuc, Some, None};
ghost use Rattle.reasons.specs.Table as table;
ghost use Rattle.bq_code.specs.Lowered.{IsLowered};
ghost use Rattle.bq_insn.specs.declared.insn.Insn.TheVariants as insn;
ghost use Rattle.bq_range.specs.Interval.{between};
ghost use Rattle.bq_flow.specs.declared.fault.FlowRule.TheVariants.{FallsOff};
ghost use Rattle.bq_flow.specs.declared.fault.FlowFault.TheVariants as flow;
ghost use Rattle.bq_sound.specs.Passes.{note_at, AllFitLengths};
ghost use Rattle.bq_state.specs.Kinds.{all_lengths, state_of, view_lengths};
ghost use Rattle.bq_state.specs.declared.kind.Kind.TheVariants as kind;
ghost use Rattle.bq_state.specs.declared.region.Region.TheVariants as region;
ghost use Rattle.bq_state.specs.declared.rule.Rule.TheVariants.{AnswerKind};
ghost use Rattle.bq_check.specs.declared.fault.CheckFault.TheVariants as fault;
ghost use Rattle.bq_check.specs.declared.fault.NotesFault.TheVariants as notes;
ghost use Rattle.bq_check.specs.declared.form.NotesForm.TheVariants.{First, Second};
ghost use Rattle.bq_check.specs.Reasons.{reason, fault_unit, flow_refusal, notes_reason};
ghost use Rattle.spelling.specs.Numbers.{number_bytes};
ghost use Rattle.bq_check.specs.Spelling.{kind_bytes, note_bytes, notes_bytes};

/// What the definitions say at telling operands.
#[tactic(auto, unfolding(spelling::specs::Numbers::number_bytes))]
pub fn worked()
    // The numbers of the faults, and the units that they name.
    ensures count { table.number (reason fault.WrongCount) ≡ 21 }
    ensures entry { table.number (reason fault.Entry) ≡ 22 }
    ensures not_covered { table.number (reason (fault.NotCovered 7)) ≡ 29 }
    ensures form { table.number (reason (fault.NoteForm 7)) ≡ 31 }
    ensures of_the_flow { table.number (reason (fault.Flow 7 FallsOff)) ≡ 14 }
    ensures of_a_rule { table.number (reason (fault.Rule 7 AnswerKind)) ≡ 30 }
    ensures out_of_memory { table.number (reason fault.OutOfMemory) ≡ 99 }
    ensures form_of_bytes { table.number (notes_reason notes.NoteForm) ≡ 31 }
    ensures told { fault_unit (fault.NotCovered 7) ≡ Some 7 }
    ensures told_of_a_rule { fault_unit (fault.Rule 7 AnswerKind) ≡ Some 7 }
    ensures not_told { fault_unit fault.Entry ≡ None }
    ensures refused { flow_refusal (flow.At 7 FallsOff) ≡ fault.Flow 7 FallsOff }

    // The state at a unit.
    ensures at_a_unit { note_at (None ∷ Some (state_of (kind.Unset ∷ []) view_lengths) ∷ []) 1 ≡ Some (state_of (kind.Unset ∷ []) view_lengths) }
    ensures none { note_at (None ∷ Some (state_of (kind.Unset ∷ []) view_lengths) ∷ []) 0 ≡ None }
    ensures behind_the_end { note_at (Some (state_of (kind.Unset ∷ []) view_lengths) ∷ []) 1 ≡ None }

    // States that do not fit records of one length, and codes that are not those of a text.
    ensures other_lengths { AllFitLengths view_lengths (Some (state_of [] all_lengths) ∷ []) → ⊥ }
    ensures told_as_a_length { AllFitLengths view_lengths (Some (state_of (kind.Length ∷ []) view_lengths) ∷ []) → ⊥ }
    ensures no_codes { IsLowered (insn.Exit ∷ []) [] → ⊥ }

    // The bytes of notes, those of a number from the lowest.
    ensures short { number_bytes 4 258 ≡ 2 ∷ 1 ∷ 0 ∷ 0 ∷ [] }
    ensures long { number_bytes 8 258 ≡ 2 ∷ 1 ∷ 0 ∷ 0 ∷ 0 ∷ 0 ∷ 0 ∷ 0 ∷ [] }
    ensures unset { kind_bytes kind.Unset ≡ 0 ∷ [] }
    ensures number { kind_bytes (kind.Number (between 5 258)) ≡ 1 ∷ 5 ∷ 0 ∷ 0 ∷ 0 ∷ 0 ∷ 0 ∷ 0 ∷ 0 ∷ 2 ∷ 1 ∷ 0 ∷ 0 ∷ 0 ∷ 0 ∷ 0 ∷ 0 ∷ [] }
    ensures frame { kind_bytes (kind.Pointer region.Frame (record { lo = negsuc 1; hi = pos 512 })) ≡ 2 ∷ 254 ∷ 255 ∷ 255 ∷ 255 ∷ 0 ∷ 2 ∷ 0 ∷ 0 ∷ [] }
    ensures into_the_record { kind_bytes (kind.Pointer region.Record (record { lo = pos 0; hi = pos 3 })) ≡ 3 ∷ 0 ∷ 0 ∷ 0 ∷ 0 ∷ 3 ∷ 0 ∷ 0 ∷ 0 ∷ [] }
    ensures length { kind_bytes kind.Length ≡ 4 ∷ [] }
    ensures no_state { note_bytes Second None ≡ 0 ∷ [] }
    ensures state { note_bytes Second (Some (state_of (kind.Unset ∷ kind.Length ∷ []) (between 16 128))) ≡ 1 ∷ 16 ∷ 128 ∷ 0 ∷ 4 ∷ [] }
    ensures first_state { note_bytes First (Some (state_of (kind.Unset ∷ []) view_lengths)) ≡ 1 ∷ 0 ∷ [] }
    ensures two_notes { notes_bytes Second (None ∷ Some (state_of (kind.Unset ∷ []) view_lengths) ∷ []) ≡ 2 ∷ 0 ∷ 0 ∷ 0 ∷ 0 ∷ 1 ∷ 64 ∷ 64 ∷ 0 ∷ [] }
    ensures first_notes { notes_bytes First (None ∷ Some (state_of (kind.Unset ∷ []) view_lengths) ∷ []) ≡ 2 ∷ 0 ∷ 0 ∷ 0 ∷ 0 ∷ 1 ∷ 0 ∷ [] }
{}
