//! Worked values of the lines that are printed, and of programs with their certificates.

ghost use Rattle.std.specs.Prelude.{◌≡◌, ℕ, List, [], ◌∷◌, length, true, false, Some, codes};
ghost use Rattle.bq_check.specs.Certificate.{Certificate};
ghost use Rattle.bq_insn.specs.declared.fault.DecodeFault.TheVariants as decode_fault;
ghost use Rattle.bq_insn.specs.declared.insn.Insn.TheVariants as insn;
ghost use Rattle.bq_range.specs.Interval.{between};
ghost use Rattle.q_history.specs.declared.event.EventAnswer.TheVariants as told;
ghost use Rattle.q_told.specs.Line.{line_of};
ghost use Rattle.q_told.specs.Printing.{TellsPair, is_over, message_lines, pair_line, told_lines};
ghost use Rattle.q_told.specs.Programs.{IsProgram, program_lengths};
ghost use Rattle.q_told.specs.Refusal as refusal;
ghost use Rattle.q_told.specs.declared.refusal.RefusalPlace.TheVariants as at;
ghost use Rattle.q_told.specs.declared.refusal.Refusal.{Refusal};
ghost use Rattle.q_told.specs.declared.refusal.Refusal.TheVariants as refused;
ghost use Rattle.reasons.specs.declared.Reason.TheVariants as reason;
ghost use Rattle.sc_msg.specs.declared.message.Body.TheVariants as body;
ghost use Rattle.sc_world.specs.Operations.{IsMeeting};
ghost use Rattle.sc_world.specs.declared.op.Op.{Op};

/// What the definitions say of the lines of refusals, of printed lines, and of programs.
#[tactic(auto, unfolding(q_script::proofs::OnLiterals::digits_on_literals))]
pub fn worked()
    // The lines of refusals, by their reasons and their places.
    ensures without_place { line_of reason.OutOfMemory at.Untold ≡ codes "refused 99 OutOfMemory\n" }
    ensures at_a_unit { line_of reason.Backward (at.Unit 3) ≡ codes "refused 11 Backward at 3\n" }
    ensures on_a_line { line_of reason.Syntax (at.Line 7) ≡ codes "refused 9 Syntax line 7\n" }
    ensures of_a_script { (r : Refusal) → refusal.reason r ≡ reason.Syntax → refusal.place r ≡ at.Line 7 → refusal.refusal_line r ≡ codes "refused 9 Syntax line 7\n" }
    ensures place_of_bytes { (fault : _) → refusal.place (refused.Bytes (decode_fault.At 3 fault)) ≡ at.Unit 3 }
    ensures want_of_memory_is_told { refusal.refusal_line refused.OutOfMemory ≡ codes "refused 99 OutOfMemory\n" }

    // What is printed of events and of pairs.
    ensures answer { told_lines (told.Finished (record { node = 1; query = 0; ran = record { acc = 5; steps = 9 } })) ≡ codes "answer 1 0 5 9\n" }
    ensures message { message_lines (record { from = 3; body = body.Enter } ∷ []) 0 1 ≡ codes "message 0 enter\n" }
    ensures at_the_end { is_over (Some 3) 3 ≡ false }
    ensures behind_the_end { is_over (Some 3) 4 ≡ true }
    ensures meeting { (store collect : Op) (text : List ℕ) → TellsPair (store, collect) text → (least : _) × IsMeeting store collect least × (text ≡ pair_line store collect least) }

    // Programs: the bytes are those of the program, and it may read 16 bytes of a record without a look at its length.
    ensures lengths { program_lengths ≡ between 16 128 }
    ensures other_bytes { (code : List ℕ) (certificate : Certificate) → certificate.text ≡ insn.Exit ∷ [] → length code ≡ 16 → IsProgram code certificate → ⊥ }
{}
