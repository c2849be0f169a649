//! Worked values of tables of programs.

ghost use Rattle.std.specs.Prelude.{◌≡◌, ◌++◌, [], ◌∷◌, List, length, slice_get, true, false, Some, None, Ok, Err};
ghost use Rattle.bq_check.specs.Certificate.{Certificate};
ghost use Rattle.bq_insn.specs.declared.insn.Insn.TheVariants as insn;
ghost use Rattle.q_table.specs.Programs.{is_same_text, id_of, program_id, registered, checked};
ghost use Rattle.reasons.specs.declared.Reason.TheVariants as reasons;

/// What the definitions say at telling operands.
#[tactic(auto, unfolding(bq_insn::specs::Insn::unit_bytes))]
pub fn worked()
    // Texts.
    ensures one_text { is_same_text (insn.Exit ∷ []) (insn.Exit ∷ []) ≡ true }
    ensures longer_text { is_same_text (insn.Exit ∷ []) (insn.Exit ∷ insn.Exit ∷ []) ≡ false }

    // A text that is there keeps its id and its first certificate; the 1,025th is refused. An id is a place.
    ensures first { (c : Certificate) → registered [] c ≡ Ok (0, c ∷ []) }
    ensures another { (c d : Certificate) → is_same_text d.text c.text ≡ false → registered (c ∷ []) d ≡ Ok (1, c ∷ d ∷ []) }
    ensures again { (c d e : Certificate) → is_same_text e.text c.text ≡ true → registered (c ∷ d ∷ []) e ≡ Ok (0, c ∷ d ∷ []) }
    ensures last { (programs : List Certificate) (c : Certificate) → id_of programs c.text ≡ None → length programs ≡ 1023 → registered programs c ≡ Ok (1023, programs ++ c ∷ []) }
    ensures full { (programs : List Certificate) (c : Certificate) → id_of programs c.text ≡ None → length programs ≡ 1024 → registered programs c ≡ Err reasons.TableFull }
    ensures checked_full { (programs : List Certificate) (c : Certificate) → id_of programs c.text ≡ None → length programs ≡ 1024 → checked programs c ≡ Err reasons.TableFull }
    ensures checked_again { (programs : List Certificate) (c : Certificate) → id_of programs c.text ≡ Some 7 → checked programs c ≡ Ok tt }
    ensures greatest_program { program_id 4294967296 ≡ 4294967295 }
    ensures at_its_place { (c d : Certificate) → slice_get (c ∷ d ∷ []) 1 ≡ Some d }
{}
