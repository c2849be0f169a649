//! Worked values of the states of a text.

ghost use Rattle.std.specs.Prelude.{[], ◌∷◌, pos, Some, None};
ghost use Rattle.bq_insn.specs.declared.insn.Insn.TheVariants as insn;
ghost use Rattle.bq_state.specs.Kinds.{all_lengths, entry_state, view_lengths};
ghost use Rattle.bq_verify.specs.States.{AreStates};

/// Which states are not those of a text: the first is that of the entry of these very lengths, and the second comes of
/// the instruction before it.
pub fn worked()
    ensures entry_of_all { AreStates view_lengths (insn.Exit ∷ []) (Some (entry_state all_lengths) ∷ []) 1 → ⊥ }
    ensures entry_of_views { AreStates all_lengths (insn.Exit ∷ []) (Some (entry_state view_lengths) ∷ []) 1 → ⊥ }
    ensures left_out { AreStates view_lengths (insn.Jump (pos 0) ∷ insn.Exit ∷ []) (Some (entry_state view_lengths) ∷ None ∷ []) 1 → ⊥ }
{}
