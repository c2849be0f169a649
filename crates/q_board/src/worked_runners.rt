//! Worked values of looks in turn, and of what the pump counts.

ghost use Rattle.std.specs.Prelude.{◌≡◌, [], ◌∷◌, Some, None};
ghost use Rattle.q_session.specs.declared.job.Job.{Job};
ghost use Rattle.q_board.specs.AskerModel.{AskerModel};
ghost use Rattle.q_book.specs.State.{BookState};
ghost use Rattle.q_board.specs.Pumped.{Pumped, open_slots};
ghost use Rattle.q_board.specs.Served.{turns};

/// What the definitions say at telling operands.
pub fn worked()
    ensures after_the_last { turns 3 2 2 ≡ 2 ∷ 0 ∷ [] }
    ensures open { (j : Job) → open_slots 8 (None ∷ Some j ∷ None ∷ Some j ∷ []) ≡ 9 ∷ 11 ∷ [] }
    ensures none_accepted { (a a' : AskerModel) (b b' : BookState) (p : Pumped a b 1 a' b') → p.carries.accepted ≡ [] → ⊥ }
{}
