//! Worked values of the longest beginning of bytes that is a journal.

ghost use Rattle.std.specs.Prelude.{◌++◌, ◌∷◌, List, [], ℕ};
ghost use Rattle.q_book.specs.State.{BookState};
ghost use Rattle.q_replay.specs.Journal.{journal_of};
ghost use Rattle.q_beginning.specs.Beginning.{IsBeginning, IsCut};

/// What the definitions say of bytes that are cut.
#[tactic(auto, using(crate::proofs::Outcomes::longer))]
pub fn worked()
    ensures too_few { IsCut (7 ∷ 24 ∷ 0 ∷ 0 ∷ []) }

    // An event of five bytes whose body has none is whole, so it is not cut; and no byte after a journal is kept.
    ensures whole_event { (kept : List ℕ) (b : BookState)
        → IsBeginning (kept ++ 9 ∷ 0 ∷ 0 ∷ 0 ∷ 0 ∷ []) kept b → ⊥ }
    ensures longer { (b : BookState) → IsBeginning (journal_of b ++ 1 ∷ []) (journal_of b ++ 1 ∷ []) b → ⊥ }
{}
