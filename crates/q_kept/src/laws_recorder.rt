//! Laws of books that grow and of what is recorded of them, each the contract of a function that does nothing. Whoever
//! needs one at a step calls it there.

ghost use Rattle.std.specs.Prelude.{◌≡◌, ℕ, List, Option};
ghost use Rattle.q_desk.specs.declared.journal.Entry.{Entry};
ghost use Rattle.q_book.specs.State.{BookState};
ghost use Rattle.q_book.specs.Replays.{Follows, Replays};
ghost use Rattle.q_kept.specs.State.{RecorderState};
ghost use Rattle.q_kept.specs.Recording.{Grows, IsRecorded};

/// A book grows by each call that it accepts.
pub fn books_grow()
    ensures same { (b : BookState) → Grows b b }
    ensures again { (b c d : BookState) → Grows b c → Grows c d → Grows b d }
    ensures call { (b c : BookState) (e : Entry) → Follows b e c → Grows b c }
    ensures calls { (b c : BookState) (es : List Entry) → Replays b es c → Grows b c }
{}

/// What a file holds of the journal of a book, it holds of the journal of the book that grew.
pub fn recorded_stays()
    ensures { (first : Option (List ℕ)) (b c : BookState) (r : RecorderState) → Grows b c → IsRecorded first b r → IsRecorded first c r }
{}
