//! Worked values of what is said to a leave, of what waits and is written, and of what is told at the end.

ghost use Rattle.std.specs.Prelude.{◌≡◌, List, [], ◌∷◌, Option, None, Ok, Err, true, false};
ghost use Rattle.reasons.specs.declared.Reason.TheVariants as reasons;
ghost use Rattle.sc_msg.specs.declared.message.Message.{Message as Sent};
ghost use Rattle.reasons.specs.declared.Reason.{Reason as NoAnswer};
ghost use Rattle.q_book.specs.State.{BookState};
ghost use Rattle.q_book.specs.Books.{left};
ghost use Rattle.reasons.specs.declared.Reason.{Reason as Fault};
ghost use Rattle.q_kept.specs.State.{RecorderState};
ghost use Rattle.q_kept.specs.declared.fault.Unrecorded.TheVariants as unrecorded;
ghost use Rattle.q_kept.specs.declared.letter.Letter.{Letter as Given};
ghost use Rattle.q_kept.specs.Sample.{both};
ghost use Rattle.q_node.specs.declared.console.Said.TheVariants as said;
ghost use Rattle.q_node.specs.State.{OwnState};
ghost use Rattle.q_node.specs.Calls.{Finishes, IsGiven, LeavesAndSettles, is_behind, is_open, is_told, said_to_leave};

/// What the definitions say at telling operands.
pub fn worked()
    // A leave is done where the book took it and that is written; else why not is said.
    ensures done { (r : RecorderState) → said_to_leave (Ok (tt {0})) true r ≡ said.Done }
    ensures refused { (r : RecorderState) → said_to_leave (Err reasons.Gone) true r ≡ said.Refused reasons.Gone }
    ensures mute { (r : RecorderState) → said_to_leave (Ok (tt {0})) false (record r { broken = true }) ≡ said.Refused reasons.FileFailed }
    ensures no_memory { (r : RecorderState) → said_to_leave (Ok (tt {0})) false (record r { broken = false }) ≡ said.Refused reasons.OutOfMemory }
    ensures undone { (old new : OwnState) (letters : Option (List Given)) (f : Fault) → left old.book ≡ Err f → LeavesAndSettles old said.Done letters new → ⊥ }

    // Two events are not told as one, and a file that failed as no journal that is written.
    ensures two_events { (r s : RecorderState) (b : BookState) → b.desk.journal ≡ both → Finishes r b (Ok 1) s → ⊥ }
    ensures failed { (r s : RecorderState) (b : BookState) → Finishes r b (Err unrecorded.Failed) s → s.broken ≡ true }

    // Something is behind where a message waits or an event is not written; what is told is all written.
    ensures waits { (o : OwnState) (m : Sent) → is_behind (record o { waiting = m ∷ [] }) ≡ true }
    ensures behind { (o : OwnState) → o.waiting ≡ [] → o.recorder.written ≡ 1 → o.book.desk.journal ≡ both → is_behind o ≡ true }
    ensures nothing { (o : OwnState) → o.waiting ≡ [] → o.recorder.written ≡ 2 → o.book.desk.journal ≡ both → is_behind o ≡ false }
    ensures told { (o : OwnState) → o.recorder.broken ≡ false → o.recorder.written ≡ 2 → o.book.desk.journal ≡ both → is_told o ≡ true }
    ensures untold { (o : OwnState) → o.recorder.broken ≡ true → is_told o ≡ false }

    // Where no letters are given all messages wait on.
    ensures all_wait { (old new : OwnState) → IsGiven old None new → new.waiting ≡ old.waiting }

    // A query is open where it has no answer yet, and not where it never will have one.
    ensures open { is_open (Ok None) ≡ true }
    ensures never { (e : NoAnswer) → is_open (Err e) ≡ false }
{}
