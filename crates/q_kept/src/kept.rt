//! What the lock keeps.

ghost use Rattle.std.specs.Prelude.{◌≡◌, ℕ, List, Option, true, false, if◌then◌else◌, [], map, IfNone, IfSome, IsNone, OnOk};
ghost use Rattle.std.specs.List.{AllByRecursion};
ghost use Rattle.std.specs.Io.KnownBytes.{Appends};
ghost use Rattle.q_book.specs.State.{BookState};
ghost use Rattle.q_replay.specs.Journal.{journal_of};
ghost use Rattle.q_kept.specs.Recording.{Grows, IsRecorded, Records};
ghost use Rattle.q_kept.specs.Giving.{outbox};
ghost use Rattle.q_kept.specs.Letters.{SpellsFirst};
ghost use Rattle.q_kept.specs.Questions.{GoesAgain, due, kept_questions, looked_at};
ghost use Rattle.q_kept.specs.Settling.{GivesNone, GivesWritten, Pumps};

use crate::again::ask_again;
use crate::fault::Unrecorded;
use crate::file::JournalFile;
use crate::giving::give_waiting;
use crate::letter::Letter;
use crate::question::Question;
use crate::recorder::Recorder;
use q_held::LiveNode;
use std::alloc::Global;

/// A node's book with the messages that wait, the recorder of its journal, and what goes again.
#[derive(Drop)]
pub struct Kept<'b, J: JournalFile> {
    /// The book, the messages that wait to be given, and the node's seat at the board.
    pub held: LiveNode<'b>,
    /// The recorder of the book's journal.
    pub recorder: Recorder<J>,
    /// What was given and goes again.
    pub questions: Vec<Question>,
}

impl<'b, J: JournalFile> Kept<'b, J> {
    /// Nothing was given yet.
    pub fn new(alloc: Global, held: LiveNode<'b>, recorder: Recorder<J>) -> Kept<'b, J>
        ensures held { result.held ≡ held.entry }
        ensures recorder { result.recorder ≡ recorder }
        ensures questions { result.questions.items ≡ [] }
    {
        Kept {
            held,
            recorder,
            questions: Vec::new(alloc),
        }
    }

    /// Whether a write failed: nothing is given any more.
    pub fn is_mute(&self) -> bool
        ensures { result ≡ self.now.recorder.broken }
    {
        self.recorder.is_broken()
    }

    /// Looks whether the journal's file is still as it was left; if not, the node is mute from now on. Whether this look
    /// found that.
    pub fn look(&mut self) -> bool
        ensures looked { self.new ≡ (if result then record self.old { recorder = record self.old.recorder { broken = true } } else self.old) }
        ensures once { self.old.recorder.broken ≡ true → result ≡ false }
        ensures recorded { (first : Option (List ℕ)) (b : BookState) → IsRecorded first b self.old.recorder → IsRecorded first b self.new.recorder }
    {
        self.recorder.look()
    }

    /// Pumps, then writes what the file lacks of the book's journal, and only then gives the messages that wait, as
    /// letters. A message for which memory is short waits on, with those behind it.
    ///
    /// None where the journal is not written: at 87, a write that failed now or before, at any later time too; at 99
    /// the messages wait on.
    pub fn settle(&mut self, alloc: Global) -> Option<Vec<Letter>>
        ensures pumped { Pumps self.old.held.asker self.old.held.book self.new.held.asker self.new.held.book }

        // No message leaves before the journal that gave it is written, whole.
        ensures written { IfSome result (λ letters. GivesWritten self.old.recorder self.old.held.book self.new.held.book
            (outbox self.old.held.waiting.items self.old.questions.items self.old.held.unsent) letters.items
            self.new.recorder (outbox self.new.held.waiting.items self.new.questions.items self.new.held.unsent)) }
        ensures unwritten { IfNone result (GivesNone self.old.recorder self.new.held.book
            (outbox self.old.held.waiting.items self.old.questions.items self.old.held.unsent)
            self.new.recorder (outbox self.new.held.waiting.items self.new.questions.items self.new.held.unsent)) }

        // Once mute, always mute.
        ensures mute { self.old.recorder.broken ≡ true → IsNone result × (self.new.recorder ≡ self.old.recorder) }

        // The book grows, and its file is that of its journal still.
        ensures grows { Grows self.old.held.book self.new.held.book }
        ensures recorded { (first : Option (List ℕ)) → IsRecorded first self.old.held.book self.old.recorder →
            IsRecorded first self.new.held.book self.new.recorder }
        ensures lost { self.new.held.lost ≡ self.old.held.lost }
    {
        let _ = self.held.pump();
        match record(alloc, &self.held, &mut self.recorder) {
            Ok(()) => Some(give_waiting(alloc, &mut self.held, &mut self.questions)),
            Err(_) => None,
        }
    }

    /// What goes again at this look, since datagrams are lost: what open operations still wait for, each to those of
    /// these nodes that it has not counted; an enter until the node has joined, and a join and a leave three times, to
    /// all. A question goes again at looks 1, 2, 4, 8 .. since it was given. A letter for which memory is short, and
    /// those behind it, do not go at this look. Nothing goes where a write failed.
    pub fn again(&mut self, alloc: Global, nodes: &[u64]) -> Vec<Letter>
        // Each letter is of a message that was given before, and goes to a node that its operation has not counted; or
        // to all, where the node tells of itself.
        ensures each { AllByRecursion
            (GoesAgain self.old.held.book.version self.old.held.book.node nodes.now self.old.questions.items) result.items }

        // All that is due goes, in turn, up to the first for which memory is short.
        ensures all { self.old.recorder.broken ≡ false →
            SpellsFirst self.old.held.book.version
            (due self.old.held.book.version self.old.held.book.node nodes.now self.old.questions.items) result.items }
        ensures questions { self.old.recorder.broken ≡ false →
            self.new.questions.items ≡ map looked_at (kept_questions self.old.held.book.node self.old.questions.items) }

        // Once mute, always mute.
        ensures mute { self.old.recorder.broken ≡ true →
            (result.items ≡ []) × (self.new.questions.items ≡ self.old.questions.items) }

        // Nothing else changes.
        ensures held { self.new.held ≡ self.old.held }
        ensures recorder { self.new.recorder ≡ self.old.recorder }
    {
        if self.is_mute() {
            return Vec::new(alloc);
        }
        ask_again(alloc, &self.held, nodes, &mut self.questions)
    }
}

/// Writes what the file lacks of the journal of a node's book.
fn record<J: JournalFile>(
    alloc: Global,
    held: &LiveNode<'_>,
    recorder: &mut Recorder<J>,
) -> Result<(), Unrecorded>
    ensures records { Records recorder.old held.now.book result recorder.new }
    ensures recorded { (first : Option (List ℕ)) (b : BookState) → Grows b held.now.book → IsRecorded first b recorder.old →
        IsRecorded first held.now.book recorder.new }
    ensures whole { OnOk result ((first : Option (List ℕ)) (b : BookState) → Grows b held.now.book →
        IsRecorded first b recorder.old → Appends first recorder.new.file (journal_of held.now.book)) }
{
    recorder.record(alloc, &held.book)
}
