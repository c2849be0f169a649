//! Laws of journals and replays. The first two are the contracts of functions that do nothing; the last writes and
//! reads.

ghost use Rattle.std.specs.Prelude.{◌≡◌, List, ℕ, IfOk, IfErr, ◌++◌};
ghost use Rattle.sc_msg.specs.declared.version.Version.{Version};
ghost use Rattle.q_book.specs.State.{BookState};
ghost use Rattle.q_replay.specs.Journal.{journal_of, IsJournalled};
ghost use Rattle.q_replay.specs.Replayed.{IsFault};
ghost use Rattle.q_replay.specs.declared.fault.ReplayFault.{ReplayFault as Fault};
ghost use Rattle.q_replay.specs.Head.{Head};
ghost use Rattle.q_replay.specs.Spelling.{head_bytes, event_bytes, IsHead, IsWritten};
ghost use Rattle.q_replay.specs.declared.raw_entry.RawEntry.{RawEntry};

use crate::fault::ReplayFault;
use crate::replayer::replay;
use crate::write::journal_bytes;
use bq_flow::laws::one_longest;
use q_book::Book;
use std::alloc::Global;

/// A journal is that of one book at most.
pub fn one_book()
    ensures { (b c : BookState) → IsJournalled b → IsJournalled c → journal_of b ≡ journal_of c → b ≡ c }
{
    one_longest();
    one_head();
    one_event();
}

/// Bytes have one fault at most besides want of memory, and a journal of a book has none.
pub fn one_fault()
    ensures one { (bytes : List ℕ) (d e : Fault) → IsFault bytes d → IsFault bytes e → (d ≡ Fault.OutOfMemory → ⊥) → (e ≡ Fault.OutOfMemory → ⊥) → d ≡ e }
    ensures none { (b : BookState) (e : Fault) → IsJournalled b → IsFault (journal_of b) e → e ≡ Fault.OutOfMemory }
{
    one_longest();
    one_head();
    one_event();
}

/// A journal that was written and read again gives the same book. The one fault is 99 OutOfMemory.
pub fn written_and_replayed(alloc: Global, book: &Book) -> Result<Book, ReplayFault>
    ensures same { IfOk result (λ b. b ≡ book.now) }
    ensures memory { IfErr result (λ e. e ≡ ReplayFault.OutOfMemory) }
{
    let bytes = journal_bytes(alloc, book)?;
    replay(alloc, &bytes)
}

/// Bytes begin with one head at most, which tells the version.
pub fn one_head()
    ensures { (h g : Head) (rest more : List ℕ) → IsHead h → IsHead g → head_bytes h ++ rest ≡ head_bytes g ++ more → (h ≡ g) × (rest ≡ more) }
{}

/// In a version bytes begin with one event at most.
pub fn one_event()
    ensures { (version : Version) (w v : RawEntry) (rest more : List ℕ) → IsWritten version w → IsWritten version v → event_bytes version w ++ rest ≡ event_bytes version v ++ more → (w ≡ v) × (rest ≡ more) }
{}
