//! The notes of programs in the bytes of requests and journals.

ghost use Rattle.std.specs.Prelude.{◌≡◌, List, Option, IfOk, MatchResult};
ghost use Rattle.bq_state.specs.Kinds.{StateKinds};
ghost use Rattle.bq_check.specs.Spelling.{IsNotes, notes_bytes};
ghost use Rattle.q_book.specs.Books.{notes_form};

use bq_check::{Notes, NotesFault};
use sc_msg::Version;
use std::alloc::Global;

/// The notes that bytes spell in the form of that version: of the first in version 1, of the second in version 2.
///
/// Refused as [`Notes::read`] and [`Notes::read_v1`] refuse.
pub fn read_notes(alloc: Global, version: Version, bytes: &[u8]) -> Result<Notes, NotesFault>
    ensures legal { IfOk result (IsNotes (notes_form version)) }
    ensures spelled { IfOk result (λ n. bytes.now ≡ notes_bytes (notes_form version) n) }
    ensures all { (n : List (Option StateKinds)) → IsNotes (notes_form version) n → bytes.now ≡ notes_bytes (notes_form version) n
        → MatchResult result (λ m. m ≡ n) (λ e. e ≡ NotesFault.OutOfMemory) }
{
    match version {
        Version::First => Notes::read_v1(alloc, bytes),
        Version::Second => Notes::read(alloc, bytes),
    }
}
