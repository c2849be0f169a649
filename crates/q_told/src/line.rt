//! The line of a refusal.

ghost use Rattle.std.specs.Prelude.{◌≡◌, ◌++◌, ℕ, List, OnOk, OnErr};
ghost use Rattle.std.specs.Io.KnownBytes.{Appends};
ghost use Rattle.q_outside.specs.Counts.{count_after};
ghost use Rattle.q_outside.specs.Pieces.{piece_text};
ghost use Rattle.q_told.specs.Line.{line_of};
ghost use Rattle.q_told.specs.Refusal.{place_text, refusal_line};

use crate::refusal::{Refusal, RefusalPlace};
use q_outside::{Counted, Piece, TransportFailed};
use reasons::Reason;
use std::io::Write;

/// The words that tell a place, and the number behind them.
fn place_pieces(place: RefusalPlace) -> (Piece<'static>, Piece<'static>)
    ensures { piece_text result.0 ++ piece_text result.1 ≡ place_text place }
{
    match place {
        RefusalPlace::Untold => (Piece::Words(""), Piece::Words("")),
        RefusalPlace::Unit(unit) => (Piece::Words(" at "), Piece::Number(unit as u64)),
        RefusalPlace::Event(event) => (Piece::Words(" at "), Piece::Number(event as u64)),
        RefusalPlace::Line(line) => (Piece::Words(" line "), Piece::Number(line as u64)),
    }
}

/// Writes the line of a refusal: the number and the name of its reason, and where it arose if the line tells that. It
/// takes no memory.
///
/// Refused with 86 where a write fails; a part of the line may have been written before.
pub fn put_line<W: Write>(
    out: &mut Counted<W>,
    reason: Reason,
    place: RefusalPlace,
) -> Result<(), TransportFailed>
    ensures written { OnOk result (Appends
        (W.contents out.old.inner) (W.contents out.new.inner) (line_of reason place)) }
    ensures failed { OnErr result ((part : List ℕ) × Appends
        (W.contents out.old.inner) (W.contents out.new.inner) part) }
    ensures counted { out.new.failures ≡ count_after result out.old.failures }
{
    let (words, number) = place_pieces(place);
    out.put_all(&[
        Piece::Words("refused "),
        Piece::Number(u64::from(reason.number())),
        Piece::Words(" "),
        Piece::Words(reason.name()),
        words,
        number,
        Piece::Words("\n"),
    ])
}

/// The same of a refusal of a script.
pub fn put_refusal<W: Write>(out: &mut Counted<W>, refusal: &Refusal) -> Result<(), TransportFailed>
    ensures written { OnOk result (Appends
        (W.contents out.old.inner) (W.contents out.new.inner) (refusal_line refusal.now)) }
    ensures failed { OnErr result ((part : List ℕ) × Appends
        (W.contents out.old.inner) (W.contents out.new.inner) part) }
    ensures counted { out.new.failures ≡ count_after result out.old.failures }
{
    put_line(out, refusal.reason(), refusal.place())
}
