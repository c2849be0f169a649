//! The lengths of the records that the programs of a book run over.

ghost use Rattle.std.specs.Prelude.{◌≡◌};
ghost use Rattle.q_book.specs.Books.{record_lengths};

use bq_state::Bounds;
use sc_msg::Version;

/// The lengths for which a program is checked that a book of this version registers: 64 bytes in version 1, where each
/// value has 48, and 16 to 128 in version 2, where a value has 0 to 112.
pub fn record_lengths(version: Version) -> Bounds
    ensures { result ≡ record_lengths version }
{
    match version {
        Version::First => Bounds::of_views(),
        Version::Second => Bounds::all(),
    }
}
