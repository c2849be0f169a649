//! Which of two sequence numbers is newer.
ghost use Rattle.std.specs.Prelude.{◌≡◌};
ghost use Rattle.sc_chunk.specs.Entries.{is_larger};

/// Whether a number is larger than what is known.
#[inline]
pub fn is_larger(known: Option<u64>, number: u64) -> bool
    ensures { result ≡ is_larger known number }
{
    match known {
        Some(known) => known < number,
        None => true,
    }
}
