//! The sizes that the command line gives.

ghost use Rattle.std.specs.Prelude.{◌≡◌, ◌≤◌, length, Ok};

use anyhow::{Context, Result};

/// The number at this place of the words, or the usual one where they are fewer.
pub(crate) fn size(words: &[String], index: usize, usual: u64) -> Result<u64>
    ensures usual { length words.now ≤ index → result ≡ Ok usual }
{
    match words.get(index) {
        Some(word) => word
            .parse::<u64>()
            .context(format_args!("reading {word:?}")),
        None => Ok(usual),
    }
}
