//! Numbers in decimal.

ghost use Rattle.std.specs.Prelude.{◌≡◌, ◌<◌, option_map};
ghost use Rattle.q_script.specs.Words.{Reads, IsNumeral, IsPair, IsFollowed};

use crate::text::cut;
use spelling::natural;

/// The number below 2^64 that a text spells in decimal, with no zero in front of other digits and no sign.
pub fn number(text: &str) -> Option<u64>
    ensures { Reads IsNumeral text.now result }
{
    natural(text)
}

/// A number and what stands behind it, with this character between.
pub fn leading(text: &str, between: char) -> Option<(u64, &str)>
    requires { between < 48 }
    ensures { Reads (IsFollowed between) text.now (option_map (λ p. (p.0, p.1.now)) result) }
{
    let (digits, rest) = cut(text, between)?;
    let first = number(digits)?;
    Some((first, rest))
}

/// Two numbers with this character between.
pub fn pair(text: &str, between: char) -> Option<(u64, u64)>
    requires { between < 48 }
    ensures { Reads (IsPair between) text.now result }
{
    let (first, rest) = leading(text, between)?;
    let second = number(rest)?;
    Some((first, second))
}
