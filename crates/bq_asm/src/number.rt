ghost use Rattle.std.specs.Prelude.{◌≡◌, ◌<◌, ◌≤ℤ◌, ◌<ℤ◌, ◌^◌, pos, IfSome};
ghost use Rattle.bq_asm.specs.Reading.{Gives, positive_at, negative_at, signed_at, distance_at};

use crate::text::strip;
use spelling::natural;

/// The number below 2^63 that these digits stand for.
#[tactic(auto, unfolding(crate::specs::Reading::positive_at))]
pub fn positive(digits: &str) -> Option<i64>
    ensures { result ≡ positive_at digits.now }
{
    i64::try_from(natural(digits)?).ok()
}

/// The number that these digits stand for behind a minus sign.
#[tactic(auto, unfolding(crate::specs::Reading::negative_at))]
pub fn negative(digits: &str) -> Option<i64>
    ensures { result ≡ negative_at digits.now }
{
    let magnitude = i64::try_from(natural(digits)?).ok()?;
    if magnitude == 0 {
        None
    } else {
        Some(-magnitude)
    }
}

/// A number with a minus sign or none.
#[tactic(auto, unfolding(crate::specs::Reading::signed_at))]
pub fn signed(text: &str) -> Option<i64>
    ensures { result ≡ signed_at text.now }
{
    match strip(text, '-') {
        Some(digits) => negative(digits),
        None => positive(text),
    }
}

/// A number with a plus or minus sign.
#[tactic(auto, unfolding(crate::specs::Reading::distance_at))]
pub fn distance(text: &str) -> Option<i64>
    ensures { result ≡ distance_at text.now }
{
    match strip(text, '+') {
        Some(digits) => positive(digits),
        None => negative(strip(text, '-')?),
    }
}
