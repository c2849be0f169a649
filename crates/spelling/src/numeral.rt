//! Reading a number.

ghost use Rattle.std.specs.Prelude.{◌≡◌};
ghost use Rattle.std.specs.List.{list_all};
ghost use Rattle.std.specs.Char.{is_ascii_digit};
ghost use Rattle.spelling.specs.Natural.{is_decimal, natural_at};

fn are_digits(text: &[u8]) -> bool
    ensures { result ≡ list_all is_ascii_digit text.now }
{
    text.iter().all(|byte| byte.is_ascii_digit())
}

// Digits with no zero in front of others.
#[tactic(auto, unfolding(crate::specs::Natural::is_decimal))]
fn is_decimal(text: &str) -> bool
    ensures { result ≡ is_decimal text.now }
{
    match text.as_bytes() {
        [] => false,
        [b'0', rest @ ..] => rest.is_empty(),
        digits => are_digits(digits),
    }
}

/// The number below 2^64 that a text stands for.
#[tactic(auto, unfolding(crate::specs::Natural::natural_at))]
pub fn natural(text: &str) -> Option<u64>
    ensures { result ≡ natural_at text.now }
{
    if is_decimal(text) {
        text.parse().ok()
    } else {
        None
    }
}
