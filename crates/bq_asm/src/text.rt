ghost use Rattle.std.specs.Prelude.{◌≡◌, ◌<◌};
ghost use Rattle.bq_asm.specs.Reading.{Gives, cut, strip, trimmed, pair_at};

/// What stands before the first of these ASCII characters, and what stands behind it.
pub fn cut(text: &str, at: char) -> Option<(&str, &str)>
    requires { at < 128 }
    ensures { Gives (λ p. (p.0.now, p.1.now)) result (cut at text.now) }
{
    text.split_once(at)
}

/// What stands behind an ASCII character in front.
pub fn strip(text: &str, front: char) -> Option<&str>
    requires { front < 128 }
    ensures { Gives (λ rest. rest.now) result (strip front text.now) }
{
    text.strip_prefix(front)
}

/// The text without the spaces at both ends.
pub fn trimmed(text: &str) -> &str
    ensures { result.now ≡ trimmed text.now }
{
    text.trim_start_matches(' ').trim_end_matches(' ')
}

/// Two texts with a comma between them.
#[tactic(auto, unfolding(crate::specs::Reading::pair_at))]
pub fn pair(text: &str) -> Option<(&str, &str)>
    ensures { Gives (λ p. (p.0.now, p.1.now)) result (pair_at text.now) }
{
    let (first, second) = cut(text, ',')?;
    Some((trimmed(first), trimmed(second)))
}
