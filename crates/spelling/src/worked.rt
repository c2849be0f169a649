//! What the definition says at telling texts, worked by hand.

ghost use Rattle.std.specs.Prelude.{◌≡◌, Some, None, codes};
ghost use Rattle.spelling.specs.Natural.{natural_at};

/// No zero stands in front, nothing is no number, and 2^64 is too large.
#[tactic(auto, unfolding(crate::specs::Natural::natural_at, crate::specs::Natural::is_decimal))]
pub fn worked()
    ensures zero { natural_at (codes "0") ≡ Some 0 }
    ensures in_front { natural_at (codes "01") ≡ None }
    ensures nothing { natural_at (codes "") ≡ None }
    ensures signed { natural_at (codes "+1") ≡ None }
    ensures most { natural_at (codes "18446744073709551615") ≡ Some 18446744073709551615 }
    ensures beyond { natural_at (codes "18446744073709551616") ≡ None }
{}
