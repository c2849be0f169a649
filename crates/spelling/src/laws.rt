//! Laws of numbers in decimal, each the contract of a function that does nothing.

ghost use Rattle.std.specs.Prelude.{◌≡◌, ℕ, ◌^◌, ◌<◌, List, Some};
ghost use Rattle.std.specs.Fmt.{decimal};
ghost use Rattle.spelling.specs.Natural.{natural_at};

/// What is written of a number is read as that number.
pub fn written_is_read()
    ensures { (n : ℕ) → n < 2 ^ 64 → natural_at (decimal n) ≡ Some n }
{}

/// A number is read of nothing but what is written of it.
pub fn read_is_written()
    ensures { (text : List ℕ) (n : ℕ) → natural_at text ≡ Some n → (text ≡ decimal n) × (n < 2 ^ 64) }
{}
