//! Laws of the tables, each the contract of a function that does nothing. Whoever needs one at a step calls it there.

ghost use Rattle.std.specs.Prelude.{ℕ, ◌^◌, ◌<◌};
ghost use Rattle.bq_range.specs.Table.{ones, IsLeastOnes};
ghost use Rattle.bq_range.specs.Monotone.{RowsAreMonotone};

/// Every row of the tables is monotone: smaller ranges in, smaller ranges out. What a branch leaves of its operands on
/// either edge lies inside them.
pub fn rows_are_monotone()
    ensures { RowsAreMonotone }
{}

/// The table's ones of a word are the least 2^k - 1 that is at least the word.
pub fn ones_is_least()
    ensures { (x : ℕ) → x < 2 ^ 64 → IsLeastOnes x (ones x) }
{}
