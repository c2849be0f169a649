//! Worked values of the tables.

ghost use Rattle.std.specs.Prelude.{◌≡◌, ◌≤◌, ◌*◌, true, false, Some, None};
ghost use Rattle.std.specs.Option.{SomeIff};
ghost use Rattle.bq_word.specs.declared.AluOp.TheVariants as op;
ghost use Rattle.bq_word.specs.declared.Relation.TheVariants as relation;
ghost use Rattle.bq_range.specs.Interval.{Within, between, single, is_single, whole, all_words, join, meet, cut};
ghost use Rattle.bq_range.specs.Table.{operated, negated, sign_extended, low_range, swapped_range};
ghost use Rattle.bq_range.specs.Narrow.{branched};

/// What the definitions say at telling operands.
pub fn worked()
    // Ranges.
    ensures least { (between 3 9).lo ≡ 3 }
    ensures greatest { (between 3 9).hi ≡ 9 }
    ensures not_none { SomeIff None (7 ≤ 7) (between 7 7) → ⊥ }
    ensures not_some { SomeIff (Some (between 9 3)) (9 ≤ 3) (between 9 3) → ⊥ }
    ensures one { single 7 ≡ between 7 7 }
    ensures not_one { is_single (between 3 4) ≡ false }
    ensures of_byte { whole (8 * 1) ≡ between 0 255 }
    ensures of_bytes { whole (8 * 4) ≡ between 0 4294967295 }
    ensures all { all_words ≡ between 0 18446744073709551615 }
    ensures inside { Within (between 3 9) (between 0 9) }
    ensures below_the_least { Within (between 0 4) (between 3 9) → ⊥ }
    ensures above_the_greatest { Within (between 3 9) (between 3 8) → ⊥ }
    ensures joined { join (between 3 9) (between 0 4) ≡ between 0 9 }
    ensures joined_above { join (between 3 5) (between 4 9) ≡ between 3 9 }
    ensures met { meet (between 3 9) (between 0 4) ≡ Some (between 3 4) }
    ensures apart { meet (between 1 3) (between 5 9) ≡ None }
    ensures cut_of_same_high_bits { cut 32 (between 4294967301 4294967305) ≡ between 5 9 }
    ensures cut_of_others { cut 32 (between 5 4294967301) ≡ whole 32 }
    ensures negated_one { negated 64 (single 1) ≡ single 18446744073709551615 }
    ensures negated_ends { negated 32 (between 1 3) ≡ between 4294967293 4294967295 }
    ensures negated_zero { negated 64 (between 0 4) ≡ all_words }
    ensures extended_one { sign_extended 8 64 (single 128) ≡ single 18446744073709551488 }
    ensures extended_below { sign_extended 8 64 (between 100 127) ≡ between 100 127 }
    ensures extended_across { sign_extended 8 32 (between 100 128) ≡ whole 32 }
    ensures low_of_one { low_range 16 (single 65541) ≡ single 5 }
    ensures low_kept { low_range 16 (between 7 65535) ≡ between 7 65535 }
    ensures low_cut { low_range 16 (between 7 65536) ≡ between 0 65535 }
    ensures swapped_one { swapped_range 16 (single 4660) ≡ single 13330 }
    ensures swapped_more { swapped_range 16 (between 1 3) ≡ between 0 65535 }

    // Operations of two operands.
    ensures add { operated 64 op.Add (between 5 9) (between 1 3) ≡ between 6 12 }
    ensures one_and_more { operated 64 op.Add (single 5) (between 1 3) ≡ between 6 8 }
    ensures add_past { operated 64 op.Add (between 18446744073709551612 18446744073709551614) (between 4 6) ≡ between 0 4 }
    ensures add_across { operated 64 op.Add (between 18446744073709551612 18446744073709551615) (between 1 3) ≡ all_words }
    ensures sub { operated 64 op.Sub (between 5 9) (between 1 3) ≡ between 2 8 }
    ensures sub_past { operated 64 op.Sub (between 1 3) (between 5 9) ≡ between 18446744073709551608 18446744073709551614 }
    ensures sub_across { operated 64 op.Sub (between 0 4) (between 1 3) ≡ all_words }
    ensures mul { operated 64 op.Mul (between 5 9) (between 1 3) ≡ between 5 27 }
    ensures mul_past { operated 32 op.Mul (between 0 65536) (between 1 65536) ≡ whole 32 }
    ensures mul_of_one { operated 32 op.Mul (single 65536) (single 65536) ≡ single 0 }
    ensures div { operated 64 op.Div (between 5 9) (between 1 3) ≡ between 1 9 }
    ensures div_by_zero { operated 64 op.Div (between 5 9) (between 0 4) ≡ between 0 9 }
    ensures signed_div { operated 64 op.SignedDiv (between 5 9) (between 1 3) ≡ all_words }
    ensures modulo { operated 64 op.Mod (between 5 9) (between 1 3) ≡ between 0 2 }
    ensures modulo_more { operated 64 op.Mod (between 1 3) (between 5 9) ≡ between 1 3 }
    ensures modulo_zero { operated 64 op.Mod (between 5 9) (between 0 4) ≡ between 0 9 }
    ensures and { operated 64 op.And (between 3 31) all_words ≡ between 0 31 }
    ensures or { operated 64 op.Or (between 5 9) (between 1 3) ≡ between 5 15 }
    ensures xor { operated 64 op.Xor (between 5 9) (between 1 3) ≡ between 0 15 }
    ensures move_cuts { operated 32 op.Mov (between 1 3) (between 4294967301 4294967305) ≡ between 5 9 }
    ensures left { operated 32 op.ShiftLeft (between 5 9) (single 33) ≡ between 10 18 }
    ensures left_past { operated 32 op.ShiftLeft (between 0 65536) (single 16) ≡ whole 32 }
    ensures left_by_more { operated 64 op.ShiftLeft (between 5 9) (between 1 3) ≡ all_words }
    ensures right { operated 32 op.ShiftRight (between 5 9) (single 33) ≡ between 2 4 }
    ensures right_by_more { operated 64 op.ShiftRight (between 5 9) (between 1 3) ≡ between 0 9 }
    ensures arithmetic { operated 64 op.ArithmeticShiftRight (between 18446744073709551612 18446744073709551615) (single 1) ≡ between 18446744073709551614 18446744073709551615 }
    ensures arithmetic_across { operated 64 op.ArithmeticShiftRight (between 0 9223372036854775808) (single 1) ≡ all_words }
    ensures arithmetic_by_more { operated 64 op.ArithmeticShiftRight (between 5 9) (between 1 3) ≡ between 0 9 }

    // Edges of branches.
    ensures equal { branched 64 relation.Equal true (between 5 12) (between 10 20) ≡ Some (between 10 12, between 10 12) }
    ensures equal_never { branched 64 relation.Equal true (between 5 9) (single 10) ≡ None }
    ensures not_equal { branched 64 relation.NotEqual true (between 5 10) (single 10) ≡ Some (between 5 9, single 10) }
    ensures not_equal_to_more { branched 64 relation.NotEqual true (single 10) (between 10 12) ≡ Some (single 10, between 11 12) }
    ensures less { branched 64 relation.Less true (between 5 20) (between 0 10) ≡ Some (between 5 9, between 6 10) }
    ensures less_not_taken { branched 64 relation.Less false all_words (single 10) ≡ Some (between 10 18446744073709551615, single 10) }
    ensures less_or_equal { branched 64 relation.LessOrEqual true (between 5 20) (between 0 10) ≡ Some (between 5 10, between 5 10) }
    ensures greater { branched 64 relation.Greater true (between 0 20) (between 5 30) ≡ Some (between 6 20, between 5 19) }
    ensures greater_or_equal { branched 64 relation.GreaterOrEqual true (between 0 20) (between 5 30) ≡ Some (between 5 20, between 5 20) }
    ensures signed_less { branched 32 relation.SignedLess true (whole 32) (single 0) ≡ Some (between 2147483648 4294967295, single 0) }
    ensures signed_less_or_equal { branched 64 relation.SignedLessOrEqual true (between 5 20) (between 0 10) ≡ Some (between 5 10, between 5 10) }
    ensures signed_less_or_equal_of_all { branched 64 relation.SignedLessOrEqual true all_words all_words ≡ Some (all_words, all_words) }
    ensures signed_greater { branched 64 relation.SignedGreater true all_words (single 10) ≡ Some (between 11 9223372036854775807, single 10) }
    ensures signed_greater_or_equal { branched 64 relation.SignedGreaterOrEqual true (between 0 20) (between 5 30) ≡ Some (between 5 20, between 5 20) }
    ensures common_bit_never { branched 64 relation.CommonBit true (single 10) (single 5) ≡ None }
    ensures common_bit_always { branched 64 relation.CommonBit false (single 10) (single 2) ≡ None }
    ensures common_bit_of_more { branched 64 relation.CommonBit true (between 0 10) (single 0) ≡ Some (between 0 10, single 0) }
    ensures past_the_width { branched 32 relation.Less true all_words (single 10) ≡ Some (all_words, single 10) }
{}
