//! Worked values of the table.

ghost use Rattle.std.specs.Prelude.{◌≡◌, [], ◌∷◌, Contains, codes, map};
ghost use Rattle.std.specs.List.Sorted.{IsStrictlyIncreasing};
ghost use Rattle.reasons.specs.declared.Reason.TheVariants as reason;
ghost use Rattle.reasons.specs.Table.{name, number};

/// What the definitions say at telling operands.
pub fn worked()
    ensures least_number { number reason.BadLength ≡ 1 }
    ensures greatest_number { number reason.OutOfMemory ≡ 99 }
    ensures named { name reason.OutsideRecord ≡ codes "OutsideRecord" }
    ensures of_a_text { name reason.TooLong ≡ codes "TooLong" }
    ensures of_a_message { name reason.LongMessage ≡ codes "TooLong" }

    // Lists that are not of each reason, in the order of numbers.
    ensures twice { IsStrictlyIncreasing (map number (reason.StepsOut ∷ reason.StepsOut ∷ [])) → ⊥ }
    ensures out_of_order { IsStrictlyIncreasing (map number (reason.StepsOut ∷ reason.BadPlace ∷ [])) → ⊥ }
    ensures left_out { Contains (reason.StepsOut ∷ []) reason.BadPlace → ⊥ }
{}
