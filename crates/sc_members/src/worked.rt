//! Worked values of thresholds, of sets of ids and of facts.

ghost use Rattle.std.specs.Prelude.{◌≡◌, [], ◌∷◌, Some, None, true, false};
ghost use Rattle.std.specs.FinSet as set;
ghost use Rattle.std.specs.Ordering.{nat_cmp};
ghost use Rattle.sc_members.specs.Ids.{IsLeastCommon, rising};
ghost use Rattle.sc_members.specs.Members.{AreFractions, Facts, IsFraction, config_of, founding, is_overfull, members, no_facts, present, threshold, union_facts, with_entered, with_joined, with_left};

/// How many answers a phase waits for: a fraction of a count, rounded up, and at least 1. And what is known: who has
/// joined has entered too.
pub fn worked()
    ensures rounds_up { threshold 4 5 3 ≡ 3 }
    ensures exact { threshold 4 5 5 ≡ 4 }
    ensures a_third { threshold 1 3 3 ≡ 1 }
    ensures two_thirds { threshold 2 3 3 ≡ 2 }
    ensures of_nobody { threshold 1 1000 0 ≡ 1 }
    ensures joined { with_joined no_facts 7 ≡ founding (7 ∷ []) }
    ensures left { with_left no_facts 7 ≡ record { entered = set.empty; joined = set.empty; left = set.from_list (7 ∷ []) } }
    ensures founders { founding (7 ∷ []) ≡ record { entered = set.from_list (7 ∷ []); joined = set.from_list (7 ∷ []); left = set.empty } }

    // Fractions.
    ensures whole { IsFraction 1000 1000 }
    ensures of_nothing { IsFraction 0 5 → ⊥ }
    ensures above_1 { IsFraction 3 2 → ⊥ }
    ensures too_fine { IsFraction 1 1001 → ⊥ }
    ensures beta_first { config_of (record { numerator = 2; denominator = 3 }) (record { numerator = 4; denominator = 5 }) ≡ record { beta_num = 2; beta_den = 3; gamma_num = 4; gamma_den = 5 } }
    ensures gamma_counts { AreFractions (record { numerator = 2; denominator = 3 }) (record { numerator = 4; denominator = 3 }) → ⊥ }

    // Who is present, and who is a member.
    ensures present_founder { present (founding (7 ∷ [])) ≡ 1 }
    ensures entered_member { members (with_entered no_facts 7) ≡ 0 }
    ensures joined_member { members (with_joined no_facts 7) ≡ 1 }
    ensures gone_member { members (with_left (founding (7 ∷ [])) 7) ≡ 0 }
    ensures left_together { set.contains (union_facts (with_left no_facts 8) (with_left no_facts 7)).left 7 ≡ true }
    ensures full { (f : Facts) → set.len f.entered ≡ 1024 → set.len f.joined ≡ 1024 → set.len f.left ≡ 1024 → is_overfull f ≡ false }
    ensures overfull { (f : Facts) → set.len f.left ≡ 1025 → is_overfull f ≡ true }

    // Sets of ids.
    ensures listed { set.contains {R = nat_cmp} (set.from_list (7 ∷ 8 ∷ [])) 7 ≡ true }
    ensures inserted { set.contains {R = nat_cmp} (set.insert set.empty 7) 7 ≡ true }
    ensures listed_twice { set.len {R = nat_cmp} (set.from_list (7 ∷ 7 ∷ 8 ∷ [])) ≡ 2 }
    ensures in_order { rising (set.from_list (7 ∷ 8 ∷ [])) ≡ 7 ∷ 8 ∷ [] }
    ensures of_both { set.len {R = nat_cmp} (set.union (set.from_list (7 ∷ [])) (set.from_list (7 ∷ []))) ≡ 1 }
    ensures not_shared { IsLeastCommon (set.from_list (7 ∷ 9 ∷ [])) (set.from_list (8 ∷ 9 ∷ [])) (Some 7) → ⊥ }
    ensures not_least { IsLeastCommon (set.from_list (7 ∷ 9 ∷ [])) (set.from_list (7 ∷ 9 ∷ [])) (Some 9) → ⊥ }
    ensures not_none { IsLeastCommon (set.from_list (9 ∷ [])) (set.from_list (9 ∷ [])) None → ⊥ }
{}
