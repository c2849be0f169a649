//! Worked values of views, of their order and chunks, and of runs of commands.

ghost use Rattle.std.specs.Prelude.{◌≡◌, ℕ, List, [], ◌∷◌, Some, None, Ok, true, false, length, replicate};
ghost use Rattle.std.specs.FinMap as fin;
ghost use Rattle.std.specs.Ordering.{nat_cmp};
ghost use Rattle.sc_view.specs.Values.{all_lengths, lengths, most_bytes};
ghost use Rattle.sc_view.specs.Padded.{padded};
ghost use Rattle.sc_view.specs.Views.{ViewMap, IsView, IsBelow, IsChunking, has_values_within, merge, put};
ghost use Rattle.sc_view.specs.Forms.{Answers, Runs};
ghost use Rattle.sc_view.specs.Sample.{stored, view_of_7};
ghost use Rattle.sc_view.specs.declared.view.Stored.{Stored};
ghost use Rattle.sc_view.specs.declared.form.Command.{Command};
ghost use Rattle.sc_view.specs.declared.form.Command.TheVariants as command;
ghost use Rattle.sc_view.specs.declared.form.Reply.TheVariants as reply;

/// What the definitions say at telling operands.
pub fn worked()
    // Values and their numbers.
    ensures longest { most_bytes ≡ 112 }
    ensures room { padded (5 ∷ []) ≡ 5 ∷ replicate 111 0 }
    ensures numbers_from_1 { IsView (view_of_7 (stored 0 5)) → ⊥ }
    ensures one_byte { has_values_within (lengths 1 1) (view_of_7 (stored 2 5)) ≡ true }
    ensures not_two_bytes { has_values_within (lengths 2 2) (view_of_7 (stored 2 5)) ≡ false }
    ensures any_bytes { has_values_within all_lengths (view_of_7 (stored 2 5)) ≡ true }
    ensures two_bytes_or_more { has_values_within (lengths 2 112) (view_of_7 (stored 2 5)) ≡ false }
    ensures no_byte { has_values_within (lengths 0 0) (view_of_7 (stored 2 5)) ≡ false }

    // One value is learned where its number is larger than what is known.
    ensures put_first { fin.get (put fin.empty 7 (stored 1 5)) 7 ≡ Some (stored 1 5) }
    ensures put_newer { fin.get (put (view_of_7 (stored 2 5)) 7 (stored 3 6)) 7 ≡ Some (stored 3 6) }
    ensures put_equal { fin.get (put (view_of_7 (stored 2 5)) 7 (stored 2 6)) 7 ≡ Some (stored 2 5) }
    ensures put_older { fin.get (put (view_of_7 (stored 2 5)) 7 (stored 1 6)) 7 ≡ Some (stored 2 5) }
    ensures put_beside { fin.get (put (view_of_7 (stored 2 5)) 8 (stored 1 6)) 7 ≡ Some (stored 2 5) }
    ensures put_known { fin.len (put (view_of_7 (stored 2 5)) 7 (stored 3 6)) ≡ 1 }
    ensures put_new { fin.len (put (view_of_7 (stored 2 5)) 8 (stored 1 6)) ≡ 2 }

    // So is each of another view's values.
    ensures merge_newer { fin.get (merge (view_of_7 (stored 2 5)) (view_of_7 (stored 3 6))) 7 ≡ Some (stored 3 6) }
    ensures merge_equal { fin.get (merge (view_of_7 (stored 2 5)) (view_of_7 (stored 2 6))) 7 ≡ Some (stored 2 5) }
    ensures merge_older { fin.get (merge (view_of_7 (stored 2 5)) (view_of_7 (stored 1 6))) 7 ≡ Some (stored 2 5) }
    ensures merge_new { fin.get (merge fin.empty (view_of_7 (stored 1 6))) 7 ≡ Some (stored 1 6) }
    ensures merge_nothing { fin.get (merge (view_of_7 (stored 2 5)) fin.empty) 7 ≡ Some (stored 2 5) }
    ensures merge_known { fin.len (merge (view_of_7 (stored 2 5)) (view_of_7 (stored 3 6))) ≡ 1 }
    ensures not_below { IsBelow (view_of_7 (stored 2 5)) (view_of_7 (stored 1 6)) → ⊥ }

    // The entries, and the chunks that hold them.
    ensures rising { fin.entries {R = nat_cmp} (fin.from_entries ((8, stored 1 5) ∷ (7, stored 1 6) ∷ [])) ≡ (7, stored 1 6) ∷ (8, stored 1 5) ∷ [] }
    ensures no_chunk { (v : ViewMap) → IsChunking v [] → fin.entries v ≡ [] }
    ensures full_chunk { (v : ViewMap) (c : List (ℕ × Stored)) → IsChunking v (c ∷ []) → length c ≡ 33 → ⊥ }
    ensures short_chunk { (v : ViewMap) (c d : List (ℕ × Stored)) → IsChunking v (c ∷ d ∷ []) → length c ≡ 15 → ⊥ }

    // A command is answered by a reply of its own kind, and each by one.
    ensures merged { (v w new : ViewMap) → Answers v w command.Merge (reply.Learned (Ok tt)) new → new ≡ merge v w }
    ensures other_reply { (v w new : ViewMap) → Answers v w command.Merge (reply.Known None) new → ⊥ }
    ensures no_reply { (v w new : ViewMap) (c : Command) → Runs v w (c ∷ []) [] new → ⊥ }
{}
