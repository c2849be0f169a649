//! One more entry.

ghost use Rattle.std.specs.Prelude.{◌≡◌, ◌<◌, ◌+◌, ◌++◌, [], ◌∷◌};
ghost use Rattle.std.specs.Vec.{vec_len, vec_capacity};

/// Puts an entry behind the others, for which there is room. Takes no memory.
pub(crate) fn append<T: Drop>(entries: &mut Vec<T>, entry: T)
    requires { vec_len entries.old < vec_capacity entries.old }
    ensures items { entries.new.items ≡ entries.old.items ++ entry ∷ [] }
    ensures len { vec_len entries.new ≡ vec_len entries.old + 1 }
    ensures capacity { vec_capacity entries.new ≡ vec_capacity entries.old }
{
    entries.push_reserved(entry);
}
