//! Worked values of what the program does for words that ask for no command.

ghost use Rattle.std.specs.Prelude.{◌≡◌, ◌++◌, ℕ, List, [], Some, codes};
ghost use Rattle.std.specs.Io.KnownBytes.{Appends};
ghost use Rattle.q_command.specs.declared.words.WordsFault.TheVariants as fault;
ghost use Rattle.q_bqview.specs.Runs.{Explains, Output, Puts};

/// Where each text goes, and which exit status comes of it.
pub fn worked()
    ensures put { (before after : List ℕ) → Puts (codes "a") 0 (record { taken = Some before; failures = 4 }) 0 (record { taken = Some after; failures = 4 }) → after ≡ before ++ codes "a" }
    ensures not_put { (status : ℕ) (before after : List ℕ) → Puts (codes "a") 0 (record { taken = Some before; failures = 4 }) status (record { taken = Some after; failures = 5 }) → status ≡ 1 }
    ensures help { (e : _) (before after : Output) → Explains (fault.Help e) before 0 after → (text : List ℕ) × Appends before.taken after.taken text }
    ensures no_memory { Explains fault.OutOfMemory (record { taken = Some []; failures = 0 }) 1 (record { taken = Some (codes "refused 99 OutOfMemory\n"); failures = 0 }) }
    ensures mistake { (start : _) (status : ℕ) (before after : Output) → Explains (fault.BadStart start) before status after → (status ≡ 2) × (after ≡ before) }
    ensures not_utf8 { (status : ℕ) (before after : Output) → Explains fault.NotUtf8 before status after → (status ≡ 2) × (after ≡ before) }
{}
