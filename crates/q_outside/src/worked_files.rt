//! Worked values of what files keep and answer.

ghost use Rattle.std.specs.Prelude.{◌≡◌, ℕ, List, [], ◌∷◌, codes, Some, None, Ok, Err, true, false};
ghost use Rattle.q_outside.specs.Files.{failures_after};
ghost use Rattle.q_outside.specs.Memory.{Reads, Writes, bytes_of, fails_next};
ghost use Rattle.q_outside.specs.declared.files.FileFault.TheVariants as fault;
ghost use Rattle.q_outside.specs.declared.memory_files.MemoryFiles.{MemoryFiles as Memory};

use crate::files::Files;
use crate::folder::Folder;
use std::alloc::Global;
use std::io::Input;
use std::rt::{Clock, Files as SystemFiles};

/// Which calls are counted, and that a read and a write are of the file with that name and of no other.
pub fn worked()
    ensures failed { failures_after {X = ℕ} (Err fault.Failed) 4 ≡ 5 }
    ensures failed_at_the_most { failures_after {X = ℕ} (Err fault.Failed) 18446744073709551615 ≡ 18446744073709551615 }
    ensures no_memory { failures_after {X = ℕ} (Err fault.OutOfMemory) 4 ≡ 4 }
    ensures went_well { failures_after {X = ℕ} (Ok 7) 4 ≡ 4 }
    ensures fails { fails_next (Some 0) ≡ true }
    ensures goes_through { fails_next (Some 1) ≡ false }
    ensures read { (old new : Memory) (bytes : List ℕ) → bytes_of old.files (codes "a") ≡ Some (7 ∷ []) → Reads 8 old (codes "a") (Ok bytes) new → bytes ≡ 7 ∷ [] }
    ensures not_found { (old new : Memory) (bytes : List ℕ) → bytes_of old.files (codes "a") ≡ None → Reads 8 old (codes "a") (Ok bytes) new → ⊥ }
    ensures too_long { (old new : Memory) (bytes : List ℕ) → bytes_of old.files (codes "a") ≡ Some (7 ∷ 7 ∷ []) → Reads 1 old (codes "a") (Ok bytes) new → ⊥ }
    ensures longest { (old new : Memory) → fails_next old.passing ≡ false → bytes_of old.files (codes "a") ≡ Some (7 ∷ 7 ∷ []) → Reads 2 old (codes "a") (Err fault.Failed) new → ⊥ }
    ensures written { (old new : Memory) → Writes old (codes "a") (7 ∷ []) (Ok (tt {0})) new → bytes_of new.files (codes "a") ≡ Some (7 ∷ []) }
    ensures others_stay { (old new : Memory) → Writes old (codes "a") (7 ∷ []) (Ok (tt {0})) new → bytes_of new.files (codes "b") ≡ bytes_of old.files (codes "b") }
{}

/// The count of a folder is the one that it keeps.
pub fn worked_folder<'a, R: SystemFiles + Alloc<A = Global> + Eprint + Clock + Input>(
    folder: &Folder<'a, R>,
)
    ensures { ⟦<Folder<'a, R> as Files>⟧.failed folder.now ≡ folder.now.failures }
{
    let _ = folder;
}
