//! Laws of files of clusters, each the contract of a function that does nothing.

ghost use Rattle.std.specs.Prelude.{◌≡◌, ℕ, List};
ghost use Rattle.q_script.specs.File.{IsFault, Spells};
ghost use Rattle.q_script.specs.declared.file.ClusterFile.{ClusterFile as File};
ghost use Rattle.q_script.specs.declared.fault.ClusterFileFault.{ClusterFileFault as Fault};
ghost use Rattle.q_script.specs.declared.fault.ClusterFileFault.TheVariants as fault;

/// A text that spells a file is refused for want of memory alone.
pub fn a_file_is_not_refused()
    ensures { (text : List ℕ) (file : File) (f : Fault) → Spells text file → IsFault text f → f ≡ fault.OutOfMemory }
{}

/// But for want of memory, one thing is first wrong with a text that spells no file.
pub fn one_fault()
    ensures { (text : List ℕ) (f g : Fault) → IsFault text f → IsFault text g → (f ≡ fault.OutOfMemory → ⊥) → (g ≡ fault.OutOfMemory → ⊥) → f ≡ g }
{}

/// A text spells one file.
pub fn one_file()
    ensures { (text : List ℕ) (a b : File) → Spells text a → Spells text b → (a.number ≡ b.number) × (a.config ≡ b.config) × (a.nodes.items ≡ b.nodes.items) }
{}
