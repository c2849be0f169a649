//! Files by name: what a command asks of the folder that it runs in.

ghost use Rattle.std.specs.Prelude.{◌≡◌, ℕ, List, Result};
ghost use Rattle.q_outside.specs.Files.{failures_after, seen_as};
ghost use Rattle.q_outside.specs.declared.files.FileFault.{FileFault};

use std::alloc::{AllocError, Global};

/// The most bytes that a text file has: 16 MB.
pub const LONGEST_TEXT: usize = 16 * 1024 * 1024;

/// Why a file was not read or written.
#[derive(Clone, Copy)]
pub enum FileFault {
    /// 87: the file could not be opened, read or written, or is longer than may be read.
    Failed,
    /// 99: memory ran out.
    OutOfMemory,
}

impl From<AllocError> for FileFault {
    ghost use Rattle.q_outside.specs.declared.files.FileFault.TheVariants.{OutOfMemory};

    ghost from_gives = { λ _ e. e ≡ OutOfMemory };

    fn from(_error: AllocError) -> Self {
        FileFault::OutOfMemory
    }
}

/// Files that are read and written whole, by their names.
pub trait Files {
    // How many calls failed so far.
    ghost failed: { Self → ℕ };

    // What a read of a name may answer, of at most so many bytes, before and after the call.
    ghost read_gives: { ℕ → Self → List ℕ → Result (List ℕ) FileFault → Self → Type 0 };

    // What a write of bytes under a name may answer, before and after the call.
    ghost write_gives: { Self → List ℕ → List ℕ → Result (Unit {0}) FileFault → Self → Type 0 };

    /// The bytes of a file that has no more than `most`; one that has more fails. A call that fails changes nothing but
    /// the count of failures.
    fn read(&mut self, alloc: Global, name: &str, most: usize) -> Result<Vec<u8>, FileFault>
        ensures counted { failed self.new ≡ failures_after result (failed self.old) }
        ensures bytes { read_gives most self.old name.now (seen_as (λ bytes. bytes.items) result) self.new };

    /// Makes a file of these bytes, or replaces the bytes of the one that is there: all of them, or none where the call
    /// fails.
    fn write(&mut self, name: &str, bytes: &[u8]) -> Result<(), FileFault>
        ensures counted { failed self.new ≡ failures_after result (failed self.old) }
        ensures written { write_gives self.old name.now bytes.now result self.new };

    /// Tells a person that so many of so many steps of the work are done. It changes no file and no count.
    fn tell(&self, done: usize, of: usize);

    /// How many calls failed so far, those that wanted memory aside. It stays at its greatest value.
    fn failures(&self) -> u64
        ensures { result ≡ failed self.now };
}
