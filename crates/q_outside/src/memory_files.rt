//! Files in memory, for tests.

ghost use Rattle.std.specs.Prelude.{◌≡◌, Some, None, OnErr, OnOk};
ghost use Rattle.std.specs.BTreeMap.{IsEmpty, IsUnchanged};
ghost use Rattle.q_outside.specs.Files.{count_after};
ghost use Rattle.q_outside.specs.Memory.{IsWritten, after_call, fails_next};

use crate::files::{FileFault, Files};
use std::alloc::{AllocError, Global};
use std::cell::Cell;
use std::collections::BTreeMap;

/// Files in memory, by their names. One of the calls may be made to fail.
#[derive(Drop)]
pub struct MemoryFiles {
    alloc: Global,
    /// The bytes of each file, by its name.
    pub files: BTreeMap<String, Vec<u8>>,
    /// How many reads and writes go through before one fails; none fails where this is none.
    pub passing: Option<u64>,
    /// How many calls failed so far.
    pub failures: u64,
    /// How far the work was when that was last told: so many of so many steps.
    told: Cell<Option<(usize, usize)>>,
}

impl MemoryFiles {
    /// No files, and no call that fails.
    pub fn new(alloc: Global) -> Self
        ensures empty { IsEmpty result.files }
        ensures passing { result.passing ≡ None }
        ensures failures { result.failures ≡ 0 }
    {
        MemoryFiles {
            alloc,
            files: BTreeMap::new(alloc),
            passing: None,
            failures: 0,
            told: Cell::new(None),
        }
    }

    /// How far the work was when that was last told: so many of so many steps; none if it never was.
    pub fn told(&self) -> Option<(usize, usize)> {
        self.told.get()
    }

    /// Counts a call that failed.
    fn fail(&mut self) -> FileFault
        ensures fault { result ≡ FileFault.Failed }
        ensures counted { self.new.failures ≡ count_after FileFault.Failed self.old.failures }
        ensures same { (self.new.files ≡ self.old.files) × (self.new.passing ≡ self.old.passing) }
    {
        self.failures = self.failures.saturating_add(1);
        FileFault::Failed
    }

    /// Counts a call, and says whether it is the one that fails.
    fn begin_call(&mut self) -> bool
        ensures told { result ≡ fails_next self.old.passing }
        ensures counted { self.new.passing ≡ after_call self.old.passing }
        ensures same { (self.new.files ≡ self.old.files) × (self.new.failures ≡ self.old.failures) }
    {
        match self.passing {
            Some(passing) => {
                self.passing = passing.checked_sub(1);
                passing == 0
            }
            None => false,
        }
    }

    /// Makes a file of these bytes, or replaces the bytes of the one that is there.
    fn put(&mut self, name: &str, bytes: &[u8]) -> Result<(), AllocError>
        ensures written { OnOk result (IsWritten self.old.files name.now bytes.now self.new.files) }
        ensures unchanged { OnErr result (IsUnchanged self.old.files self.new.files) }
        ensures same { (self.new.passing ≡ self.old.passing) × (self.new.failures ≡ self.old.failures) }
    {
        let name = String::from_str(self.alloc, name)?;
        let bytes = Vec::from_slice(self.alloc, bytes)?;
        self.files.insert(name, bytes)?;
        Ok(())
    }
}

impl Files for MemoryFiles {
    ghost use Rattle.q_outside.specs.Memory.{Reads, Writes};

    ghost failed = { λ memory. memory.failures };

    ghost read_gives = { Reads };

    ghost write_gives = { λ old name bytes answer new. Writes old name bytes answer new };

    fn read(&mut self, alloc: Global, name: &str, most: usize) -> Result<Vec<u8>, FileFault> {
        if self.begin_call() {
            return Err(self.fail());
        }
        match self.files.get(name) {
            Some(bytes) => {
                if bytes.len() > most {
                    return Err(self.fail());
                }
                Ok(Vec::from_slice(alloc, bytes.as_slice())?)
            }
            None => Err(self.fail()),
        }
    }

    fn write(&mut self, name: &str, bytes: &[u8]) -> Result<(), FileFault> {
        if self.begin_call() {
            return Err(self.fail());
        }
        self.put(name, bytes)?;
        Ok(())
    }

    fn tell(&self, done: usize, of: usize) {
        self.told.set(Some((done, of)));
    }

    fn failures(&self) -> u64 {
        self.failures
    }
}
