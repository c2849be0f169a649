//! The open operations of a node.

ghost use Rattle.std.specs.Prelude.{◌≡◌, ℕ, Some, false, OnOk, OnErr, option_copied};
ghost use Rattle.std.specs.FinMap as fin;
ghost use Rattle.sc_operations.specs.Sessions.{querying, storing, ends, ended_at, sessions_after};
ghost use Rattle.sc_operations.specs.declared.progress.Advance.TheVariants as Advance;

use crate::progress::{Advance, Ended};
use crate::session::{Phase, Session};
use std::alloc::{AllocError, Global};
use std::collections::BTreeMap;
use std::marker::Model;

/// The open operations of a node, by their tags.
#[derive(Drop)]
pub struct Sessions {
    entries: BTreeMap<u64, Session>,
}

impl Model for Sessions {
    ghost use Rattle.std.specs.FinMap as fin;
    ghost use Rattle.std.specs.Ordering.{nat_cmp};
    ghost use Rattle.std.specs.Coded.{coded_ℕ};
    ghost use Rattle.sc_operations.specs.declared.session.Session.{Session};
    ghost use Rattle.sc_operations.specs.contracts.session.Session as session;

    ghost Value = { fin.FinMap nat_cmp Session };

    ghost coded = { fin.code coded_ℕ session.the_row.coded };

    ghost view = { λ a. fin.from_entries a.entries.entries };
}

impl Sessions {
    /// No open operation.
    pub fn new(alloc: Global) -> Sessions
        ensures { result ≡ fin.empty }
    {
        Sessions {
            entries: BTreeMap::new(alloc),
        }
    }

    /// How many are open.
    pub fn len(&self) -> usize
        ensures { result ≡ fin.len self.now }
    {
        self.entries.len()
    }

    /// The operation, if it is open.
    pub fn get(&self, tag: u64) -> Option<&Session>
        ensures { option_copied result ≡ fin.get self.now tag }
    {
        self.entries.get(&tag)
    }

    /// The query phase of an operation that is in it.
    pub fn querying(&self, tag: u64) -> Option<&Phase>
        ensures { option_copied result ≡ querying (fin.get self.now tag) }
    {
        match self.get(tag)? {
            Session::Querying(query) => Some(query),
            _ => None,
        }
    }

    /// The phase of an operation that is stored, or stored back.
    pub(crate) fn storing(&self, tag: u64) -> Option<&Phase>
        ensures { option_copied result ≡ storing (fin.get self.now tag) }
    {
        let back = self.get(tag)?.back()?;
        Some(&back.phase)
    }

    /// Opens an operation. At Err the operations are as they were.
    pub fn insert(&mut self, tag: u64, session: Session) -> Result<(), AllocError>
        ensures ok { OnOk result (self.new ≡ fin.insert self.old tag session) }
        ensures err { OnErr result (self.new ≡ self.old) }
    {
        self.entries.insert(tag, session)?;
        Ok(())
    }

    /// Moves an operation that goes on. At Err the operations are as they were.
    pub(crate) fn advance(
        &mut self,
        alloc: Global,
        tag: u64,
        sender: u64,
        advance: Advance,
    ) -> Result<(), AllocError>
        requires { ends advance ≡ false }
        ensures ok { OnOk result (self.new ≡ sessions_after self.old (Some (record { tag = tag; sender = sender; advance = advance }))) }
        ensures err { OnErr result (self.new ≡ self.old) }
    {
        let Some(session) = self.entries.get_mut(&tag) else {
            return Ok(());
        };
        session.take(alloc, sender, advance)?;
        Ok(())
    }

    /// Ends an operation, and gives what it ends with.
    pub(crate) fn end(&mut self, tag: u64) -> Option<Ended>
        ensures ended { result ≡ ended_at tag Advance.Ended (fin.get self.old tag) }
        ensures removed { (sender : ℕ) → self.new ≡ sessions_after self.old (Some (record { tag = tag; sender = sender; advance = Advance.Ended })) }
    {
        let session = self.entries.remove(&tag)?;
        session.into_ended(tag)
    }
}
