//! The second form of a view, for tests: a sorted map of entries.
ghost use Rattle.std.specs.Prelude.{◌≡◌, ℕ, ◌≤◌, not, filter, is_some, length, IfOk, OnOk, OnErr};
ghost use Rattle.std.specs.FinMap as fin;
ghost use Rattle.std.specs.BTreeMap.{get, keys, IsOrdered};
ghost use Rattle.std.specs.Ordering.{nat_cmp};
ghost use Rattle.sc_view.specs.Views.{IsView, put, merge};
ghost use Rattle.sc_view.specs.declared.view.Stored.{Stored as StoredValue};

use crate::form::ViewForm;
use crate::view::{MOST_ENTRIES, Stored, ViewFault, is_newer};
use std::alloc::{AllocError, Global};
use std::collections::BTreeMap;
use std::marker::Model;

/// For each node the newest value that is known of it: at most 256 nodes, sequence numbers from 1.
#[derive(Drop)]
pub struct SortedView {
    entries: BTreeMap<u64, Stored>,
}

impl Model for SortedView {
    ghost use Rattle.std.specs.FinMap as fin;
    ghost use Rattle.sc_view.specs.Views.{ViewMap, IsView, view_code};

    ghost Value = { ViewMap };

    ghost coded = { view_code };

    ghost view = { λ a. fin.from_entries a.entries.entries };

    ghost invariant = { λ a. IsView (fin.from_entries a.entries.entries) };
}

impl SortedView {
    /// The view of no node.
    pub fn new(alloc: Global) -> SortedView
        ensures { result ≡ fin.empty }
    {
        SortedView {
            entries: BTreeMap::new(alloc),
        }
    }

    // How many ids the view has once it has this one.
    fn len_with(&self, id: u64) -> usize
        ensures count { (stored : StoredValue) → result ≡ fin.len (put self.now id stored) }
        ensures valid { IsView self.now }
    {
        self.entries.len() + usize::from(self.value(id).is_none())
    }

    // How many ids the two views have together.
    fn len_with_all(&self, other: &SortedView) -> usize
        ensures count { result ≡ fin.len (merge self.now other.now) }
        ensures valid { IsView self.now }
        ensures other_valid { IsView other.now }
    {
        self.entries.len() + count_new(&self.entries, &other.entries)
    }
}

// How many ids of the second are not in the first.
fn count_new(known: &BTreeMap<u64, Stored>, more: &BTreeMap<u64, Stored>) -> usize
    ensures count { result ≡ length (filter (λ id. not (is_some (get nat_cmp known.now id))) (keys more.now)) }
    ensures ordered { IsOrdered nat_cmp more.now }
{
    more.keys().filter(|id| !known.contains_key(*id)).count()
}

// The same entries.
fn copied(entries: &BTreeMap<u64, Stored>) -> Result<BTreeMap<u64, Stored>, AllocError>
    ensures { IfOk result (λ copy. copy.entries ≡ entries.now.entries) }
{
    entries.clone()
}

fn learn(entries: &mut BTreeMap<u64, Stored>, id: u64, stored: Stored) -> Result<(), AllocError>
    ensures ok { OnOk result (fin.from_entries entries.new.entries ≡ put (fin.from_entries entries.old.entries) id stored) }
    ensures err { OnErr result (entries.new.entries ≡ entries.old.entries) }
{
    if is_newer(entries.get(&id).copied(), stored) {
        entries.insert(id, stored)?;
    }
    Ok(())
}

fn learn_all(
    entries: &mut BTreeMap<u64, Stored>,
    more: &BTreeMap<u64, Stored>,
) -> Result<(), AllocError>
    ensures { OnOk result (fin.from_entries entries.new.entries ≡ merge (fin.from_entries entries.old.entries) (fin.from_entries more.now.entries)) }
{
    for (id, stored) in more {
        learn(entries, *id, *stored)?;
    }
    Ok(())
}

impl ViewForm for SortedView {
    ghost map = { λ v. v };

    fn value(&self, id: u64) -> Option<Stored> {
        self.entries.get(&id).copied()
    }

    fn learn(&mut self, id: u64, stored: Stored) -> Result<(), ViewFault> {
        // Its number counts from 1.
        let _ = stored.number();
        if self.len_with(id) > MOST_ENTRIES {
            return Err(ViewFault::Full);
        }
        learn(&mut self.entries, id, stored)?;
        Ok(())
    }

    fn join(&mut self, other: &SortedView) -> Result<(), ViewFault> {
        if self.len_with_all(other) > MOST_ENTRIES {
            return Err(ViewFault::Full);
        }
        let mut entries = copied(&self.entries)?;
        learn_all(&mut entries, &other.entries)?;
        self.entries = entries;
        Ok(())
    }
}
