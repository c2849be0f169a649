ghost use Rattle.std.specs.Prelude.{◌≡◌, ℕ, ◌↔◌, ◌<◌, ◌^◌, length, IsTrue, IsOk, IfOk, OnOk, OnErr};
ghost use Rattle.std.specs.FinSet as set;
ghost use Rattle.std.specs.Map.Iter.{TakesFirst};
ghost use Rattle.std.specs.Iterator.{at_most};
ghost use Rattle.std.specs.Arc.{arc_value};
ghost use Rattle.sc_members.specs.Ids.{IsLeastCommon, Learns, ids_in, rising};

use std::alloc::{AllocError, Global};
use std::collections::{BTreeSet, btree_set};
use std::marker::Model;
use std::sync::Arc;

/// A finite set of ids of nodes. Copies of a set share its ids, and they are changed only where one set alone has them.
#[derive(Drop)]
pub struct IdSet {
    alloc: Global,
    // What is read where nothing is shared. No id ever comes into it.
    none: BTreeSet<u64>,
    shared: Option<Arc<BTreeSet<u64>>>,
}

impl Model for IdSet {
    ghost use Rattle.std.specs.Option.{unwrap_or, option_map};
    ghost use Rattle.std.specs.Arc.{arc_value};
    ghost use Rattle.sc_members.specs.Ids.{Ids, ids_code, ids_in};

    ghost Value = { Ids };

    ghost coded = { ids_code };

    ghost view = { λ a. unwrap_or (option_map (λ it. ids_in (arc_value it)) a.shared) (ids_in a.none) };
}

/// The ids of a set that are still to come, in rising order.
#[derive(Drop)]
pub struct IdIter<'a> {
    inner: btree_set::Iter<'a, u64>,
}

impl<'a> Model for IdIter<'a> {
    ghost use Rattle.std.specs.Prelude.{ℕ, List};

    ghost Value = { List ℕ };

    ghost view = { λ a. a.inner };
}

impl<'a> Iterator for IdIter<'a> {
    type Item = u64;

    ghost next_gives = { TakesFirst (λ id. id) };

    ghost remaining = { λ s. at_most (length s) };

    fn next(&mut self) -> Option<u64> {
        self.inner.next().copied()
    }
}

impl IdSet {
    /// The set of no id.
    pub fn new(alloc: Global) -> IdSet
        ensures { result ≡ set.empty }
    {
        IdSet {
            alloc,
            none: BTreeSet::new(alloc),
            shared: None,
        }
    }

    // The set of these ids, which it alone has.
    fn of(alloc: Global, ids: BTreeSet<u64>) -> Result<IdSet, AllocError>
        ensures { IfOk result (λ made. made ≡ ids_in ids) }
    {
        Ok(IdSet {
            alloc,
            none: BTreeSet::new(alloc),
            shared: Some(Arc::new(alloc, ids)?),
        })
    }

    // The ids.
    fn held(&self) -> &BTreeSet<u64>
        ensures { ids_in result.now ≡ self.now }
    {
        match &self.shared {
            Some(ids) => ids,
            None => &self.none,
        }
    }

    /// The set of these ids, in any order; an id that stands twice counts once.
    pub fn from_slice(alloc: Global, ids: &[u64]) -> Result<IdSet, AllocError>
        ensures { IfOk result (λ made. made ≡ set.from_list ids.now) }
    {
        IdSet::of(alloc, ids.iter().copied().collect(alloc)?)
    }

    // The same set. Copies no id.
    fn share(&self) -> Result<IdSet, AllocError>
        ensures { IfOk result (λ ids. ids ≡ self.now) }
    {
        match &self.shared {
            Some(ids) => Ok(IdSet {
                alloc: self.alloc,
                none: BTreeSet::new(self.alloc),
                shared: Some(ids.clone()?),
            }),
            None => Ok(IdSet {
                alloc: self.alloc,
                none: self.none.clone()?,
                shared: None,
            }),
        }
    }

    // The ids once more, which nothing shares.
    fn copied(&self) -> Result<BTreeSet<u64>, AllocError>
        ensures { IfOk result (λ ids. ids_in ids ≡ self.now) }
    {
        self.held().clone()
    }

    /// Whether the id is in the set. Takes no memory.
    pub fn contains(&self, id: u64) -> bool
        ensures { result ≡ set.contains self.now id }
    {
        self.held().contains(&id)
    }

    /// Puts the id into the set. At Err the set is as it was. An id that is there takes no memory.
    pub fn insert(&mut self, id: u64) -> Result<(), AllocError>
        ensures ok { OnOk result (self.new ≡ set.insert self.old id) }
        ensures err { OnErr result (self.new ≡ self.old) }
        ensures known { IsTrue (set.contains self.old id) → IsOk result }
    {
        if self.contains(id) {
            return Ok(());
        }
        if let Some(ids) = &mut self.shared
            && learn(ids, id)?
        {
            return Ok(());
        }
        *self = self.with(id)?;
        Ok(())
    }

    /// How many ids are in the set.
    pub fn len(&self) -> usize
        ensures count { result ≡ set.len self.now }
        ensures small { result < 2 ^ 63 }
    {
        self.held().len()
    }

    /// Whether no id is in the set.
    pub fn is_empty(&self) -> bool
        ensures { IsTrue result ↔ (set.len self.now ≡ 0) }
    {
        self.len() == 0
    }

    /// The ids in rising order. Takes no memory.
    pub fn iter(&self) -> IdIter<'_>
        ensures { result ≡ rising self.now }
    {
        IdIter {
            inner: self.held().iter(),
        }
    }

    /// The least id that is in both sets. Takes no memory.
    pub fn least_common(&self, other: &IdSet) -> Option<u64>
        ensures { IsLeastCommon self.now other.now result }
    {
        self.held().intersection(other.held()).next().copied()
    }

    /// Whether all ids of the set are in the other. Takes no memory.
    pub(crate) fn is_subset(&self, other: &IdSet) -> bool
        ensures { result ≡ set.is_subset self.now other.now }
    {
        self.held().is_subset(other.held())
    }

    /// The ids of both sets. Copies none where the other has nothing new.
    pub fn union(&self, other: &IdSet) -> Result<IdSet, AllocError>
        ensures { IfOk result (λ both. both ≡ set.union self.now other.now) }
    {
        if other.is_subset(self) {
            return self.share();
        }
        let mut ids = self.copied()?;
        ids.extend(other.held())?;
        IdSet::of(self.alloc, ids)
    }

    /// The ids of the set, and this one. Copies none where this one is there.
    pub fn with(&self, id: u64) -> Result<IdSet, AllocError>
        ensures { IfOk result (λ more. more ≡ set.insert self.now id) }
    {
        if self.contains(id) {
            return self.share();
        }
        let mut ids = self.copied()?;
        ids.insert(id)?;
        IdSet::of(self.alloc, ids)
    }

    /// How many ids the set has once it has this one. Takes no memory.
    pub fn len_with(&self, id: u64) -> usize
        ensures { result ≡ set.len (set.insert self.now id) }
    {
        self.len() + usize::from(!self.contains(id))
    }

    /// How many ids are in the one set or the other. Takes no memory.
    pub fn union_len(&self, other: &IdSet) -> usize
        ensures { result ≡ set.len (set.union self.now other.now) }
    {
        self.held().union(other.held()).count()
    }

    /// How many ids are in this set and not in the other. Takes no memory.
    pub fn difference_len(&self, other: &IdSet) -> usize
        ensures { result ≡ set.len (set.difference self.now other.now) }
    {
        self.held().difference(other.held()).count()
    }
}

impl Clone for IdSet {
    ghost is_clone = { λ ids copy. copy ≡ ids };

    fn clone(&self) -> Result<IdSet, AllocError> {
        self.share()
    }
}

// Puts an id among others, where no other set has them. Answers whether it did.
fn learn(shared: &mut Arc<BTreeSet<u64>>, id: u64) -> Result<bool, AllocError>
    ensures ok { IfOk result (Learns (ids_in (arc_value shared.old)) id (ids_in (arc_value shared.new))) }
    ensures err { OnErr result (ids_in (arc_value shared.new) ≡ ids_in (arc_value shared.old)) }
{
    match Arc::get_mut(shared) {
        Some(ids) => {
            ids.insert(id)?;
            Ok(true)
        }
        None => Ok(false),
    }
}
