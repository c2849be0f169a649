ghost use Rattle.std.specs.Prelude.{◌≡◌, ◌≤◌, ◌↔◌, length, IsTrue, IsOk, IfOk, OnOk, OnErr, IsErrOf};
ghost use Rattle.std.specs.FinSet as set;
ghost use Rattle.sc_members.specs.Faults.{reason};
ghost use Rattle.sc_members.specs.Members.{Facts as KnownFacts, IsFacts, most_facts, is_overfull, no_facts, founding, present, members, union_facts, with_entered, with_joined, with_left};
ghost use Rattle.sc_members.specs.declared.facts.FactsFault.TheVariants.{OutOfMemory};

use crate::ids::IdSet;
use reasons::{Reason, told};
use std::alloc::{AllocError, AllocFailed, Global};
use std::marker::Model;

/// The most ids that each of the three sets holds.
pub const MOST_FACTS: usize = 1024;

/// Who is known to have entered, joined and left: at most 1,024 ids each.
#[derive(Drop)]
pub struct Facts {
    entered: IdSet,
    joined: IdSet,
    left: IdSet,
}

impl Model for Facts {
    ghost use Rattle.std.specs.Coded.{codes};
    ghost use Rattle.sc_members.specs.Ids.{ids_code};
    ghost use Rattle.sc_members.specs.Members.{Facts as KnownFacts, IsFacts};

    ghost Value = { KnownFacts };

    ghost coded = { Prim.hlevel (codes, ids_code) };

    ghost view = { λ a. record { entered = a.entered; joined = a.joined; left = a.left } };

    ghost invariant = { λ a. IsFacts (record { entered = a.entered; joined = a.joined; left = a.left }) };
}

/// Why facts don't take what they are given.
#[derive(Clone, Copy, Debug, PartialEq, Eq)]
pub enum FactsFault {
    /// 47: a set would get more than 1,024 ids.
    Full,
    /// 99: no memory for the ids.
    OutOfMemory,
}

impl FactsFault {
    /// The reason by which the fault is told, 47 or 99.
    pub fn reason(self) -> Reason
        ensures { result ≡ reason self }
    {
        told!(self, FactsFault: Full => FactsFull, OutOfMemory)
    }
}

impl From<AllocError> for FactsFault {
    ghost from_gives = { λ _ e. e ≡ OutOfMemory };

    fn from(_: AllocError) -> FactsFault {
        FactsFault::OutOfMemory
    }
}

impl<T: Drop> From<AllocFailed<T>> for FactsFault {
    ghost from_gives = { λ _ e. e ≡ OutOfMemory };

    fn from(_: AllocFailed<T>) -> FactsFault {
        FactsFault::OutOfMemory
    }
}

impl From<FactsFault> for Reason {
    ghost from_gives = { λ fault e. e ≡ reason fault };

    fn from(fault: FactsFault) -> Reason {
        fault.reason()
    }
}

impl Facts {
    /// Nobody entered, joined or left.
    pub fn new(alloc: Global) -> Facts
        ensures { result ≡ no_facts }
    {
        Facts {
            entered: IdSet::new(alloc),
            joined: IdSet::new(alloc),
            left: IdSet::new(alloc),
        }
    }

    /// These ids have entered and joined, and nobody left.
    pub fn founders(alloc: Global, ids: &[u64]) -> Result<Facts, AllocError>
        requires { length ids.now ≤ most_facts }
        ensures { IfOk result (λ facts. facts ≡ founding ids.now) }
    {
        Ok(Facts {
            entered: IdSet::from_slice(alloc, ids)?,
            joined: IdSet::from_slice(alloc, ids)?,
            left: IdSet::new(alloc),
        })
    }

    /// The facts of these three sets.
    pub fn from_sets(entered: IdSet, joined: IdSet, left: IdSet) -> Facts
        requires entered { set.len entered ≤ most_facts }
        requires joined { set.len joined ≤ most_facts }
        requires left { set.len left ≤ most_facts }
        ensures entered { result.entered ≡ entered }
        ensures joined { result.joined ≡ joined }
        ensures left { result.left ≡ left }
    {
        Facts {
            entered,
            joined,
            left,
        }
    }

    /// Who is known to have entered.
    pub fn entered(&self) -> &IdSet
        ensures field { result.now ≡ self.now.entered }
        ensures valid { IsFacts self.now }
    {
        &self.entered
    }

    /// Who is known to have joined.
    pub fn joined(&self) -> &IdSet
        ensures field { result.now ≡ self.now.joined }
        ensures valid { IsFacts self.now }
    {
        &self.joined
    }

    /// Who is known to have left.
    pub fn left(&self) -> &IdSet
        ensures field { result.now ≡ self.now.left }
        ensures valid { IsFacts self.now }
    {
        &self.left
    }
}

impl Facts {
    /// How many nodes have entered and not left. Takes no memory.
    pub fn present(&self) -> usize
        ensures { result ≡ present self.now }
    {
        self.entered.difference_len(&self.left)
    }

    /// How many nodes have joined and not left. Takes no memory.
    pub fn members(&self) -> usize
        ensures { result ≡ members self.now }
    {
        self.joined.difference_len(&self.left)
    }
}

// Each of these makes new facts, and leaves these as they are.
impl Facts {
    /// These facts, and that the node has entered. Refused 47 where a set would get more than 1,024 ids, and else 99.
    pub fn with_entered(&self, id: u64) -> Result<Facts, FactsFault>
        ensures ok { IfOk result (λ facts. facts ≡ with_entered self.now id) }
        ensures few { IfOk result IsFacts }
        ensures full { IsErrOf result FactsFault.Full ↔ IsTrue (is_overfull (with_entered self.now id)) }
    {
        if !has_room(&self.entered, id) {
            return Err(FactsFault::Full);
        }
        Ok(Facts {
            entered: self.entered.with(id)?,
            joined: self.joined.clone()?,
            left: self.left.clone()?,
        })
    }

    /// These facts, and that the node has entered and joined. Refused as `with_entered`.
    pub fn with_joined(&self, id: u64) -> Result<Facts, FactsFault>
        ensures ok { IfOk result (λ facts. facts ≡ with_joined self.now id) }
        ensures few { IfOk result IsFacts }
        ensures full { IsErrOf result FactsFault.Full ↔ IsTrue (is_overfull (with_joined self.now id)) }
    {
        if self.entered.len_with(id).max(self.joined.len_with(id)) > MOST_FACTS {
            return Err(FactsFault::Full);
        }
        Ok(Facts {
            entered: self.entered.with(id)?,
            joined: self.joined.with(id)?,
            left: self.left.clone()?,
        })
    }

    /// These facts, and that the node has left. Refused as `with_entered`.
    pub fn with_left(&self, id: u64) -> Result<Facts, FactsFault>
        ensures ok { IfOk result (λ facts. facts ≡ with_left self.now id) }
        ensures few { IfOk result IsFacts }
        ensures full { IsErrOf result FactsFault.Full ↔ IsTrue (is_overfull (with_left self.now id)) }
    {
        if !has_room(&self.left, id) {
            return Err(FactsFault::Full);
        }
        Ok(Facts {
            entered: self.entered.clone()?,
            joined: self.joined.clone()?,
            left: self.left.with(id)?,
        })
    }

    /// What these facts and the others say together. Refused as `with_entered`.
    pub fn united(&self, other: &Facts) -> Result<Facts, FactsFault>
        ensures ok { IfOk result (λ facts. facts ≡ union_facts self.now other.now) }
        ensures few { IfOk result IsFacts }
        ensures full { IsErrOf result FactsFault.Full ↔ IsTrue (is_overfull (union_facts self.now other.now)) }
    {
        let entered = self.entered.union_len(&other.entered);
        let joined = self.joined.union_len(&other.joined);
        let left = self.left.union_len(&other.left);
        if entered.max(joined).max(left) > MOST_FACTS {
            return Err(FactsFault::Full);
        }
        Ok(Facts {
            entered: self.entered.union(&other.entered)?,
            joined: self.joined.union(&other.joined)?,
            left: self.left.union(&other.left)?,
        })
    }
}

// The same in place. At Err the facts are as they were. What is known takes no memory.
impl Facts {
    /// Learns that the node has entered.
    pub fn add_entered(&mut self, id: u64) -> Result<(), FactsFault>
        ensures ok { OnOk result (self.new ≡ with_entered self.old id) }
        ensures few { OnOk result (IsFacts self.new) }
        ensures full { IsErrOf result FactsFault.Full ↔ IsTrue (is_overfull (with_entered self.old id)) }
        ensures err { OnErr result (self.new ≡ self.old) }
        ensures known { with_entered self.old id ≡ self.old → IsOk result }
    {
        if !has_room(&self.entered, id) {
            return Err(FactsFault::Full);
        }
        self.entered.insert(id)?;
        Ok(())
    }

    /// Learns that the node has entered and joined.
    pub fn add_joined(&mut self, id: u64) -> Result<(), FactsFault>
        ensures ok { OnOk result (self.new ≡ with_joined self.old id) }
        ensures few { OnOk result (IsFacts self.new) }
        ensures full { IsErrOf result FactsFault.Full ↔ IsTrue (is_overfull (with_joined self.old id)) }
        ensures err { OnErr result (self.new ≡ self.old) }
        ensures known { with_joined self.old id ≡ self.old → IsOk result }
    {
        if self.knows_joined(id) {
            return Ok(());
        }
        *self = self.with_joined(id)?;
        Ok(())
    }

    /// Learns that the node has left.
    pub fn add_left(&mut self, id: u64) -> Result<(), FactsFault>
        ensures ok { OnOk result (self.new ≡ with_left self.old id) }
        ensures few { OnOk result (IsFacts self.new) }
        ensures full { IsErrOf result FactsFault.Full ↔ IsTrue (is_overfull (with_left self.old id)) }
        ensures err { OnErr result (self.new ≡ self.old) }
        ensures known { with_left self.old id ≡ self.old → IsOk result }
    {
        if !has_room(&self.left, id) {
            return Err(FactsFault::Full);
        }
        self.left.insert(id)?;
        Ok(())
    }

    /// Learns what the others know.
    pub fn union(&mut self, other: &Facts) -> Result<(), FactsFault>
        ensures ok { OnOk result (self.new ≡ union_facts self.old other.now) }
        ensures few { OnOk result (IsFacts self.new) }
        ensures full { IsErrOf result FactsFault.Full ↔ IsTrue (is_overfull (union_facts self.old other.now)) }
        ensures err { OnErr result (self.new ≡ self.old) }
        ensures known { union_facts self.old other.now ≡ self.old → IsOk result }
    {
        if self.knows(other) {
            return Ok(());
        }
        *self = self.united(other)?;
        Ok(())
    }

    // Whether it is known that the node has joined.
    fn knows_joined(&self, id: u64) -> bool
        ensures known { IsTrue result ↔ (with_joined self.now id ≡ self.now) }
        ensures valid { IsFacts self.now }
    {
        self.entered.contains(id) && self.joined.contains(id)
    }

    // Whether the others say nothing new.
    fn knows(&self, other: &Facts) -> bool
        ensures known { IsTrue result ↔ (union_facts self.now other.now ≡ self.now) }
        ensures valid { IsFacts self.now }
    {
        other.entered.is_subset(&self.entered)
            && other.joined.is_subset(&self.joined)
            && other.left.is_subset(&self.left)
    }
}

// Whether the set may get this id.
fn has_room(ids: &IdSet, id: u64) -> bool
    ensures { IsTrue result ↔ (set.len (set.insert ids.now id) ≤ most_facts) }
{
    ids.len_with(id) <= MOST_FACTS
}

impl Clone for Facts {
    ghost is_clone = { λ facts copy. copy ≡ facts };

    fn clone(&self) -> Result<Facts, AllocError> {
        Ok(Facts {
            entered: self.entered.clone()?,
            joined: self.joined.clone()?,
            left: self.left.clone()?,
        })
    }
}
