ghost use Rattle.std.specs.Prelude.{◌≡◌, ◌+◌, ℕ, List, ◌≤◌, ◌<◌, ◌↔◌, not, filter, is_some, length, true, IsTrue, IfSome, IfOk, OnOk, OnErr, IsOk, IsErrOf};
ghost use Rattle.std.specs.FinMap as fin;
ghost use Rattle.std.specs.Ordering.{nat_cmp};
ghost use Rattle.std.specs.Map.Iter.{TakesFirst};
ghost use Rattle.std.specs.Iterator.{at_most};
ghost use Rattle.sc_view.specs.Faults.{reason};
ghost use Rattle.sc_view.specs.Values.{all_lengths, lengths, most_bytes};
ghost use Rattle.sc_view.specs.Views.{IsView, is_newer, put, merge, most_entries, number_at, IsBelow, IsChunking, HasValuesWithin, has_values_within};
ghost use Rattle.std.specs.List.{slice_get};
ghost use Rattle.std.specs.Option.{option_copied, SomeIff};
ghost use Rattle.sc_view.specs.declared.view.Stored.{Stored as StoredValue};
ghost use Rattle.sc_view.specs.declared.view.ViewFault.TheVariants.{OutOfMemory};

use crate::chunks::Chunks;
use crate::row::{
    News, Rest, Row, have_values_within, merged, next_entry, place, put_entry, what_is_new,
};
use crate::value::Value;
use arrayvec::ArrayVec;
use reasons::{Reason, told};
use sc_chunk::{Chunk, find};
use std::alloc::{AllocError, AllocFailed, Global};
use std::marker::Model;

/// The most ids that a view holds.
pub const MOST_ENTRIES: usize = 256;

/// A value of a node, with the number under which the node stored it.
#[derive(Clone, Copy, Debug, PartialEq, Eq)]
pub struct Stored {
    number: u64,
    value: Value,
}

impl Model for Stored {
    ghost use Rattle.std.specs.Prelude.{◌≤◌, length};
    ghost use Rattle.sc_view.specs.Values.{StoredValue, most_bytes};

    ghost Value = { StoredValue };

    ghost view = { λ s. record { number = s.number; value = s.value } };

    ghost invariant = { λ s. (1 ≤ s.number) × (length s.value ≤ most_bytes) };

    ghost inverse = { λ v. record { number = v.number; value = v.value } };
}

impl Stored {
    /// The value under its number; none where the number is 0, since nodes count their stores from 1.
    pub fn new(number: u64, value: Value) -> Option<Stored>
        ensures { SomeIff result (1 ≤ number) (record { number = number; value = value }) }
    {
        let _ = value.bytes();
        if number == 0 {
            return None;
        }
        Some(Stored { number, value })
    }

    /// The sequence number of the store, counted by the storing node from 1.
    pub fn number(&self) -> u64
        ensures number { result ≡ self.now.number }
        ensures counted { 1 ≤ result }
        ensures short { length self.now.value ≤ most_bytes }
    {
        self.number
    }

    /// The bytes that were stored.
    pub fn value(&self) -> &Value
        ensures { result.now ≡ self.now.value }
    {
        &self.value
    }
}

/// An id, and what is known of it.
pub type Entry = (u64, Stored);

/// Why a view doesn't take what it is given.
#[derive(Clone, Copy, Debug, PartialEq, Eq)]
pub enum ViewFault {
    /// 46: a 257th id would come.
    Full,
    /// 99: no memory for one more entry, or for a new view.
    OutOfMemory,
}

impl ViewFault {
    /// The reason by which the fault is told, 46 or 99.
    pub fn reason(self) -> Reason
        ensures { result ≡ reason self }
    {
        told!(self, ViewFault: Full => ViewFull, OutOfMemory)
    }
}

impl From<AllocError> for ViewFault {
    ghost from_gives = { λ _ e. e ≡ OutOfMemory };

    fn from(_: AllocError) -> ViewFault {
        ViewFault::OutOfMemory
    }
}

impl<T: Drop> From<AllocFailed<T>> for ViewFault {
    ghost from_gives = { λ _ e. e ≡ OutOfMemory };

    fn from(_: AllocFailed<T>) -> ViewFault {
        ViewFault::OutOfMemory
    }
}

impl From<ViewFault> for Reason {
    ghost from_gives = { λ fault e. e ≡ reason fault };

    fn from(fault: ViewFault) -> Reason {
        fault.reason()
    }
}

/// For each node the newest value that is known of it: at most 256 nodes, sequence numbers from 1, values of at most
/// 112 bytes.
pub struct View {
    alloc: Global,
    row: Row,
    count: usize,
}

impl Drop for View {
    // By hand, so that it is proved here alone, and not in each crate that drops one.
    fn drop(self) {
        let View {
            alloc: _,
            row: _,
            count: _,
        } = self;
    }
}

impl Model for View {
    ghost use Rattle.std.specs.FinMap as fin;
    ghost use Rattle.sc_view.specs.Views.{ViewMap, IsView, view_code};
    ghost use Rattle.sc_view.specs.Rows.{joined, IsHeld};

    ghost Value = { ViewMap };

    ghost coded = { view_code };

    ghost view = { λ a. fin.from_entries (joined a.row.items) };

    ghost invariant = { λ a. IsHeld a.row.items a.count };
}

/// The entries of a view that are still to come, in rising id order.
#[derive(Drop)]
pub struct Records<'a> {
    rest: Rest<'a>,
}

impl<'a> Model for Records<'a> {
    ghost use Rattle.std.specs.Prelude.{ℕ, List};
    ghost use Rattle.sc_view.specs.declared.view.Stored.{Stored};
    ghost use Rattle.sc_view.specs.Rows.{joined};
    ghost use Rattle.std.specs.Prelude.{◌++◌};

    ghost Value = { List (ℕ × Stored) };

    ghost view = { λ a. a.rest.entries.now ++ joined a.rest.chunks.now };
}

impl<'a> Iterator for Records<'a> {
    type Item = (u64, &'a Stored);

    ghost next_gives = { TakesFirst (λ e. (e.0, e.1.now)) };

    ghost remaining = { λ s. at_most (length s) };

    fn next(&mut self) -> Option<(u64, &'a Stored)> {
        let (id, stored) = next_entry(&mut self.rest)?;
        Some((*id, stored))
    }
}

impl View {
    /// The view of no node.
    pub fn new(alloc: Global) -> View
        ensures { result ≡ fin.empty }
    {
        let mut row = ArrayVec::new();
        row.push(Chunk::default());
        View {
            alloc,
            row,
            count: 0,
        }
    }

    /// What is known of the node. Takes no memory.
    pub fn get(&self, id: u64) -> Option<Stored>
        ensures value { result ≡ fin.get self.now id }
        ensures counted { IfSome result (λ stored. 1 ≤ stored.number) }
    {
        let chunks = self.row.as_slice();
        find(chunks[place(chunks, id)].as_slice(), id)
    }

    /// How many nodes the view has a value of.
    pub fn len(&self) -> usize
        ensures count { result ≡ fin.len self.now }
        ensures valid { IsView self.now }
    {
        self.count
    }

    /// Whether the view has a value of no node.
    pub fn is_empty(&self) -> bool
        ensures { IsTrue result ↔ (fin.len self.now ≡ 0) }
    {
        self.len() == 0
    }

    /// Whether each value has at least and at most so many bytes. Takes no memory.
    pub fn has_values_within(&self, least: usize, most: usize) -> bool
        ensures told { result ≡ has_values_within (lengths least most) self.now }
        ensures each { IsTrue result ↔ HasValuesWithin (lengths least most) self.now }
    {
        have_values_within(self.row.as_slice(), least, most)
    }

    /// A law of every view: no value has more than 112 bytes, and the test finds so.
    pub fn values_are_short(&self)
        ensures told { has_values_within all_lengths self.now ≡ true }
        ensures each { HasValuesWithin all_lengths self.now }
    {
        let _count = self.len();
    }

    /// The entries in rising id order, each with its id. Takes no memory.
    pub fn records(&self) -> Records<'_>
        ensures all { result ≡ fin.entries self.now }
        ensures few { length result ≤ most_entries }
    {
        Records {
            rest: Rest {
                entries: &[],
                chunks: self.row.as_slice(),
            },
        }
    }

    /// The same map. Copies no entry.
    pub fn share(&self) -> Result<View, AllocError>
        ensures { IfOk result (λ view. view ≡ self.now) }
    {
        Ok(View {
            alloc: self.alloc,
            row: self.row.clone()?,
            count: self.count,
        })
    }

    /// The chunks that hold the entries. Takes no memory.
    pub fn chunks(&self) -> Chunks<'_>
        ensures { IsChunking self.now result }
    {
        if self.count == 0 {
            return Chunks::of(&[]);
        }
        Chunks::of(self.row.as_slice())
    }

    /// The entries of chunk number k of `chunks`, and None past the last chunk. Takes no memory.
    pub fn chunk(&self, k: usize) -> Option<&[Entry]>
        ensures { (chunks : List (List (ℕ × StoredValue))) × IsChunking self.now chunks × (option_copied result ≡ slice_get chunks k) }
    {
        self.chunks().get(k)
    }

    /// Learns one value of a node: the one with the larger number stays, and at equal numbers the one that is there.
    /// Refused 46 where a 257th id would come, and else 99; the view is then as it was. What is known takes no memory.
    pub fn put(&mut self, id: u64, stored: Stored) -> Result<(), ViewFault>
        ensures ok { OnOk result (self.new ≡ put self.old id stored) }
        ensures valid { OnOk result (IsView self.new) }
        ensures full { IsErrOf result ViewFault.Full ↔ (most_entries < fin.len (put self.old id stored)) }
        ensures err { OnErr result (self.new ≡ self.old) }
        ensures known { stored.number ≤ number_at self.old id → IsOk result × (self.new ≡ self.old) }
    {
        // Its number counts from 1.
        let _ = stored.number();
        let (known, count) = self.get_with_len(id);
        if count > MOST_ENTRIES {
            return Err(ViewFault::Full);
        }
        if is_newer(known, stored) {
            put_entry(self.alloc, &mut self.row, id, stored)?;
            self.count = count;
        }
        Ok(())
    }

    // What is known of the node, and how many ids the view has once it has this one.
    fn get_with_len(&self, id: u64) -> (Option<Stored>, usize)
        ensures known { result.0 ≡ fin.get self.now id }
        ensures count { (stored : StoredValue) → result.1 ≡ fin.len (put self.now id stored) }
        ensures valid { IsView self.now }
    {
        let known = self.get(id);
        (known, self.len() + usize::from(known.is_none()))
    }

    /// This view and the other as one: for each node the value with the larger number, this view's at equal ones.
    /// Refused 46 where the two have more than 256 ids together, and else 99.
    pub fn merged(&self, other: &View) -> Result<View, ViewFault>
        ensures ok { IfOk result (λ both. both ≡ merge self.now other.now) }
        ensures valid { IfOk result IsView }
        ensures full { IsErrOf result ViewFault.Full ↔ (most_entries < fin.len (merge self.now other.now)) }
    {
        let news = self.news_of(other);
        let count = self.len() + news.ids;
        if count > MOST_ENTRIES {
            return Err(ViewFault::Full);
        }
        if news.values == 0 {
            return Ok(self.share()?);
        }
        let row = merged(self.alloc, &self.row, other.row.as_slice())?;
        Ok(View {
            alloc: self.alloc,
            row,
            count,
        })
    }

    // What the other view tells beyond this one.
    fn news_of(&self, other: &View) -> News
        ensures count { fin.len self.now + result.ids ≡ fin.len (merge self.now other.now) }
        ensures few { result.ids ≤ most_entries }
        ensures none { result.values ≡ 0 → merge self.now other.now ≡ self.now }
        ensures known { IsBelow other.now self.now → result.values ≡ 0 }
        ensures valid { IsView self.now }
        ensures other_valid { IsView other.now }
    {
        what_is_new(self.row.as_slice(), other.row.as_slice())
    }

    /// Learns all that the other view holds, as `merged`. At Err the view is as it was. What is known takes no memory.
    pub fn merge(&mut self, other: &View) -> Result<(), ViewFault>
        ensures ok { OnOk result (self.new ≡ merge self.old other.now) }
        ensures valid { OnOk result (IsView self.new) }
        ensures full { IsErrOf result ViewFault.Full ↔ (most_entries < fin.len (merge self.old other.now)) }
        ensures err { OnErr result (self.new ≡ self.old) }
        ensures known { IsBelow other.now self.old → IsOk result × (self.new ≡ self.old) }
    {
        if self.news_of(other).values == 0 {
            return Ok(());
        }
        *self = self.merged(other)?;
        Ok(())
    }
}

/// Whether the value is newer than what is known.
pub(crate) fn is_newer(known: Option<Stored>, stored: Stored) -> bool
    ensures { result ≡ is_newer known stored }
{
    match known {
        Some(known) => known.number() < stored.number(),
        None => true,
    }
}

impl Clone for View {
    ghost is_clone = { λ view copy. copy ≡ view };

    fn clone(&self) -> Result<View, AllocError> {
        self.share()
    }
}
