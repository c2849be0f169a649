//! Rows of chunks, whose ids rise within and across the chunks.
ghost use Rattle.std.specs.Prelude.{◌≡◌, ◌+◌, ◌≤◌, ◌<◌, ◌↔◌, [], length, All, IsTrue, IfOk, OnOk, OnErr, slice_index_or, slice_set, take, drop, ◌++◌};
ghost use Rattle.std.specs.Ordering.{nat_cmp};
ghost use Rattle.std.specs.FinMap.Entries.{put, find};
ghost use Rattle.sc_view.specs.Rows.{joined, IsRow, Rises, Under, Over, LearnsAt, starts_above, from, count_lacking, count_newer};
ghost use Rattle.std.specs.Option.{option_map};
ghost use Rattle.std.specs.Map.Iter.{TakesFirst};
ghost use Rattle.std.specs.FinMap as fin;
ghost use Rattle.sc_view.specs.Values.{IsWithin, lengths};
ghost use Rattle.sc_view.specs.Views.{merge};

use crate::value::Value;
use crate::view::{Entry, Stored};
use arrayvec::ArrayVec;
use sc_chunk::{CHUNK_CAPACITY, Chunk, is_larger, learn, with_entry};
use std::alloc::{AllocError, Global};

/// The fewest entries of a chunk, where there are several.
const FEWEST: usize = 16;

pub(crate) type Row = ArrayVec<Chunk<Stored>, 16>;

/// The chunk where an id belongs: all ids before it are smaller, and all behind it are larger.
pub(crate) fn place(row: &[Chunk<Stored>], id: u64) -> usize
    requires { IsRow row.now }
    ensures within { result < length row.now }
    ensures under { Under id (joined (take result row.now)) }
    ensures over { Over id (joined (drop (result + 1) row.now)) }
{
    for k in 1..row.len() {
        if starts_above(&row[k], id) {
            return k - 1;
        }
    }
    row.len() - 1
}

// Whether all ids are larger.
fn starts_above(chunk: &Chunk<Stored>, id: u64) -> bool
    ensures { result ≡ starts_above id chunk.now }
{
    match chunk.as_slice().first() {
        Some((first, _)) => id < *first,
        None => false,
    }
}

/// Learns an entry. At Err the row is as it was.
pub(crate) fn put_entry(
    alloc: Global,
    row: &mut Row,
    id: u64,
    stored: Stored,
) -> Result<(), AllocError>
    requires row { IsRow row.old.items }
    requires room { length (put nat_cmp id stored (joined row.old.items)) ≤ 256 }
    ensures ok { OnOk result (joined row.new.items ≡ put nat_cmp id stored (joined row.old.items)) }
    ensures row { IsRow row.new.items }
    ensures err { OnErr result (row.new.items ≡ row.old.items) }
{
    let at = place(row.as_slice(), id);
    if learn_at(row, at, id, stored)? {
        return Ok(());
    }
    put_copy(alloc, row, at, id, stored)
}

// Learns an entry in place, where no other view has its chunk and there is room. Answers whether it did.
fn learn_at(row: &mut Row, at: usize, id: u64, stored: Stored) -> Result<bool, AllocError>
    requires within { at < length row.old.items }
    requires few { length (slice_index_or row.old.items at []) ≤ 32 }
    ensures ok { IfOk result (LearnsAt at id stored row.old.items row.new.items) }
    ensures err { OnErr result (row.new.items ≡ row.old.items) }
{
    learn(&mut row.as_mut_slice()[at], id, stored)
}

// Learns an entry in a copy of its chunk, or in two where it splits.
fn put_copy(
    alloc: Global,
    row: &mut Row,
    at: usize,
    id: u64,
    stored: Stored,
) -> Result<(), AllocError>
    requires row { IsRow row.old.items }
    requires room { length (put nat_cmp id stored (joined row.old.items)) ≤ 256 }
    requires within { at < length row.old.items }
    requires under { Under id (joined (take at row.old.items)) }
    requires over { Over id (joined (drop (at + 1) row.old.items)) }
    ensures ok { OnOk result (joined row.new.items ≡ put nat_cmp id stored (joined row.old.items)) }
    ensures row { IsRow row.new.items }
    ensures err { OnErr result (row.new.items ≡ row.old.items) }
{
    let chunks = row.as_slice();
    let mut all = with_entry(alloc, chunks[at].as_slice(), id, stored)?;
    if all.len() <= CHUNK_CAPACITY {
        let whole = Chunk::of(alloc, all)?;
        set(row, at, whole);
    } else {
        let back = Chunk::of(alloc, Vec::from_slice(alloc, &all[FEWEST..])?)?;
        all.truncate(FEWEST);
        let front = Chunk::of(alloc, all)?;
        set(row, at, front);
        row.insert(at + 1, back);
    }
    Ok(())
}

// Puts another chunk in the place of one.
fn set(row: &mut Row, at: usize, chunk: Chunk<Stored>)
    requires { at < length row.old.items }
    ensures { row.new.items ≡ slice_set row.old.items at chunk }
{
    row.as_mut_slice()[at] = chunk;
}

/// The entries of a row that are still to come.
#[derive(Drop)]
pub(crate) struct Rest<'a> {
    pub(crate) entries: &'a [Entry],
    pub(crate) chunks: &'a [Chunk<Stored>],
}

/// The next entry that is to come.
#[inline]
pub(crate) fn next_entry<'a>(rest: &mut Rest<'a>) -> Option<&'a Entry>
    ensures { TakesFirst (λ e. e.now) (rest.old.entries.now ++ joined rest.old.chunks.now) result (rest.new.entries.now ++ joined rest.new.chunks.now) }
{
    while rest.entries.is_empty() {
        let (chunk, chunks) = rest.chunks.split_first()?;
        rest.entries = chunk.as_slice();
        rest.chunks = chunks;
    }
    let (entry, entries) = rest.entries.split_first()?;
    rest.entries = entries;
    Some(entry)
}

/// The number at an id. Only entries from that id on are then still to come.
#[inline]
pub(crate) fn seek(rest: &mut Rest<'_>, id: u64) -> Option<u64>
    requires { Rises (rest.old.entries.now ++ joined rest.old.chunks.now) }
    ensures value { result ≡ option_map (λ e. e.number) (find nat_cmp id (rest.old.entries.now ++ joined rest.old.chunks.now)) }
    ensures rest { rest.new.entries.now ++ joined rest.new.chunks.now ≡ from id (rest.old.entries.now ++ joined rest.old.chunks.now) }
{
    loop {
        match rest.entries.split_first() {
            Some((entry, entries)) => {
                if id < entry.0 {
                    return None;
                }
                if id == entry.0 {
                    return Some(entry.1.number());
                }
                rest.entries = entries;
            }
            None => {
                let (chunk, chunks) = rest.chunks.split_first()?;
                rest.entries = chunk.as_slice();
                rest.chunks = chunks;
            }
        }
    }
}

/// Whether each value of the chunks has at least and at most so many bytes.
pub(crate) fn have_values_within(chunks: &[Chunk<Stored>], least: usize, most: usize) -> bool
    ensures { IsTrue result ↔ All (λ chunk. All (λ e. IsWithin (length e.1.value) (lengths least most)) chunk) chunks.now }
{
    chunks
        .iter()
        .all(|chunk| is_chunk_within(chunk, least, most))
}

// Whether each value of a chunk has.
fn is_chunk_within(chunk: &Chunk<Stored>, least: usize, most: usize) -> bool
    ensures { IsTrue result ↔ All (λ e. IsWithin (length e.1.value) (lengths least most)) chunk.now }
{
    are_within(chunk.as_slice(), least, most)
}

// Whether each value of the entries has at least and at most so many bytes.
fn are_within(entries: &[Entry], least: usize, most: usize) -> bool
    ensures { IsTrue result ↔ All (λ e. IsWithin (length e.1.value) (lengths least most)) entries.now }
{
    entries
        .iter()
        .all(|entry| is_within(entry.1.value(), least, most))
}

// Whether a value has at least and at most so many bytes.
fn is_within(value: &Value, least: usize, most: usize) -> bool
    ensures { IsTrue result ↔ IsWithin (length value.now) (lengths least most) }
{
    let bytes = value.bytes().len();
    least <= bytes && bytes <= most
}

/// What one row tells beyond another.
#[derive(Clone, Copy)]
pub(crate) struct News {
    /// How many ids are new.
    pub(crate) ids: usize,
    /// How many values are newer than what is known, those of new ids among them.
    pub(crate) values: usize,
}

/// What the second row tells beyond the first.
pub(crate) fn what_is_new(known: &[Chunk<Stored>], more: &[Chunk<Stored>]) -> News
    requires known { Rises (joined known.now) }
    requires more { Rises (joined more.now) }
    requires few { length (joined more.now) ≤ 256 }
    ensures ids { result.ids ≡ count_lacking (joined known.now) (joined more.now) }
    ensures values { result.values ≡ count_newer (joined known.now) (joined more.now) }
{
    let mut rest = Rest {
        entries: &[],
        chunks: known,
    };
    let mut theirs = Rest {
        entries: &[],
        chunks: more,
    };
    let mut ids = 0;
    let mut values = 0;
    while let Some(entry) = next_entry(&mut theirs) {
        let number = seek(&mut rest, entry.0);
        ids += usize::from(number.is_none());
        values += usize::from(is_larger(number, entry.1.number()));
    }
    News { ids, values }
}

/// A row with all that either has, and at equal numbers the first row's value.
pub(crate) fn merged(alloc: Global, known: &Row, more: &[Chunk<Stored>]) -> Result<Row, AllocError>
    requires known { IsRow known.now.items }
    requires more { Rises (joined more.now) }
    requires room { fin.len (merge (fin.from_entries (joined known.now.items)) (fin.from_entries (joined more.now))) ≤ 256 }
    ensures ok { IfOk result (λ row. fin.from_entries (joined row.items) ≡ merge (fin.from_entries (joined known.now.items)) (fin.from_entries (joined more.now))) }
    ensures row { IfOk result (λ row. IsRow row.items) }
{
    let mut row = known.clone()?;
    let mut rest = Rest {
        entries: &[],
        chunks: known.as_slice(),
    };
    let mut theirs = Rest {
        entries: &[],
        chunks: more,
    };
    while let Some(entry) = next_entry(&mut theirs) {
        if is_larger(seek(&mut rest, entry.0), entry.1.number()) {
            put_entry(alloc, &mut row, entry.0, entry.1)?;
        }
    }
    Ok(row)
}
