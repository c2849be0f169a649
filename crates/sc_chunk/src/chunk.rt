//! Chunks: entries in rising id order, which copies share. A chunk that is shared is never changed.
ghost use Rattle.std.specs.Prelude.{◌≡◌, ◌≤◌, [], length, IfOk, OnErr};
ghost use Rattle.std.specs.Ordering.{nat_cmp};
ghost use Rattle.std.specs.FinMap.Entries.{put, find};
ghost use Rattle.std.specs.Arc.{arc_value};
ghost use Rattle.sc_chunk.specs.Entries.{Rises, Learns, before, without_first};

use std::alloc::{AllocError, Global};
use std::marker::Model;
use std::sync::Arc;

/// The most entries of a chunk.
pub const CHUNK_CAPACITY: usize = 32;

/// Entries in rising id order that copies share. They are changed only where one copy is left.
#[derive(Drop)]
pub struct Chunk<T> {
    shared: Option<Arc<Vec<(u64, T)>>>,
}

impl<T> Model for Chunk<T> {
    ghost use Rattle.std.specs.Prelude.{ℕ, List, []};
    ghost use Rattle.std.specs.Option.{unwrap_or, option_map};
    ghost use Rattle.std.specs.Arc.{arc_value};
    ghost use Rattle.std.specs.Vec.{vec_items};

    ghost Value = { List (ℕ × T) };

    ghost view = { λ c. unwrap_or (option_map (λ it. vec_items (arc_value it)) c.shared) [] };
}

impl<T: Copy> Default for Chunk<T> {
    ghost use Rattle.std.specs.Prelude.{◌≡◌, []};

    ghost is_default = { λ c. c ≡ [] };

    fn default() -> Chunk<T> {
        Chunk { shared: None }
    }
}

impl<T: Copy> Clone for Chunk<T> {
    ghost use Rattle.std.specs.Prelude.{◌≡◌};

    ghost is_clone = { λ chunk copy. copy ≡ chunk };

    fn clone(&self) -> Result<Chunk<T>, AllocError> {
        match &self.shared {
            Some(entries) => Ok(Chunk {
                shared: Some(entries.clone()?),
            }),
            None => Ok(Chunk { shared: None }),
        }
    }
}

impl<T: Copy> Chunk<T> {
    /// A chunk of these entries.
    pub fn of(alloc: Global, entries: Vec<(u64, T)>) -> Result<Chunk<T>, AllocError>
        ensures { IfOk result (λ chunk. chunk ≡ entries.items) }
    {
        Ok(Chunk {
            shared: Some(Arc::new(alloc, entries)?),
        })
    }

    /// The entries.
    #[inline]
    pub fn as_slice(&self) -> &[(u64, T)]
        ensures { result.now ≡ self.now }
    {
        match &self.shared {
            Some(entries) => entries.as_slice(),
            None => &[],
        }
    }
}

/// Learns an entry in place, where no copy shares the chunk and there is room. Answers whether it did.
pub fn learn<T: Copy>(chunk: &mut Chunk<T>, id: u64, stored: T) -> Result<bool, AllocError>
    requires { length chunk.old ≤ 32 }
    ensures ok { IfOk result (Learns id stored chunk.old chunk.new) }
    ensures err { OnErr result (chunk.new ≡ chunk.old) }
{
    match &mut chunk.shared {
        Some(shared) => learn_in(shared, id, stored),
        None => Ok(false),
    }
}

// The same of the entries.
fn learn_in<T: Copy>(
    shared: &mut Arc<Vec<(u64, T)>>,
    id: u64,
    stored: T,
) -> Result<bool, AllocError>
    requires { length (arc_value shared.old).items ≤ 32 }
    ensures ok { IfOk result (Learns id stored (arc_value shared.old).items (arc_value shared.new).items) }
    ensures err { OnErr result ((arc_value shared.new).items ≡ (arc_value shared.old).items) }
{
    match Arc::get_mut(shared) {
        Some(entries) => put_in(entries, id, stored),
        None => Ok(false),
    }
}

// Learns an entry among others, where there is room.
fn put_in<T: Copy>(entries: &mut Vec<(u64, T)>, id: u64, stored: T) -> Result<bool, AllocError>
    requires { length entries.old.items ≤ 32 }
    ensures ok { IfOk result (Learns id stored entries.old.items entries.new.items) }
    ensures err { OnErr result (entries.new.items ≡ entries.old.items) }
{
    let at = before(entries, id);
    if at < entries.len() {
        let (known, _) = entries[at];
        if known == id {
            entries[at] = (id, stored);
            return Ok(true);
        }
    }
    if entries.len() == CHUNK_CAPACITY {
        return Ok(false);
    }
    entries.insert(at, (id, stored))?;
    Ok(true)
}

// How many entries stand before the first that has this id or a larger one.
fn before<T: Copy>(entries: &[(u64, T)], id: u64) -> usize
    ensures value { result ≡ before id entries.now }
    ensures fits { result ≤ length entries.now }
{
    for k in 0..entries.len() {
        if id <= entries[k].0 {
            return k;
        }
    }
    entries.len()
}

/// The value at an id, of entries in rising order.
pub fn find<T: Copy>(entries: &[(u64, T)], id: u64) -> Option<T>
    requires { Rises entries.now }
    ensures { result ≡ find nat_cmp id entries.now }
{
    let at = before(entries, id);
    if at >= entries.len() {
        return None;
    }
    let entry = entries[at];
    if entry.0 != id {
        return None;
    }
    Some(entry.1)
}

/// The entries with one more, or with another value at its id.
pub fn with_entry<T: Copy>(
    alloc: Global,
    entries: &[(u64, T)],
    id: u64,
    stored: T,
) -> Result<Vec<(u64, T)>, AllocError>
    ensures { IfOk result (λ all. all.items ≡ put nat_cmp id stored entries.now) }
{
    let (front, back) = entries.split_at(before(entries, id));
    let rest = without_first(back, id);
    let mut all = Vec::with_capacity(
        alloc,
        front.len().saturating_add(1).saturating_add(rest.len()),
    )?;
    all.extend_from_slice(front)?;
    all.push((id, stored))?;
    all.extend_from_slice(rest)?;
    Ok(all)
}

// The entries without the first, if it has this id.
fn without_first<T: Copy>(entries: &[(u64, T)], id: u64) -> &[(u64, T)]
    ensures { result.now ≡ without_first id entries.now }
{
    match entries.split_first() {
        Some((first, rest)) if first.0 == id => rest,
        _ => entries,
    }
}
