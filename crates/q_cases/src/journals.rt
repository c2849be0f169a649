//! Journals that are gathered, cut and changed.

use q_book::Book;
use q_cluster::Cluster;
use q_gather::gather;
use q_history::ClusterEvent;
use q_replay::{ReplayFault, journal_bytes, replay};
use q_script::number;
use q_session::Ran;
use std::alloc::Global;

/// The length of the head of a journal with three founders.
const HEAD: usize = 47;

/// The place of the version in a head.
const VERSION: usize = 3;

/// A node that was not there.
const NEW: u64 = 99;

/// The bytes of values that are stored.
static ZEROS: [u8; 256] = [0; 256];

/// What a cluster that was gathered tells.
#[derive(Clone, Copy)]
pub struct GatheredCluster {
    /// The recorded answer of the query that is asked for.
    pub answer: Option<Ran>,
    /// The version of its books, by the byte that names it.
    pub version: u8,
    /// The version of the book of a node that enters then; 0 where none does.
    pub entered: u8,
}

/// The bytes of a node's journal.
pub fn journal(alloc: Global, cluster: &Cluster, node: u64) -> Option<Vec<u8>> {
    match cluster.book(node) {
        Some(book) => journal_bytes(alloc, book).ok(),
        None => None,
    }
}

/// The head of a node's journal.
fn head(alloc: Global, cluster: &Cluster, node: &str) -> Option<Vec<u8>> {
    let mut bytes = journal(alloc, cluster, number(node)?)?;
    bytes.truncate(HEAD);
    Some(bytes)
}

/// The same of the other version.
fn other_head(alloc: Global, cluster: &Cluster, node: &str) -> Option<Vec<u8>> {
    let mut bytes = head(alloc, cluster, node)?;
    if let Some(version) = bytes.get_mut(VERSION) {
        *version ^= 3;
    }
    Some(bytes)
}

/// The bytes of the journal that a word names; of its head alone where `-` stands behind the node, and of that head in
/// the other version where `~` does.
fn named(alloc: Global, cluster: &Cluster, word: &str) -> Option<Vec<u8>> {
    if let Some(node) = word.strip_suffix("-") {
        return head(alloc, cluster, node);
    }
    match word.strip_suffix("~") {
        Some(node) => other_head(alloc, cluster, node),
        None => journal(alloc, cluster, number(word)?),
    }
}

/// The recorded answer of a node's query.
pub fn answer(cluster: &Cluster, node: u64, query: usize) -> Option<Ran> {
    match cluster.book(node)?.answer(query) {
        Ok(answer) => answer,
        Err(_) => None,
    }
}

/// The journals that the words name.
fn all_named(alloc: Global, cluster: &Cluster, words: &str) -> Option<Vec<Vec<u8>>> {
    let mut journals = Vec::new(alloc);
    for word in words.split(' ') {
        journals.push(named(alloc, cluster, word)?).ok()?;
    }
    Some(journals)
}

/// The version of the book of a node that enters, by the byte that names it; 0 where it does not.
fn entered(cluster: &mut Cluster, id: u64) -> u8 {
    if cluster.step(&ClusterEvent::Enter(id)).is_err() {
        return 0;
    }
    match cluster.book(id) {
        Some(book) => book.version().byte(),
        None => 0,
    }
}

/// What is told of a gathered cluster and a node's query.
fn told(cluster: &mut Cluster, node: u64, query: usize) -> GatheredCluster {
    GatheredCluster {
        answer: answer(cluster, node, query),
        version: cluster.version().byte(),
        entered: entered(cluster, NEW),
    }
}

/// The same of the cluster of these journals, or the number of the refusal.
fn gathered_all(
    alloc: Global,
    journals: &[&[u8]],
    node: u64,
    query: usize,
) -> Result<GatheredCluster, u8> {
    match gather(alloc, journals) {
        Ok(mut cluster) => Ok(told(&mut cluster, node, query)),
        Err(fault) => Err(fault.reason().number()),
    }
}

/// Gathers the journals of the nodes that the words name: what the cluster tells of a node's query, or the number of
/// the refusal; none where there are no such journals.
pub fn gathered(
    alloc: Global,
    cluster: &Cluster,
    words: &str,
    node: u64,
    query: usize,
) -> Option<Result<GatheredCluster, u8>> {
    let journals = all_named(alloc, cluster, words)?;
    let bytes: Vec<&[u8]> = journals
        .iter()
        .map(|bytes| bytes.as_slice())
        .collect(alloc)
        .ok()?;
    Some(gathered_all(alloc, bytes.as_slice(), node, query))
}

/// The journal of the book to which these bytes are replayed.
fn rewritten(alloc: Global, bytes: &[u8]) -> Result<Vec<u8>, ReplayFault> {
    let book = replay(alloc, bytes)?;
    journal_bytes(alloc, &book).map_err(ReplayFault::from)
}

/// Whether these bytes are the journal of the book to which they are replayed.
fn is_replayed(alloc: Global, bytes: &[u8]) -> bool {
    match rewritten(alloc, bytes) {
        Ok(journal) => journal.as_slice() == bytes,
        Err(_) => false,
    }
}

/// Whether these bytes are refused, or are the journal of the book to which they are replayed.
fn is_judged_right(alloc: Global, bytes: &[u8]) -> bool {
    match rewritten(alloc, bytes) {
        Ok(journal) => journal.as_slice() == bytes,
        Err(ReplayFault::Form { .. } | ReplayFault::Mismatch { .. }) => true,
        Err(ReplayFault::OutOfMemory) => false,
    }
}

/// What a book that a journal was replayed to makes of a store, and writes then.
#[derive(Clone, Copy)]
pub struct FurtherStore {
    /// The number with which the store is refused, 0 where it is taken.
    pub refusal: u8,
    /// The version of the journal that the book writes then, by the byte that names it.
    pub version: u8,
    /// Whether that journal leads to a book whose journal it is.
    pub is_journal: bool,
}

/// The number with which a book refuses to store so many bytes, 0 where it takes them.
fn stored(book: &mut Book, len: usize) -> u8 {
    match book.store(&ZEROS[..len.min(ZEROS.len())]) {
        Ok(_) => 0,
        Err(reason) => reason.number(),
    }
}

/// What is told of the journal that a book writes, behind a store that was refused with that number.
fn written(alloc: Global, book: &Book, refusal: u8) -> Option<FurtherStore> {
    let journal = journal_bytes(alloc, book).ok()?;
    Some(FurtherStore {
        refusal,
        version: *journal.get(VERSION)?,
        is_journal: is_replayed(alloc, journal.as_slice()),
    })
}

/// The book to which a journal is replayed.
fn replayed(alloc: Global, journal: &[u8]) -> Option<Box<Book>> {
    let book = replay(alloc, journal).ok()?;
    Box::new(alloc, book).ok()
}

/// Replays a journal, and stores so many bytes in its book; none where it is not replayed.
pub fn further(alloc: Global, journal: &[u8], len: usize) -> Option<FurtherStore> {
    let mut book = replayed(alloc, journal)?;
    let refusal = stored(&mut book, len);
    written(alloc, &book, refusal)
}

/// How many proper beginnings of a journal are not judged right.
pub fn misjudged_beginnings(alloc: Global, journal: &[u8]) -> usize {
    (0..journal.len())
        .filter(|len| !is_judged_right(alloc, &journal[..*len]))
        .count()
}

/// The next number below a bound, by a linear congruential generator.
fn draw(state: &mut u64, bound: u64) -> u64 {
    *state = state
        .wrapping_mul(6_364_136_223_846_793_005)
        .wrapping_add(1_442_695_040_888_963_407);
    (*state >> 33).checked_rem(bound).unwrap_or(0)
}

/// Changes a byte of a journal that is drawn.
fn change(journal: &mut Vec<u8>, state: &mut u64) {
    let place = draw(state, journal.len() as u64) as usize;
    let change = u8::try_from(draw(state, 255)).unwrap_or(0);
    if let Some(byte) = journal.get_mut(place) {
        *byte = byte.wrapping_add(change).wrapping_add(1);
    }
}

/// How many of so many journals are not judged right, each of which is this one with a byte changed; none where there
/// is no memory.
pub fn misjudged_changes(alloc: Global, journal: &[u8], count: u64) -> Option<usize> {
    let mut state = 1;
    let mut misjudged: usize = 0;
    for _ in 0..count {
        let mut changed = Vec::from_slice(alloc, journal).ok()?;
        change(&mut changed, &mut state);
        if !is_judged_right(alloc, changed.as_slice()) {
            misjudged = misjudged.saturating_add(1);
        }
    }
    Some(misjudged)
}
