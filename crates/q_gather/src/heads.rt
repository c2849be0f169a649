//! What is true of all books, whether they are of different nodes, and whether they agree on their version, fractions
//! and founders.

ghost use Rattle.std.specs.Prelude.{◌≡◌, ℕ, List, Some, None, IfOk, IfErr, MatchBool, MatchOption, slice_get, true};
ghost use Rattle.sc_members.specs.Members.{Config};
ghost use Rattle.q_book.specs.State.{BookState};
ghost use Rattle.q_history.specs.Heads.{founders_for};
ghost use Rattle.q_history.specs.Clusters.{start};
ghost use Rattle.q_gather.specs.Gathered.{HasBook, AreDistinct, AgreeOn};
ghost use Rattle.q_gather.specs.Heads.{AreReplays, IsOfCluster, IsHeaded, AreHeaded, AreThere, HasHead, IsUnfounded};

use crate::fault::GatherFault;
use q_book::Book;
use q_cluster::Cluster;
use sc_members::Config;
use sc_msg::Version;
use std::alloc::Global;

/// A law of books: each is the replay of its journal, and its recorded answers are right.
pub(crate) fn are_replays(books: &[Book])
    ensures { AreReplays books.now }
{
    for book in books {
        let _journal = book.journal();
        let _desk = book.desk();
    }
}

/// Whether no two books are of one node.
pub(crate) fn are_distinct(books: &[Book]) -> bool
    ensures { MatchBool result (AreDistinct books.now) (AreDistinct books.now → ⊥) }
{
    for (place, book) in books.iter().enumerate() {
        if has_book(&books[..place], book.id()) {
            return false;
        }
    }
    true
}

/// The cluster of the founders on whom the books agree, before any event. Refused with 49 where they agree on none.
pub(crate) fn found(alloc: Global, books: &[Book]) -> Result<Cluster, GatherFault>
    ensures ok { IfOk result (λ c. (version : Version) × (config : Config) × (founders : List ℕ) × AgreeOn books.now version config founders × (c ≡ start version config founders)) }
    ensures err { IfErr result (IsUnfounded books.now) }
{
    let Some(head) = a_head(books) else {
        return Err(GatherFault::BadFounders);
    };
    if !are_headed(books, head.version, head.config, head.founders) {
        return Err(GatherFault::BadFounders);
    }
    if !are_there(books, head.founders) {
        return Err(GatherFault::BadFounders);
    }
    // The founders of a book were taken once, so this is refused for want of memory alone.
    let Ok(cluster) = Cluster::new_as(alloc, head.version, head.config, head.founders) else {
        return Err(GatherFault::OutOfMemory);
    };
    Ok(cluster)
}

/// The version, the fractions and the founders of a cluster.
#[derive(Drop)]
struct Head<'a> {
    version: Version,
    config: Config,
    founders: &'a [u64],
}

/// What the first book that is a founder's says.
fn a_head(books: &[Book]) -> Option<Head<'_>>
    ensures { MatchOption result ((k : ℕ) (b : BookState) → slice_get books.now k ≡ Some b → b.founders ≡ None) (λ head. HasHead books.now head.version head.config head.founders.now) }
{
    for book in books {
        if let Some(founders) = book.founders() {
            return Some(Head {
                version: book.version(),
                config: book.config(),
                founders,
            });
        }
    }
    None
}

/// Whether all books have this version and these fractions, and those of the founders have these founders.
fn are_headed(books: &[Book], version: Version, config: Config, founders: &[u64]) -> bool
    ensures { MatchBool result (AreHeaded books.now version config founders.now) (AreHeaded books.now version config founders.now → ⊥) }
{
    for book in books {
        if !is_headed(book, version, config, founders) {
            return false;
        }
    }
    true
}

fn is_headed(book: &Book, version: Version, config: Config, founders: &[u64]) -> bool
    ensures { MatchBool result (IsHeaded book.now version config founders.now) (IsHeaded book.now version config founders.now → ⊥) }
{
    is_of_cluster(book, version, founders) && book.config() == config
}

fn is_of_cluster(book: &Book, version: Version, founders: &[u64]) -> bool
    ensures { MatchBool result (IsOfCluster book.now version founders.now) (IsOfCluster book.now version founders.now → ⊥) }
{
    has_founders(book, founders) && book.version() == version
}

/// Whether the book is that of one of these founders, who knows all of them; or that of no founder, of a node that
/// entered.
fn has_founders(book: &Book, founders: &[u64]) -> bool
    ensures { MatchBool result (book.now.founders ≡ founders_for book.now.id founders.now) (book.now.founders ≡ founders_for book.now.id founders.now → ⊥) }
{
    if founders.contains(&book.id()) {
        is_founder(book, founders)
    } else {
        is_entered(book)
    }
}

fn is_founder(book: &Book, founders: &[u64]) -> bool
    ensures { MatchBool result (book.now.founders ≡ Some founders.now) (book.now.founders ≡ Some founders.now → ⊥) }
{
    match book.founders() {
        Some(ids) => ids == founders,
        None => false,
    }
}

fn is_entered(book: &Book) -> bool
    ensures { MatchBool result (book.now.founders ≡ None) (book.now.founders ≡ None → ⊥) }
{
    match book.founders() {
        Some(_) => false,
        None => true,
    }
}

/// Whether each founder has a book.
fn are_there(books: &[Book], founders: &[u64]) -> bool
    ensures { MatchBool result (AreThere books.now founders.now) (AreThere books.now founders.now → ⊥) }
{
    for id in founders {
        if !has_book(books, *id) {
            return false;
        }
    }
    true
}

/// Whether one of the books is of this node.
fn has_book(books: &[Book], id: u64) -> bool
    ensures { MatchBool result (HasBook books.now id) (HasBook books.now id → ⊥) }
{
    for book in books {
        if book.id() == id {
            return true;
        }
    }
    false
}
