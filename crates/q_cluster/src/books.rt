//! The books of a cluster, by their nodes' ids.

ghost use Rattle.std.specs.Prelude.{◌≡◌, OnOk, OnErr, option_copied};
ghost use Rattle.std.specs.Option.{option_copied_mut};
ghost use Rattle.std.specs.Borrow.{sem};
ghost use Rattle.std.specs.FinMap as fin;
ghost use Rattle.reasons.specs.declared.Reason.TheVariants.{OutOfMemory as memory};
ghost use Rattle.q_cluster.specs.Founders.{Founds};
ghost use Rattle.q_cluster.specs.Lends.{LendsBook};

use q_book::{Book, BookFault};
use sc_members::Config;
use sc_msg::Version;
use std::alloc::{AllocError, Global};
use std::collections::BTreeMap;
use std::marker::Model;

/// The book of each node that was ever there.
#[derive(Drop)]
pub struct Books {
    entries: BTreeMap<u64, Book>,
}

impl Model for Books {
    ghost use Rattle.std.specs.FinMap as fin;
    ghost use Rattle.std.specs.Coded.{coded_ℕ};
    ghost use Rattle.q_book.specs.contracts.book.Book as book;
    ghost use Rattle.q_history.specs.Headline.{BookMap};

    ghost Value = { BookMap };

    ghost coded = { fin.code coded_ℕ book.the_row.coded };

    ghost view = { λ a. fin.from_entries a.entries.entries };
}

impl Books {
    pub fn new(alloc: Global) -> Books
        ensures { result ≡ fin.empty }
    {
        Books {
            entries: BTreeMap::new(alloc),
        }
    }

    /// The book of this node.
    pub fn get(&self, id: u64) -> Option<&Book>
        ensures { option_copied result ≡ fin.get self.now id }
    {
        self.entries.get(&id)
    }

    /// Puts the book of this node. At Err the books are as they were.
    pub fn insert(&mut self, id: u64, book: Book) -> Result<(), AllocError>
        ensures ok { OnOk result (self.new ≡ fin.insert self.old id book) }
        ensures err { OnErr result (self.new ≡ self.old) }
    {
        self.entries.insert(id, book)?;
        Ok(())
    }

    /// The book of this node, to be changed.
    pub fn get_mut(&mut self, id: u64) -> Option<&mut Book>
        ensures* writes_back { sem 𝓛 (LendsBook self.entry id result) }
        ensures book { option_copied_mut result ≡ fin.get self.old id }
    {
        self.entries.get_mut(&id)
    }
}

/// The book of each founder, of that version. Refused with 49 where their ids don't rise strictly or are not 1 to 256.
pub(crate) fn found_books(
    alloc: Global,
    version: Version,
    config: Config,
    founders: &[u64],
) -> Result<Books, BookFault>
    ensures { Founds memory version config founders.now result }
{
    if founders.is_empty() {
        return Err(BookFault::BadFounders);
    }
    let mut books = Books::new(alloc);
    for id in founders {
        let book = Book::founder_as(alloc, version, config, *id, founders)?;
        books.insert(*id, book)?;
    }
    Ok(books)
}
