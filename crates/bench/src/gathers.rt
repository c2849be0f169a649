//! Nodes that ran apart, gathered into a cluster.

use crate::measured::{Measured, time_runs};
use anyhow::{Result, anyhow, bail};
use q_book::{Book, Delivery};
use q_gather::{gather, gather_books};
use q_replay::journal_bytes;
use sc_members::Config;
use sc_msg::Message;
use sc_node::{Begun, Outs};
use std::alloc::{AllocError, Global};
use std::time::Clock;

/// The book of a founder.
fn founder(alloc: Global, id: u64, founders: &[u64]) -> Result<Book> {
    Book::founder(alloc, Config::default(), id, founders).map_err(|_| anyhow!("no book"))
}

/// The books of these founders.
fn books_of(alloc: Global, founders: &[u64]) -> Result<Vec<Book>> {
    let mut books = Vec::with_capacity(alloc, founders.len())?;
    for id in founders {
        books.push(founder(alloc, *id, founders)?)?;
    }
    Ok(books)
}

/// Puts what a book sends behind what was sent.
fn send(outs: Outs, sent: &mut Vec<Message>) -> Result<(), AllocError> {
    sent.reserve(outs.len())?;
    outs.append_to(sent);
    Ok(())
}

/// The node of the book stores a value.
fn store(book: &mut Book, sent: &mut Vec<Message>) -> Result<()> {
    let begun = book
        .store(&[7; 48])
        .map_err(|_| anyhow!("no store begins"))?;
    let Begun {
        tag: _,
        session: _,
        outs,
    } = begun;
    send(outs, sent)?;
    Ok(())
}

/// Each node stores a value.
fn store_at_all(alloc: Global, books: &mut [Book]) -> Result<Vec<Message>> {
    let mut sent = Vec::new(alloc);
    for book in books.iter_mut() {
        store(book, &mut sent)?;
    }
    Ok(sent)
}

/// The message reaches the node of the book.
fn deliver(book: &mut Book, message: &Message, sent: &mut Vec<Message>) -> Result<()> {
    let taken = book.deliver(message).map_err(|_| anyhow!("not taken"))?;
    let Delivery {
        outs,
        progress: _,
        completed: _,
    } = taken;
    send(outs, sent)?;
    Ok(())
}

/// The message reaches all nodes.
fn deliver_to_all(books: &mut [Book], message: &Message, sent: &mut Vec<Message>) -> Result<()> {
    for book in books.iter_mut() {
        deliver(book, message, sent)?;
    }
    Ok(())
}

/// These messages reach all nodes. It answers what is sent for them.
fn deliver_each(alloc: Global, books: &mut [Book], messages: &[Message]) -> Result<Vec<Message>> {
    let mut sent = Vec::new(alloc);
    for message in messages {
        deliver_to_all(books, message, &mut sent)?;
    }
    Ok(sent)
}

/// Each node stores a value, and every message reaches all nodes, until none is sent.
fn go_on(alloc: Global, books: &mut [Book]) -> Result<()> {
    let mut messages = store_at_all(alloc, books)?;
    for _ in 0..u64::MAX {
        if messages.is_empty() {
            break;
        }
        messages = deliver_each(alloc, books, messages.as_slice())?;
    }
    Ok(())
}

/// The books of so many founders, each of which stored so many times.
fn books(alloc: Global, nodes: u64, stores: u64) -> Result<Vec<Book>> {
    let founders: Vec<u64> = (1..=nodes).collect(alloc)?;
    let mut books = books_of(alloc, founders.as_slice())?;
    for _ in 0..stores {
        go_on(alloc, &mut books)?;
    }
    Ok(books)
}

/// The journals of the books.
fn journals_of(alloc: Global, books: &[Book]) -> Result<Vec<Vec<u8>>> {
    let mut journals = Vec::with_capacity(alloc, books.len())?;
    for book in books {
        journals.push(journal_bytes(alloc, book)?)?;
    }
    Ok(journals)
}

/// How many events the journals of the books have.
fn events_of(books: &[Book]) -> u64 {
    let mut events: u64 = 0;
    for book in books {
        events = events.saturating_add(book.events() as u64);
    }
    events
}

/// Gathers journals.
fn gather_journals(alloc: Global, journals: &[Vec<u8>]) -> Result<()> {
    let mut slices: Vec<&[u8]> = Vec::with_capacity(alloc, journals.len())?;
    for journal in journals {
        slices.push(journal.as_slice())?;
    }
    if gather(alloc, slices.as_slice()).is_err() {
        bail!("the journals do not gather");
    }
    Ok(())
}

/// The same of books.
fn gather_all(alloc: Global, books: &[Book]) -> Result<()> {
    if gather_books(alloc, books).is_err() {
        bail!("the books do not gather");
    }
    Ok(())
}

/// How long it takes to gather nodes that ran apart, by their journals and by their books.
#[derive(Clone, Copy)]
pub struct Gathered {
    pub by_journals: Measured,
    pub by_books: Measured,
}

/// Times books, by themselves and by their journals.
fn time_both<R>(rt: &R, books: &[Book]) -> Result<Gathered>
where
    R: Clock + Alloc<A = Global>,
{
    let done = events_of(books);
    let journals = journals_of(rt.alloc(), books)?;
    let by_journals = time_runs(rt, 1, |_| gather_journals(rt.alloc(), &journals))?;
    let by_books = time_runs(rt, 1, |_| gather_all(rt.alloc(), books))?;
    Ok(Gathered {
        by_journals: Measured {
            done,
            taken: by_journals,
        },
        by_books: Measured {
            done,
            taken: by_books,
        },
    })
}

/// So many founders, each of which stored so many times, and took every message.
pub fn run<R>(rt: &R, nodes: u64, stores: u64) -> Result<Gathered>
where
    R: Clock + Alloc<A = Global>,
{
    let books = books(rt.alloc(), nodes, stores)?;
    time_both(rt, books.as_slice())
}
