//! Requests of clients over memory.

use crate::measured::{Measured, RUNS};
use anyhow::{Result, anyhow};
use q_book::Book;
use q_net::serve;
use q_outside::Counted;
use sc_members::Config;
use std::alloc::Global;
use std::sync::Wait;
use std::time::{Clock, Duration, Instant};

/// `mov64 r0, r3 / add64 r0, 1 / exit`, behind its kind and its length.
const TEXT: [u8; 29] = [
    1, 24, 0, 0, 0, 0xbf, 0x30, 0, 0, 0, 0, 0, 0, 0x07, 0, 0, 0, 1, 0, 0, 0, 0x95, 0, 0, 0, 0, 0,
    0, 0,
];

/// Notes of it, behind their length: of its three units, the last two like the first but for a number in r0.
const NOTES_LENGTH: [u8; 8] = [174, 0, 0, 0, 3, 0, 0, 0];

/// What is known of r1 to r10 at each unit: the record, its length, any number, nothing, and the frame's end.
const KNOWN: [u8; 42] = [
    3, 0, 0, 0, 0, 0, 0, 0, 0, 4, 1, 0, 0, 0, 0, 0, 0, 0, 0, 255, 255, 255, 255, 255, 255, 255,
    255, 0, 0, 0, 0, 0, 0, 2, 0, 2, 0, 0, 0, 2, 0, 0,
];

/// The byte of a state, and the lengths of records that it is for.
const STATE: [u8; 3] = [1, 16, 128];

/// Any number in r0.
const NUMBER: [u8; 17] = [
    1, 0, 0, 0, 0, 0, 0, 0, 0, 255, 255, 255, 255, 255, 255, 255, 255,
];

/// A request for the answer of query 0.
const ANSWER: [u8; 9] = [4, 0, 0, 0, 0, 0, 0, 0, 0];

/// A request that registers the program with its notes.
fn registration(alloc: Global) -> Result<Vec<u8>> {
    let mut request = Vec::from_slice(alloc, &TEXT)?;
    request.extend_from_slice(&NOTES_LENGTH)?;
    request.extend_from_slice(&STATE)?;
    request.push(0)?;
    request.extend_from_slice(&KNOWN)?;
    for _ in 0..2 {
        request.extend_from_slice(&STATE)?;
        request.extend_from_slice(&NUMBER)?;
        request.extend_from_slice(&KNOWN)?;
    }
    Ok(request)
}

/// The book of a node that is alone.
fn book(alloc: Global) -> Result<Book> {
    Book::founder(alloc, Config::default(), 1, &[1]).map_err(|_| anyhow!("no book"))
}

/// How long it takes to serve requests to a book, which sends no message for them.
fn time<R>(
    rt: &R,
    book: &mut Book,
    requests: &[u8],
    replies: &mut Counted<Vec<u8>>,
) -> Result<Duration>
where
    R: Wait + Clock + Alloc<A = Global>,
{
    let mut reader = Counted::new(requests);
    let mut sent = Vec::new(rt.alloc());
    let start = Instant::now(rt);
    let served = serve(rt, rt.alloc(), book, &mut reader, replies, &mut sent);
    let taken = start?.elapsed(rt)?;
    served.map_err(|_| anyhow!("not served"))?;
    Ok(taken)
}

/// Serves requests to a book, of which each reply has so many bytes.
fn run_over<R>(rt: &R, book: &mut Book, requests: &[u8], reply: usize) -> Result<Measured>
where
    R: Wait + Clock + Alloc<A = Global>,
{
    let mut replies = Counted::new(Vec::new(rt.alloc()));
    let taken = time(rt, book, requests, &mut replies)?;
    let done = replies.inner.len().checked_div(reply).unwrap_or(0) as u64;
    Ok(Measured { done, taken })
}

/// Serves requests to a fresh book, of which each reply has so many bytes.
fn run_once<R>(rt: &R, requests: &[u8], reply: usize) -> Result<Measured>
where
    R: Wait + Clock + Alloc<A = Global>,
{
    let mut book = book(rt.alloc())?;
    run_over(rt, &mut book, requests, reply)
}

/// A request, so many times.
fn repeated(alloc: Global, request: &[u8], count: u64) -> Result<Vec<u8>> {
    let mut requests = Vec::new(alloc);
    for _ in 0..count {
        requests.extend_from_slice(request)?;
    }
    Ok(requests)
}

/// The least count and the least time of all runs of these requests, of which each reply has so many bytes.
fn least<R>(rt: &R, requests: &[u8], reply: usize) -> Result<Measured>
where
    R: Wait + Clock + Alloc<A = Global>,
{
    let mut least = run_once(rt, requests, reply)?;
    for _ in 1..RUNS {
        least = least.least(run_once(rt, requests, reply)?);
    }
    Ok(least)
}

/// Times a request, so many times, of which each reply has so many bytes.
fn run<R>(rt: &R, request: &[u8], count: u64, reply: usize) -> Result<Measured>
where
    R: Wait + Clock + Alloc<A = Global>,
{
    let requests = repeated(rt.alloc(), request, count)?;
    least(rt, &requests, reply)
}

/// So many requests for an answer that is not there.
pub fn answers<R: Wait + Clock + Alloc<A = Global>>(rt: &R, count: u64) -> Result<Measured> {
    run(rt, &ANSWER, count, 1)
}

/// So many registrations.
pub fn registrations<R: Wait + Clock + Alloc<A = Global>>(rt: &R, count: u64) -> Result<Measured> {
    let request = registration(rt.alloc())?;
    run(rt, request.as_slice(), count, 5)
}
