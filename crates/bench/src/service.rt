//! The parts of the query service: which of them a word names, and what is printed of it.

use crate::gathers::Gathered;
use crate::jobs::Times;
use crate::measured::{Measured, tell};
use crate::nodes::Operation;
use crate::sizes::size;
use crate::{board, gathers, jobs, nodes, queues, requests};
use anyhow::{Result, bail};
use std::alloc::Global;
use std::net::Net;
use std::sync::Wait;
use std::thread::Threads;
use std::time::Clock;

/// The words of all parts, those of other crates first.
const WORDS: &str =
    "asm, check, fold, store, put, merge, deliver, hand, run, stores, asks, script, idle, answers, \
    registrations and gather";

/// Times the part that this word names, in the size that the words give. It is asked last, so it refuses a word that
/// names no part at all.
pub(crate) fn run_word<R>(rt: &R, word: &str, words: &[String]) -> Result<()>
where
    R: Net + Wait + Threads + Clock + Print + Eprint + Alloc<A = Global> + Sync,
{
    match word {
        "hand" => tell_hand(rt, hand(rt, size(words, 2, 64)? as usize)?),
        "run" => {
            let (jobs, runners) = (size(words, 2, 64)?, size(words, 3, 2)?);
            tell_both(rt, "run", run(rt, jobs as usize, runners as usize)?)
        }
        "stores" => tell(rt, word, operations(rt, words, Operation::Store)?),
        "asks" => tell(rt, word, operations(rt, words, Operation::Ask)?),
        "script" => {
            let (nodes, count) = (size(words, 2, 3)?, size(words, 3, 4)?);
            tell(rt, word, nodes::run_script(rt, nodes, count)?)
        }
        "idle" => tell(rt, word, nodes::idle(rt, size(words, 2, 16)?)?),
        "answers" => tell(rt, word, requests::answers(rt, size(words, 2, 4)?)?),
        "registrations" => tell(rt, word, requests::registrations(rt, size(words, 2, 4)?)?),
        "gather" => {
            let (nodes, stores) = (size(words, 2, 3)?, size(words, 3, 2)?);
            tell_gathered(rt, gathers::run(rt, nodes, stores)?)
        }
        _ => bail!("{word:?} is none of {}", WORDS),
    }
}

/// Times so many operations of nodes with sockets.
fn operations<R>(rt: &R, words: &[String], operation: Operation) -> Result<Measured>
where
    R: Net + Wait + Threads + Clock + Alloc<A = Global> + Sync,
{
    let (nodes, count, flight) = (size(words, 2, 3)?, size(words, 3, 4)?, size(words, 4, 1)?);
    nodes::operations(rt, nodes, operation, count, flight)
}

/// A small run of each, but of nodes that have nothing to do.
pub(crate) fn run_all<R>(rt: &R) -> Result<()>
where
    R: Net + Wait + Threads + Clock + Print + Eprint + Alloc<A = Global> + Sync,
{
    for word in [
        "hand",
        "run",
        "stores",
        "asks",
        "script",
        "answers",
        "registrations",
        "gather",
    ] {
        run_word(rt, word, &[])?;
    }
    Ok(())
}

/// Times of the board, and of the queues.
#[derive(Clone, Copy)]
struct Both {
    board: Times,
    queues: Times,
}

/// Times one thread, and jobs that are run where they are.
fn hand<R: Wait + Clock + Alloc<A = Global>>(rt: &R, count: usize) -> Result<(Both, Times)> {
    let board = board::hand(rt, jobs::jobs(rt.alloc(), count)?)?;
    let queues = queues::hand(rt, jobs::jobs(rt.alloc(), count)?)?;
    let alone = board::run_alone(rt, jobs::jobs(rt.alloc(), count)?)?;
    Ok((Both { board, queues }, alone))
}

/// Times so many runners.
fn run<R>(rt: &R, count: usize, runners: usize) -> Result<Both>
where
    R: Wait + Threads + Clock + Alloc<A = Global> + Sync,
{
    let board = board::run(rt, jobs::jobs(rt.alloc(), count)?, runners)?;
    let queues = queues::run(rt, jobs::jobs(rt.alloc(), count)?, runners)?;
    Ok(Both { board, queues })
}

/// Prints what one thread did, and how long a job took.
fn tell_hand(rt: &(impl Print + Eprint), times: (Both, Times)) -> Result<()> {
    let (both, alone) = times;
    tell_both(rt, "hand", both)?;
    eprintln!(rt; "a job that is run where it is: {} ns", alone.nanos)?;
    Ok(())
}

/// Prints how many events were gathered, and how long it took.
fn tell_gathered(rt: &(impl Print + Eprint), times: Gathered) -> Result<()> {
    tell(rt, "gather", times.by_journals)?;
    tell(rt, "gather of books", times.by_books)
}

/// Prints what was done, and how long a job took.
fn tell_both(rt: &(impl Print + Eprint), what: &str, both: Both) -> Result<()> {
    let Both { board, queues } = both;
    println!(rt; "{what} board {} queues {}", board.jobs, queues.jobs)?;
    eprintln!(rt;
        "a job: board {} ns, queues {} ns",
        board.nanos, queues.nanos
    )?;
    Ok(())
}
