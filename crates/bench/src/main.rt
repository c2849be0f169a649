//! How long the parts of this repository take.
//!
//! - `asm UNITS RUNS`: assembling and disassembling, see [`asm`].
//! - `check UNITS RUNS`: the verifier and the checker, see [`check`].
//! - `fold PROGRAM RUNS`: folds over 256 records, see [`fold`].
//! - `store IDS ROUNDS`: a store-collect object with churn, see [`store`].
//! - `put IDS ROUNDS`: newer values of known ids, in a view that alone has its chunks and in one that shares them.
//! - `merge IDS ROUNDS`: two views as one, by how much the second tells; sharing a view, and reading it.
//! - `deliver IDS ROUNDS`: a store message that reaches a node, by how much its view tells.
//! - `hand JOBS`: one thread offers, takes, runs, finishes and polls each job, one behind the other.
//! - `run JOBS RUNNERS`: one thread offers and polls, so many others take, run and finish.
//! - `stores NODES COUNT FLIGHT`: so many stores at node 1 over sockets of loopback, FLIGHT of them open at once,
//!   without the start and the end of the nodes.
//! - `asks NODES COUNT FLIGHT`: the same of queries, after one store.
//! - `script NODES COUNT`: a script of so many stores at node 1, one after the other, as `bqview cluster` runs it.
//! - `idle NODES`: four seconds of so many nodes that have nothing to do.
//! - `answers COUNT`: so many requests of clients for an answer, read and replied to over memory.
//! - `registrations COUNT`: so many registrations of a program of three units, each decoded and checked.
//! - `gather NODES STORES`: founders that each stored so often, gathered by their journals and by their books.
//!
//! The counts go to the standard output and are the same at each run; the times go to the standard error. With no words
//! it does a small run of each, but of nodes that have nothing to do. To give the parts work is all that its functions
//! do, so they promise nothing more than that they are safe, and that they end where they wait for nothing.
//!
//! With `put`, `merge` and `deliver`, views hold values of so many nodes, 1 to 256, and the times are told as
//! nanoseconds of one call. With `hand` and `run` each job runs three instructions over one record, once over the job
//! board and once through two queues, each behind a lock; with `hand`, the time of a job that is run where it is comes
//! last, and what a job takes beyond that is its hand-over.
//!
//! Stores, queries and requests are each done five times, and the least time is told. The count is of what ended in
//! each of the five, so that a store or a query that was left unanswered is missing there. The nodes that are gathered
//! ran one after another and without sockets, until each had taken every message; the count is that of their events,
//! and they are gathered once.
#![tactic(auto)]

mod asm;
mod board;
mod check;
mod cluster;
mod deliver;
mod fold;
mod gathers;
mod jobs;
mod measured;
mod merge;
mod nodes;
mod put;
mod queues;
mod requests;
mod service;
mod sizes;
mod store;
mod values;

use crate::sizes::size;
use anyhow::Result;
use std::alloc::Global;
use std::env;
use std::net::Net;
use std::sync::Wait;
use std::thread::Threads;
use std::time::Clock;

/// How large what is measured is, and how often it is done.
#[derive(Clone, Copy)]
struct Size {
    count: u64,
    runs: u64,
}

/// The size that the words give, or the usual one.
fn size_of(words: &[String], count: u64, runs: u64) -> Result<Size> {
    Ok(Size {
        count: size(words, 2, count)?,
        runs: size(words, 3, runs)?,
    })
}

/// Times the part that this word names, in the size that the words give.
fn run<R>(rt: &R, word: &str, words: &[String]) -> Result<()>
where
    R: Net + Wait + Threads + Clock + Print + Eprint + Alloc<A = Global> + Sync,
{
    match word {
        "asm" => asm::run(rt, size_of(words, 64, 1)?),
        "check" => check::run(rt, size_of(words, 64, 1)?),
        "fold" => {
            let name = words.get(2).map_or("sum", |word| word.as_str());
            fold::run(rt, name, size(words, 3, 1)?)
        }
        "store" => store::run(rt, size_of(words, 32, 4)?),
        "put" => put::run(rt, size_of(words, 256, 1)?),
        "merge" => merge::run(rt, size_of(words, 256, 1)?),
        "deliver" => deliver::run(rt, size_of(words, 256, 1)?),
        _ => service::run_word(rt, word, words),
    }
}

/// A small run of each.
fn run_all<R>(rt: &R) -> Result<()>
where
    R: Net + Wait + Threads + Clock + Print + Eprint + Alloc<A = Global> + Sync,
{
    for word in ["asm", "check"] {
        run(rt, word, &[])?;
    }
    for name in ["arithmetic", "moves", "sum", "branches"] {
        fold::run(rt, name, 1)?;
    }
    for word in ["store", "put", "merge", "deliver"] {
        run(rt, word, &[])?;
    }
    service::run_all(rt)
}

fn main(rt: HostRuntime) -> Result<()> {
    let words: Vec<String> = env::args(&rt)?.collect(rt.alloc())?;
    match words.get(1) {
        Some(word) => run(&rt, word.as_str(), &words),
        None => run_all(&rt),
    }
}
