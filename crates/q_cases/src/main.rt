//! Cases of the program's parts as text, of several kinds. A line `== KIND` begins cases of a kind; it is not printed.
//!
//! `== commands`: the program's commands, over files in memory.
//!
//! | Line | What it does |
//! |---|---|
//! | `-- TEXT` | is printed as it stands |
//! | `= NAME` | begins a file of this name |
//! | `+ HEX` | adds these bytes to the file |
//! | `* COUNT TEXT` | adds the line TEXT to the file so many times |
//! | `- NAME` | goes on with the file of this name, without its last byte |
//! | `@ PLACE HEX NAME` | goes on with the file of this name, with this byte at PLACE, counted from 1 at its end |
//! | `! COUNT` | makes a read or a write of the next command fail once so many of them went through |
//! | `$ WORDS` | is printed, with what the command of these words prints, its status, and how many files failed |
//! | `? WORDS` | is printed, with what explains the refusal of the command |
//! | any other | is added to the file as a line |
//!
//! Words have one space between, so that two spaces have an empty word between them. Where words name no command, what
//! is wrong with them is printed.
//!
//! `== calls`: calls of the query service that no command and no script makes: lists of events, journals that are
//! gathered, cut and changed, clusters and books of version 1, a writer that fails, programs for records of other
//! lengths than those of a book. Calls of one book stand in `q_book_cases`.
//!
//! - `-- TEXT`: is printed as it stands, and begins a script.
//! - `$ run`, `$ run 1`: makes the script a list of events, and runs it over a cluster of its founders, of version 2 or
//!   1: that all ran, or the refusal and the place of the event that was refused, from 0.
//! - `$ answer NODE QUERY`: the recorded answer of a query in that cluster.
//! - `$ gather NODE QUERY NAMES`: gathers the journals of the nodes that are named, of `N-` the head alone, of `N~` the
//!   head with the other version: the version of the gathered cluster and that of the book of a node that enters it,
//!   and the recorded answer of a query, or the refusal.
//! - `$ store NODE BYTES`: replays a node's journal, and stores a value of so many bytes in its book: whether that is
//!   taken, and of the journal that the book writes then the version and whether it is replayed.
//! - `$ cut NODE`: replays each beginning of a node's journal, as `$ changed` does.
//! - `$ changed NODE COUNT`: replays so many journals, each a node's journal with one byte changed: how many, and how
//!   many of them were neither refused with 57 or 58 nor replayed to a book whose journal has just those bytes.
//! - `$ sim`: what the script prints, and how many lines it told that are done.
//! - `$ room BYTES FILE`: lists a file, where the writer fails once it took so many bytes: how that ends, and the
//!   status; the file `a` holds one instruction.
//! - `$ lengths VERSION LEAST MOST`: whether a founder of this version takes a program that was checked for records of
//!   these lengths.
//! - `$ gone VERSION LEAST MOST`: the same of one that has left.
//! - any other: is added to the script as a line.
//!
//! Lines with `$` are printed, with what comes of them.
//!
//! `== documents`: each line names a document, whose commands are run as they are written there.
//!
//! `== nodes`: scripts of nodes in threads, over memory and over sockets of loopback.
//!
//! - `-- TEXT`: is printed as it stands, and begins a script.
//! - `* COUNT TEXT`: adds the line TEXT to the script so many times.
//! - `$ sockets`: is printed, with what the script prints over a socket for each node, and the exit status.
//! - `$ memory`: is printed, with what the script prints over memory, and the exit status.
//! - `$ deaf NODE`: is printed, with what it prints over memory where this node hears nothing.
//! - `$ mute NODE`: is printed, with what it prints over memory where this node sends nothing.
//! - `$ failing NODE`: is printed, with what it prints over memory where each send of this node fails.
//! - `$ noisy LETTERS`: is printed, with what it prints over memory where datagrams are disturbed by these letters.
//! - `$ unrung`: is printed, with what it prints over memory where nothing wakes the nodes' threads.
//! - `$ flood COUNT`: is printed, with what it prints over sockets where so many datagrams that are no message come
//!   before each that is sent.
//! - `$ runs COUNT WORDS`: is printed, with what the first of so many runs prints, how many print the same as it, and
//!   its exit status.
//! - `$ forged BYTES BOOK NEVER`: is printed, with what it prints over memory where node 1 first hears so many
//!   datagrams that spell no message, that no book takes, and of a message that was never sent.
//! - `$ strict` and one of these: is printed, with the same, and the exit status of a strict run.
//! - `$ WORDS`: is printed, with what the command of these words prints over the one file `s`, which holds the script.
//! - any other: is added to the script as a line.
//!
//! What the run notes of datagrams that were refused, of lines that are unanswered and of what was not sent is printed
//! too, but where datagrams are disturbed by letters or a flood.
#![tactic(auto)]

mod calls;
mod commands;
mod deaf;
mod events;
mod examples;
mod forged;
mod journals;
mod line;
mod nodes;
mod noise;
mod program;
mod writer;

use crate::calls::run_calls;
use crate::commands::run_commands;
use crate::examples::run_documents;
use crate::nodes::run_nodes;
use std::io;
use std::net::Net;
use std::sync::Wait;
use std::thread::Threads;
use std::time::Clock;

/// The lines of a kind that were read.
#[derive(Drop)]
struct Part {
    kind: String,
    lines: String,
}

/// Runs the cases of these lines.
fn run<T: Net + Wait + Threads + Clock + Sync>(
    rt: &HostRuntime,
    threads: &T,
    part: &Part,
) -> io::Result<()> {
    let lines = part.lines.as_str();
    match part.kind.as_str() {
        "" => Ok(()),
        "commands" => run_commands(rt, rt.alloc(), lines),
        "calls" => run_calls(rt, rt.alloc(), lines),
        "documents" => run_documents(rt, lines),
        "nodes" => run_nodes(rt, threads, rt.alloc(), lines),
        kind => println!(rt; "no kind {kind}"),
    }
}

/// Takes a line, and runs the cases before it where it begins others.
fn take<T: Net + Wait + Threads + Clock + Sync>(
    rt: &HostRuntime,
    threads: &T,
    part: &mut Part,
    line: &str,
) -> io::Result<()> {
    match line.strip_prefix("== ") {
        Some(kind) => {
            run(rt, threads, part)?;
            part.lines.clear();
            part.kind.clear();
            Ok(part.kind.push_str(kind)?)
        }
        None => {
            part.lines.push_str(line)?;
            Ok(part.lines.push('\n')?)
        }
    }
}

/// Runs the cases of all lines of the input.
fn run_all<T: Net + Wait + Threads + Clock + Sync>(
    rt: &HostRuntime,
    threads: &T,
    part: &mut Part,
) -> io::Result<()> {
    for line in rt.lines(rt.alloc()) {
        let line = line?;
        take(rt, threads, part, line.as_str())?;
    }
    run(rt, threads, part)
}

fn main(rt: HostRuntime) -> io::Result<()> {
    let mut part = Part {
        kind: String::new(rt.alloc()),
        lines: String::new(rt.alloc()),
    };
    run_all(&rt, &rt, &mut part)
}
