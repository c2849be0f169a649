//! Cases of a book whose node is a founder that is alone: requests of clients, and the job board, with runners in its
//! thread, and with many of both in threads; and parts whose calls are made again where memory is refused.
//!
//! - `-- TEXT`: is printed as it stands, and begins with a fresh book.
//! - `old`: begins with a fresh book of version 1.
//! - `+ HEX`: adds these bytes to the input.
//! - `* COUNT HEX`: adds them so many times.
//! - `! read COUNT`, `! write COUNT`: makes a call of the next `serve` fail once so many bytes of the input were read,
//!   or of the replies written.
//! - `serve`: serves the input, which is empty then, and prints the replies as hexadecimal digits, how it ended, the
//!   calls of the reader and of the writer that failed, and how many messages the book gave.
//! - `part NAME`: runs a part of `src/refusals.rt`, which prints its own lines.
//!
//! Any other line is a step, and is printed with what it comes to:
//!
//! - `settle`: delivers what the book gave to itself until nothing is left.
//! - `answer`: runs the job of each ready query, and records its answer: how many.
//! - `leave`: the node leaves.
//! - `room`: whether there is room for an answer.
//! - `events`: how many events the journal has.
//! - `offer`: hands out the next job and offers it: its query; a job that comes back is told by its query, with the
//!   refusal.
//! - `run RUNNER`: the runner, 1 or 2, looks at eight slots, and runs each job that it claims: how many.
//! - `back RUNNER COUNT`: the runner gives the jobs of its next claims back, so many: how many.
//! - `receive PLACE`: records the result at this place of the asker's row: its query.
//! - `pump`: receives and records all results, and offers what is ready: how many were recorded.
//! - `gate RUNNERS LOOKS`: asks three queries of so many runners in threads, of which the second is held until the
//!   third is answered, or for so many looks: whether no run held another up, and all answers are right.
//! - `threads RUNNERS LOOKS`: asks as many queries as there are runners in threads, where each run is held until all
//!   are, or for so many looks: whether all were held at once and let out, and all answers are right.
//! - `many ASKERS RUNNERS QUERIES`: runs so many askers and runners in threads, where each asker asks so many queries:
//!   how many answers are right.
//!
//! The board of the steps has eight places, and is the same for all cases: each leaves it empty. What a call makes of a
//! seat or a book is proved in its crate, for every schedule. Here threads run: that jobs get done at all is said by no
//! proof. What is printed is the same under every schedule.
//!
//! Where the program has a word, it runs the part of that name alone and reads no input, as `./refuse` has it do.
#![tactic(auto)]

mod asker;
mod cases;
mod founder;
mod gate;
mod many;
mod muster;
mod refusals;
mod requests;
mod runner;
mod step;
mod stream;
mod trial;

use crate::cases::{Cases, seated};
use crate::refusals::{named_part, run_part};
use q_board::Board;
use std::io;
use std::sync::Wait;
use std::thread::Threads;
use std::time::Clock;

/// Takes a line.
fn take<T: Wait + Threads + Clock + Sync>(
    rt: &HostRuntime,
    threads: &T,
    cases: &mut Cases<'_>,
    line: &str,
) -> io::Result<()> {
    match line.strip_prefix("part ") {
        Some(part) => run_part(rt, threads, part),
        None => cases.take(threads, line, &mut io::writer(rt)),
    }
}

/// Takes each line of the input.
fn take_all<T: Wait + Threads + Clock + Sync>(
    rt: &HostRuntime,
    threads: &T,
    cases: &mut Cases<'_>,
) -> io::Result<()> {
    for line in rt.lines(rt.alloc()) {
        let line = line?;
        take(rt, threads, cases, line.as_str())?;
    }
    Ok(())
}

/// Takes each line of the input, at a board of its own.
fn run_cases<T: Wait + Threads + Clock + Sync>(rt: &HostRuntime, threads: &T) -> io::Result<()> {
    match Board::open(rt.alloc(), 1, 2) {
        Ok((board, askers, runners)) => {
            let mut made = seated(rt.alloc(), &board, askers, runners);
            match &mut made {
                Some(cases) => take_all(rt, threads, cases),
                None => Err(io::Error::from(io::ErrorKind::OutOfMemory)),
            }
        }
        Err(_) => Err(io::Error::from(io::ErrorKind::OutOfMemory)),
    }
}

fn main(rt: HostRuntime) -> io::Result<()> {
    match named_part(&rt)? {
        Some(part) => run_part(&rt, &rt, part.as_str()),
        None => run_cases(&rt, &rt),
    }
}
