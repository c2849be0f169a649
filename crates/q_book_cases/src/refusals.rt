//! Whether want of memory is told, wherever it comes, and changes nothing.
//!
//! | Part | What it does |
//! |---|---|
//! | `steps` | three scripts, event by event over a cluster |
//! | `scripts` | the same scripts as a whole, with journals that go to files in memory |
//! | `requests` | client requests to a node that is alone: a program, a store, a query, its answer |
//! | `pump` | two queries of such a node, whose jobs go over a board to a runner in the same thread |
//! | `runners` | the same while two runners run in threads of their own |
//!
//! A line of the input runs a part; so does the program's first word, and then nothing else runs. Nothing here refuses
//! memory: `./refuse` at the top runs each part by its word under a C library that refuses one request for memory, each
//! in turn, and compares what each prints.
//!
//! Each call that is refused with 99 is made once more, which must do what it does elsewhere; so the standard output is
//! the same whichever one request is refused. That a call was refused is told on the standard error, by a line `refused
//! 99 OutOfMemory`. The lines of a script that is run as a whole are not taken again: there the line is printed in the
//! script's own output, which goes on without what was refused.
//!
//! What is compared with what:
//!
//! - In `steps`, before and after each refused event: digests of all nodes' journals, of all messages, of the records
//!   of all operations and of the jobs. Where one differs, `changed` is told on the standard error.
//! - In `steps` and `scripts` each script runs twice, and the journals of both runs are compared, since at most one of
//!   them had a request refused: in `steps` by a digest and the number of events, in `scripts` byte for byte.
//! - In `requests`, before and after a reply of 99: how many events the journal has, and how many messages were given.
//!   Behind each request stands a question for a query that there is not, which is answered in any case (54, in
//!   hexadecimal digits 36).
//! - In `pump` and `runners`, at the end: both answers, and how many events the journal has. A result or a job that was
//!   lost would lack there. In `runners` all begins again where a thread could not be started, and what had begun
//!   before would have printed its lines.
//!
//! The numbers that are printed are what the rules of a node give by hand: one record is counted, in three steps, from
//! 0 or from 7; a journal has an event for each call that its node took.

mod again;
mod alone;
mod digest;
mod pump;
mod requests;
mod rows;
mod scripts;
mod steps;
mod threads;

use crate::refusals::again::again;
use crate::refusals::pump::run_pump;
use crate::refusals::requests::run_requests;
use crate::refusals::scripts::run_scripts;
use crate::refusals::steps::run_steps;
use crate::refusals::threads::run_threads;
use std::sync::Wait;
use std::thread::Threads;
use std::{env, io};

/// Runs a part.
pub fn run_part<T: Wait + Threads + Sync>(
    rt: &HostRuntime,
    threads: &T,
    part: &str,
) -> io::Result<()> {
    match part {
        "steps" => run_steps(rt),
        "scripts" => run_scripts(rt),
        "requests" => run_requests(rt, threads),
        "pump" => run_pump(rt),
        "runners" => run_threads(rt, threads),
        _ => println!(rt; "no part {part}"),
    }
}

/// The first word behind the program's name.
fn first_word(rt: &HostRuntime) -> io::Result<Option<String>> {
    let mut words = env::args(rt)?;
    let _ = words.next();
    Ok(words.next())
}

/// The part that the program's first word names.
pub fn named_part(rt: &HostRuntime) -> io::Result<Option<String>> {
    again!(rt, first_word(rt))
}
