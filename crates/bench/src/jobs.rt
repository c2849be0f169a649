//! Jobs to be run, and how long they took.

ghost use Rattle.std.specs.Prelude.{◌≡◌};
ghost use Rattle.q_told.specs.Programs.{program_lengths};

use anyhow::{Context, Result, anyhow};
use q_session::laws::records_of_values;
use q_session::{Job, Phase, Query};
use q_table::{Program, ProgramId};
use q_told::certified_code;
use sc_view::{Stored, VALUE_LENGTH, Value, View};
use std::alloc::Global;
use std::time::Duration;

/// `mov64 r0, r3 / add64 r0, 1 / exit`
const COUNT: [u8; 24] = [
    0xbf, 0x30, 0, 0, 0, 0, 0, 0, 0x07, 0, 0, 0, 1, 0, 0, 0, 0x95, 0, 0, 0, 0, 0, 0, 0,
];

/// How many jobs were done, and how long each took.
#[derive(Clone, Copy)]
pub struct Times {
    pub jobs: usize,
    pub nanos: u128,
}

impl Times {
    /// Of so many jobs, which took this long in all.
    pub fn of(jobs: usize, took: Duration) -> Times {
        let nanos = match took.as_nanos().checked_div(jobs as u128) {
            Some(nanos) => nanos,
            None => 0,
        };
        Times { jobs, nanos }
    }
}

/// A view of one record.
fn view(alloc: Global) -> Result<View> {
    let stored = Stored::new(1, Value::from(&[7; VALUE_LENGTH])).context("no value")?;
    let mut view = View::new(alloc);
    view.put(1, stored).map_err(|_| anyhow!("no room"))?;
    Ok(view)
}

/// A job of a program over a view of one record.
fn job_of(alloc: Global, program: &Program) -> Result<Job>
    requires { program.now.lengths ≡ program_lengths }
{
    let view = view(alloc)?;
    records_of_values();
    view.values_are_short();
    let query = Query {
        tag: 0,
        program: ProgramId::new(0),
        start: 0,
        phase: Phase::Ready(view),
    };
    Job::of(alloc, 1, 0, &query, program)?.context("not ready")
}

/// A job over a view of one record.
fn job(alloc: Global) -> Result<Job> {
    let program = certified_code(alloc, &COUNT).map_err(|_| anyhow!("refused"))?;
    job_of(alloc, &program)
}

/// So many jobs that share the program and the view of this one.
fn copies(alloc: Global, job: &Job, count: usize) -> Result<Vec<Job>> {
    let mut jobs = Vec::with_capacity(alloc, count)?;
    for _ in 0..count {
        jobs.push(job.clone()?)?;
    }
    Ok(jobs)
}

/// So many jobs, which share their program and their view.
pub fn jobs(alloc: Global, count: usize) -> Result<Vec<Job>> {
    let job = job(alloc)?;
    copies(alloc, &job, count)
}
