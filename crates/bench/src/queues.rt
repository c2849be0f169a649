//! The same jobs through two queues, each behind a lock.

use crate::jobs::Times;
use anyhow::Result;
use bq_frame::Block;
use q_session::{Done, Job};
use std::alloc::Global;
use std::collections::VecDeque;
use std::sync::atomic::AtomicBool;
use std::sync::atomic::Ordering::SeqCst;
use std::sync::{Mutex, Wait};
use std::thread;
use std::thread::{Scope, Threads};
use std::time::{Clock, Instant};

/// What the threads share.
#[derive(Drop)]
struct Queues {
    offered: Mutex<VecDeque<Job>>,
    finished: Mutex<VecDeque<Done>>,
    over: AtomicBool,
}

impl Queues {
    fn new(alloc: Global) -> Queues {
        Queues {
            offered: Mutex::new(VecDeque::new(alloc)),
            finished: Mutex::new(VecDeque::new(alloc)),
            over: AtomicBool::new(false),
        }
    }

    /// Whether the job was taken up.
    fn offer(&self, rt: &impl Wait, job: Job) -> bool {
        self.offered.lock(rt).push_back(job).is_ok()
    }

    /// Runs the next job over the block, if there is one.
    fn run_one(&self, rt: &impl Wait, block: &mut Block) -> bool {
        let job = self.offered.lock(rt).pop_front();
        match job {
            Some(job) => {
                let done = Done::run(job, block);
                self.finished.lock(rt).push_back(done).is_ok()
            }
            None => false,
        }
    }

    /// Takes the next result, if there is one.
    fn receive(&self, rt: &impl Wait) -> bool {
        let done = self.finished.lock(rt).pop_front();
        done.is_some()
    }
}

/// Hands jobs over, one behind the other.
pub fn hand<R: Wait + Clock + Alloc<A = Global>>(rt: &R, jobs: Vec<Job>) -> Result<Times> {
    let mut block = Block::new(rt.alloc())?;
    let queues = Queues::new(rt.alloc());
    time_handing(rt, &queues, &mut block, jobs)
}

/// How long it takes to hand each job over.
fn time_handing<R: Wait + Clock>(
    rt: &R,
    queues: &Queues,
    block: &mut Block,
    jobs: Vec<Job>,
) -> Result<Times> {
    let start = Instant::now(rt);
    let done = hand_all(rt, queues, block, jobs);
    Ok(Times::of(done, start?.elapsed(rt)?))
}

/// Hands each job over; how many results came back.
fn hand_all(rt: &impl Wait, queues: &Queues, block: &mut Block, jobs: Vec<Job>) -> usize {
    let mut done: usize = 0;
    for job in jobs {
        if queues.offer(rt, job) && queues.run_one(rt, block) && queues.receive(rt) {
            done = done.saturating_add(1);
        }
    }
    done
}

/// Runs jobs by so many runners.
pub fn run<R>(rt: &R, jobs: Vec<Job>, runners: usize) -> Result<Times>
where
    R: Wait + Threads + Clock + Alloc<A = Global> + Sync,
{
    let queues = Queues::new(rt.alloc());
    time_running(rt, &queues, jobs, runners)
}

/// How long it takes so many runners to run all jobs.
fn time_running<R>(rt: &R, queues: &Queues, jobs: Vec<Job>, runners: usize) -> Result<Times>
where
    R: Wait + Threads + Clock + Alloc<A = Global> + Sync,
{
    let start = Instant::now(rt);
    let done = thread::scope(thread::scope_env(), rt, |scope| {
        let done = if start_all(scope, rt, rt.alloc(), queues, runners) {
            offer_all(rt, queues, jobs)
        } else {
            0
        };
        queues.over.store(true, SeqCst);
        done
    });
    Ok(Times::of(done, start?.elapsed(rt)?))
}

/// Starts the threads of the runners, each with a block of its own.
fn start_all<'s, E, R: Wait + Threads + Sync>(
    scope: &Scope<'s, E>,
    rt: &'s R,
    alloc: Global,
    queues: &'s Queues,
    runners: usize,
) -> bool {
    for _ in 0..runners {
        let Ok(block) = Block::new(alloc) else {
            return false;
        };
        if scope.spawn(move || run_until(rt, queues, block)).is_err() {
            return false;
        }
    }
    true
}

/// Runs jobs until the work is over.
fn run_until<R: Wait>(rt: &R, queues: &Queues, mut block: Block) {
    for _ in rt.forever() {
        if queues.over.load(SeqCst) {
            break;
        }
        if !queues.run_one(rt, &mut block) {
            thread::yield_now();
        }
    }
}

/// Offers all jobs, at most eight at a time, and receives all results.
fn offer_all<R: Wait>(rt: &R, queues: &Queues, jobs: Vec<Job>) -> usize {
    let mut offered: usize = 0;
    let mut done: usize = 0;
    for job in jobs {
        for _ in rt.forever() {
            if offered.saturating_sub(done) < 8 {
                break;
            }
            done = done.saturating_add(receive_some(rt, queues));
        }
        if queues.offer(rt, job) {
            offered = offered.saturating_add(1);
        }
    }
    for _ in rt.forever() {
        if offered == done {
            break;
        }
        done = done.saturating_add(receive_some(rt, queues));
    }
    done
}

/// Takes all results that are there; how many there were.
fn receive_some<R: Wait>(rt: &R, queues: &Queues) -> usize {
    let mut done: usize = 0;
    for _ in 0..8 {
        if queues.receive(rt) {
            done = done.saturating_add(1);
        }
    }
    if done == 0 {
        thread::yield_now();
    }
    done
}
