//! What is done some times, and how long it takes.

use anyhow::Result;
use std::alloc::Global;
use std::time::{Clock, Duration, Instant};

/// What a benchmark needs of the machine.
pub(crate) trait Machine: Clock + Print + Eprint + Alloc<A = Global> {}

impl<R: Clock + Print + Eprint + Alloc<A = Global>> Machine for R {}

/// How long so many runs take, one behind the other. Each is given its number, from 0 on.
pub(crate) fn time_runs<T: Drop, F: FnMut(u64) -> Result<T>>(
    rt: &impl Clock,
    runs: u64,
    mut run: F,
) -> Result<Duration>
    requires { F.IsAlwaysCallable run }
{
    let start = Instant::now(rt)?;
    for number in 0..runs {
        let _done = run(number)?;
    }
    Ok(start.elapsed(rt)?)
}

/// How often each is done, where the least time counts.
pub(crate) const RUNS: u32 = 5;

/// How many of what was wanted were done, and how long all took.
#[derive(Clone, Copy)]
pub(crate) struct Measured {
    pub(crate) done: u64,
    pub(crate) taken: Duration,
}

impl Measured {
    /// The least count and the least time of two runs.
    pub(crate) fn least(self, other: Measured) -> Measured {
        Measured {
            done: self.done.min(other.done),
            taken: if other.taken < self.taken {
                other.taken
            } else {
                self.taken
            },
        }
    }
}

/// Prints how many were done, and how many of them a second does.
pub(crate) fn tell(rt: &(impl Print + Eprint), name: &str, measured: Measured) -> Result<()> {
    let done = measured.done;
    let micros = measured.taken.as_micros();
    let a_second = u128::from(done)
        .saturating_mul(1_000_000)
        .checked_div(micros)
        .unwrap_or(0);
    println!(rt; "{name}: {done} done")?;
    eprintln!(rt; "{name}: {micros} microseconds, {a_second} a second")?;
    Ok(())
}
