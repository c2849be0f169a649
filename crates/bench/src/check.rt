//! How long the verifier and the checker take.
//!
//! Of a text of so many units, 2 to 4,096, of which every second one is a branch, the notes are found and checked, so
//! many times, one behind the other.

use crate::Size;
use crate::measured::Machine;
use anyhow::{Result, anyhow};
use bq_check::{CheckFault, Notes, check};
use bq_insn::{DecodeFault, Text, decode};
use bq_verify::verify;
use std::alloc::{AllocError, Global};
use std::time::{Clock, Duration, Instant};

/// `mov64 r0, 0`
const FIRST: [u8; 8] = [0xb7, 0, 0, 0, 0, 0, 0, 0];

/// `jlt64 r3, 10, +1`
const BRANCH: [u8; 8] = [0xa5, 3, 1, 0, 10, 0, 0, 0];

/// `add64 r0, 1`
const COUNT: [u8; 8] = [7, 0, 0, 0, 1, 0, 0, 0];

/// `exit`
const LAST: [u8; 8] = [0x95, 0, 0, 0, 0, 0, 0, 0];

/// Appends so many units, in which branches and counts take turns.
fn push_units(bytes: &mut Vec<u8>, units: u64) -> Result<(), AllocError> {
    bytes.extend_from_slice(&FIRST)?;
    for _ in 0..units.saturating_sub(2) / 2 {
        bytes.extend_from_slice(&BRANCH)?;
        bytes.extend_from_slice(&COUNT)?;
    }
    bytes.extend_from_slice(&LAST)
}

/// The bytes of a text of so many units.
fn bytes_of(alloc: Global, units: u64) -> Result<Vec<u8>, AllocError> {
    let mut bytes = Vec::new(alloc);
    push_units(&mut bytes, units)?;
    Ok(bytes)
}

fn undecoded(fault: DecodeFault) -> anyhow::Error {
    anyhow!("refused {}", fault.reason())
}

pub(crate) fn refused(fault: CheckFault) -> anyhow::Error {
    anyhow!("refused {}", fault.reason())
}

/// How long verifying and checking take, and the longest path.
#[derive(Clone, Copy)]
struct Times {
    verifying: Duration,
    checking: Duration,
    longest: u32,
}

/// The notes of a text, and how long it takes to find them.
fn time_verifying(rt: &(impl Clock + Alloc<A = Global>), text: &Text) -> Result<(Notes, Duration)> {
    let start = Instant::now(rt)?;
    let notes = verify(rt.alloc(), text);
    let took = start.elapsed(rt)?;
    Ok((notes.map_err(refused)?, took))
}

/// The longest path of a text with these notes, and how long it takes to check them.
fn time_checking(
    rt: &(impl Clock + Alloc<A = Global>),
    text: Text,
    notes: Notes,
) -> Result<(u32, Duration)> {
    let start = Instant::now(rt);
    let certified = check(rt.alloc(), text, notes);
    let took = start?.elapsed(rt)?;
    Ok((certified.map_err(refused)?.longest(), took))
}

/// One run over the text of these bytes.
fn time_once(rt: &(impl Clock + Alloc<A = Global>), bytes: &[u8]) -> Result<Times> {
    let text = decode(rt.alloc(), bytes).map_err(undecoded)?;
    let (notes, verifying) = time_verifying(rt, &text)?;
    let (longest, checking) = time_checking(rt, text, notes)?;
    Ok(Times {
        verifying,
        checking,
        longest,
    })
}

/// Times the text of these bytes so many times.
fn tell(rt: &impl Machine, bytes: &[u8], runs: u64) -> Result<()> {
    let Times {
        mut verifying,
        mut checking,
        longest,
    } = time_once(rt, bytes)?;
    println!(rt; "units {} longest {longest} runs {runs}", bytes.len() / 8)?;
    for _ in 1..runs {
        let times = time_once(rt, bytes)?;
        verifying = verifying.min(times.verifying);
        checking = checking.min(times.checking);
    }
    eprintln!(rt; "the least: verifying {verifying:?}, checking {checking:?}")?;
    Ok(())
}

/// Times these units so many times.
pub(crate) fn run(rt: &impl Machine, size: Size) -> Result<()> {
    let bytes = bytes_of(rt.alloc(), size.count)?;
    tell(rt, &bytes, size.runs)
}
