//! How long assembling and disassembling take.
//!
//! A source of so many units, 1 to 4,096, with a label and a jump for each four of them, is assembled so many times,
//! one behind the other, and then its text is disassembled as often.

use crate::Size;
use crate::measured::{Machine, time_runs};
use anyhow::{Result, anyhow};
use bq_asm::{AsmFault, assemble, disassemble};
use std::alloc::{AllocError, Global};

/// Appends the unit of this number: the first of four has a label, and the third jumps to that of the next four.
fn push_unit(source: &mut String, unit: u64) -> Result<(), AllocError> {
    let group = unit / 4;
    match unit % 4 {
        0 => write!(source, "next_{group}:\nadd64 r0, 1 # one more\n"),
        1 => source.push_str("load8 r4, [r1+16]\n"),
        2 => write!(source, "jlt64 r4, 10, next_{}\n", group + 1),
        _ => source.push_str("mov64 r0, r4\n"),
    }
}

/// Appends so many units, and the last label.
fn push_units(source: &mut String, units: u64) -> Result<(), AllocError> {
    for unit in 0..units {
        push_unit(source, unit)?;
    }
    write!(source, "next_{}:\n", units.div_ceil(4))
}

/// A source of so many units.
fn source_of(alloc: Global, units: u64) -> Result<String, AllocError> {
    let mut source = String::new(alloc);
    push_units(&mut source, units)?;
    Ok(source)
}

pub(crate) fn refused(fault: AsmFault) -> anyhow::Error {
    anyhow!("refused {}", fault.reason())
}

/// Times these units so many times.
pub(crate) fn run(rt: &impl Machine, size: Size) -> Result<()> {
    let Size { count, runs } = size;
    let source = source_of(rt.alloc(), count)?;
    let source = source.as_str();
    let text = assemble(rt.alloc(), source).map_err(refused)?;
    println!(rt;
        "units {} characters {} runs {runs}",
        text.units(),
        source.len()
    )?;
    let assembling = time_runs(rt, runs, |_| {
        assemble(rt.alloc(), source).map_err(refused)
    })?;
    let disassembling = time_runs(rt, runs, |_| Ok(disassemble(rt.alloc(), &text)?))?;
    eprintln!(rt; "assembling {assembling:?}, disassembling {disassembling:?}")?;
    Ok(())
}
