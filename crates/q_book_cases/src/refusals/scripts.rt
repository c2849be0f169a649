//! Scripts as a whole, over files in memory.

use crate::refusals::rows::{ROWS, Row};
use q_outside::MemoryFiles;
use q_script::Script;
use q_sim::{Printed, simulate};
use q_told::Refusal;
use std::io;

/// Runs a script over files, where it puts its journals.
fn run(rt: &HostRuntime, text: &str, files: &mut MemoryFiles) -> Result<Printed, Refusal> {
    let script = Script::read(rt.alloc(), text)?;
    simulate(rt.alloc(), script, files)
}

/// Prints what a script printed, or why it was refused.
fn print(rt: &HostRuntime, printed: Result<Printed, Refusal>) -> io::Result<()> {
    match printed {
        Ok(printed) => rt.print(printed.lines),
        Err(refusal) => rt.println(refusal),
    }
}

/// Runs a script, and prints what it prints.
fn tell_run(rt: &HostRuntime, text: &str, files: &mut MemoryFiles) -> io::Result<()> {
    let printed = run(rt, text, files);
    print(rt, printed)
}

/// Runs a script twice, and prints whether it writes the same journals.
fn run_twice(
    rt: &HostRuntime,
    row: &Row,
    first: &mut MemoryFiles,
    second: &mut MemoryFiles,
) -> io::Result<()> {
    println!(rt; "-- {}, as a script", row.title)?;
    tell_run(rt, row.text, first)?;
    println!(rt; "-- {}, once more", row.title)?;
    tell_run(rt, row.text, second)?;
    if first.files == second.files {
        rt.println("both wrote the same journals")
    } else {
        rt.println("the journals differ")
    }
}

/// Runs the script of a row.
fn run_row(rt: &HostRuntime, row: &Row) -> io::Result<()> {
    let mut first = MemoryFiles::new(rt.alloc());
    let mut second = MemoryFiles::new(rt.alloc());
    run_twice(rt, row, &mut first, &mut second)
}

/// Runs the scripts.
pub fn run_scripts(rt: &HostRuntime) -> io::Result<()> {
    for row in &ROWS {
        run_row(rt, row)?;
    }
    Ok(())
}
