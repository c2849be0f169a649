//! How long a program takes over a view of 256 records, by the loop without tests and by the machine that tests every
//! access.
//!
//! | Program | Units | What it is |
//! |---|---|---|
//! | `arithmetic` | 1,015 | operations of ten kinds on seven registers |
//! | `moves` | 1,015 | moves and additions in turn |
//! | `sum` | 4 | the accumulator and eight bytes of the record |
//! | `branches` | 33 | ten branches on a number of the record, each over an addition |
//!
//! Both fold it so many times, in turn, and the least time of each is told, for each instruction that was executed.

ghost use Rattle.std.specs.Prelude.{◌≡◌, IfOk};
ghost use Rattle.bq_state.specs.Kinds.{view_lengths};
ghost use Rattle.q_session.specs.Records.{HasRecordsWithin};

use crate::measured::Machine;
use crate::{asm, check, values};
use anyhow::{Context, Result, bail};
use bq_asm::assemble;
use bq_check::{Certified, check_within};
use bq_frame::Block;
use bq_state::Bounds;
use bq_verify::verify_within;
use q_session::laws::records_of_values;
use q_session::{Ran, fold_checked, run_fold};
use q_table::Program;
use sc_view::{Stored, VALUE_LENGTH, Value, View};
use std::alloc::{AllocError, Global};
use std::time::{Clock, Duration, Instant};

/// How many operations the long programs have between their first seven units and the last.
const OPERATIONS: usize = 1007;

/// The operations of the first program.
const NAMES: [&str; 10] = [
    "add64", "sub64", "mul64", "or64", "and64", "xor64", "add32", "xor32", "lsh64", "rsh64",
];

/// Its registers.
const REGISTERS: [u8; 7] = [0, 4, 5, 6, 7, 8, 9];

/// The next of a row of numbers that look random.
fn next(number: u64) -> u64 {
    number
        .wrapping_mul(6_364_136_223_846_793_005)
        .wrapping_add(1_442_695_040_888_963_407)
}

/// Copies of the accumulator in seven registers.
fn copies(source: &mut String) -> Result<(), AllocError> {
    for register in 4..10 {
        write!(source, "mov64 r{register}, r3\n")?;
    }
    source.push_str("mov64 r0, r3\n")
}

/// Appends the operation at this place, which this number picks.
fn push_operation(source: &mut String, place: usize, number: u64) -> Result<(), AllocError> {
    let name = NAMES[(number >> 58) as usize % 10];
    let dst = REGISTERS[(number >> 40) as usize % 7];
    let src = REGISTERS[(number >> 50) as usize % 7];
    write!(source, "{name} r{dst}, ")?;
    if name == "lsh64" || name == "rsh64" {
        write!(source, "{}\n", 1 + (number >> 33) % 7)
    } else if place % 3 == 0 {
        write!(source, "{}\n", (number >> 33) % 100_000_000)
    } else {
        write!(source, "r{src}\n")
    }
}

fn arithmetic(source: &mut String) -> Result<(), AllocError> {
    copies(source)?;
    let mut number = 1;
    for place in 0..OPERATIONS {
        number = next(number);
        push_operation(source, place, number)?;
    }
    source.push_str("exit\n")
}

fn moves(source: &mut String) -> Result<(), AllocError> {
    copies(source)?;
    for place in 0..OPERATIONS {
        if place % 2 == 0 {
            write!(source, "mov64 r{}, r0\n", 4 + place % 6)?;
        } else {
            write!(source, "add64 r0, {place}\n")?;
        }
    }
    source.push_str("exit\n")
}

fn branches(source: &mut String) -> Result<(), AllocError> {
    source.push_str("mov64 r0, r3\nload8 r4, [r1+16]\n")?;
    let mut number = 1;
    for branch in 0..10 {
        number = next(number);
        let bound = (number >> 33) % 2_000_000_000;
        write!(
            source,
            "jlt64 r4, {bound}, next_{branch}\nadd64 r0, 1\nnext_{branch}:\nadd64 r4, r0\n"
        )?;
    }
    source.push_str("exit\n")
}

/// Appends the source of the program of this name.
fn push_source(source: &mut String, name: &str) -> Result<()> {
    match name {
        "arithmetic" => arithmetic(source)?,
        "moves" => moves(source)?,
        "sum" => source.push_str("mov64 r0, r3\nload8 r4, [r1+16]\nadd64 r0, r4\nexit\n")?,
        "branches" => branches(source)?,
        _ => bail!("{name:?} is none of arithmetic, moves, sum and branches"),
    }
    Ok(())
}

/// The source of the program of this name.
fn source_of(alloc: Global, name: &str) -> Result<String> {
    let mut source = String::new(alloc);
    push_source(&mut source, name)?;
    Ok(source)
}

/// The certificate of a source, for records of 64 bytes.
fn certified(alloc: Global, source: &str) -> Result<Certified>
    ensures { IfOk result (λ certified. certified.lengths ≡ view_lengths) }
{
    let text = assemble(alloc, source).map_err(asm::refused)?;
    let views = Bounds::of_views();
    let notes = verify_within(alloc, &text, views).map_err(check::refused)?;
    check_within(alloc, text, notes, views).map_err(check::refused)
}

/// The program of this name.
fn program(alloc: Global, name: &str) -> Result<Program>
    ensures { IfOk result (λ program. program.lengths ≡ view_lengths) }
{
    let source = source_of(alloc, name)?;
    let certified = certified(alloc, source.as_str())?;
    Ok(Program::new(alloc, certified)?)
}

/// Puts 256 values, of which each begins with a number below 2^31.
fn fill(view: &mut View) -> Result<()> {
    let mut number = 3;
    for id in 1..257 {
        number = next(number);
        let mut value = [0; VALUE_LENGTH];
        value[..8].copy_from_slice(&(number >> 33).to_le_bytes());
        let stored = Stored::new(1, Value::from(&value)).context("a number is 0")?;
        view.put(id, stored).map_err(values::refused)?;
    }
    Ok(())
}

/// A view of 256 values.
fn view_of(alloc: Global) -> Result<View> {
    let mut view = View::new(alloc);
    fill(&mut view)?;
    Ok(view)
}

/// What both folds answered and how long each took.
#[derive(Clone, Copy)]
struct Times {
    ran: Ran,
    reference: Ran,
    loop_took: Duration,
    checked_took: Duration,
}

fn time_once(rt: &impl Clock, program: &Program, view: &View, block: &mut Block) -> Result<Times>
    requires { HasRecordsWithin program.now.lengths view.now }
{
    let start = Instant::now(rt)?;
    let ran = run_fold(program.certified(), view, 3, block);
    let loop_took = start.elapsed(rt)?;
    let start = Instant::now(rt)?;
    let reference = fold_checked(program.certified(), view, 3);
    let checked_took = start.elapsed(rt)?;
    Ok(Times {
        ran,
        reference,
        loop_took,
        checked_took,
    })
}

/// So many picoseconds, of so many instructions, for each of them.
fn each(took: Duration, steps: u64) -> u128 {
    took.as_nanos()
        .saturating_mul(1000)
        .checked_div(u128::from(steps))
        .unwrap_or(0)
}

/// Times a program over a view so many times, in this block.
fn tell(
    rt: &(impl Clock + Print + Eprint),
    name: &str,
    program: &Program,
    view: &View,
    block: &mut Block,
    runs: u64,
) -> Result<()>
    requires { HasRecordsWithin program.now.lengths view.now }
{
    let first = time_once(rt, program, view, block)?;
    let Ran { acc, steps } = first.ran;
    let same = first.ran == first.reference;
    let units = program.certified().text().units();
    println!(rt; "{name} units {units} steps {steps} acc {acc} same {same}")?;
    let mut loop_took = first.loop_took;
    let mut checked_took = first.checked_took;
    for _ in 1..runs {
        let times = time_once(rt, program, view, block)?;
        loop_took = loop_took.min(times.loop_took);
        checked_took = checked_took.min(times.checked_took);
    }
    tell_times(rt, loop_took, checked_took, steps)
}

/// Prints how long so many instructions took, and each of them.
fn tell_times(
    rt: &impl Eprint,
    loop_took: Duration,
    checked_took: Duration,
    steps: u64,
) -> Result<()> {
    let (loop_each, checked_each) = (each(loop_took, steps), each(checked_took, steps));
    eprintln!(rt;
        "loop {loop_took:?}, {loop_each} ps each; checked {checked_took:?}, {checked_each} ps each"
    )?;
    Ok(())
}

/// Times a program over a view so many times.
fn run_over(rt: &impl Machine, name: &str, program: &Program, view: &View, runs: u64) -> Result<()>
    requires { program.now.lengths ≡ view_lengths }
{
    records_of_values();
    if !view.has_values_within(VALUE_LENGTH, VALUE_LENGTH) {
        bail!("a value has another length");
    }
    let mut block = Block::new(rt.alloc())?;
    tell(rt, name, program, view, &mut block, runs)
}

/// Times a program so many times.
pub(crate) fn run(rt: &impl Machine, name: &str, runs: u64) -> Result<()> {
    let program = program(rt.alloc(), name)?;
    let view = view_of(rt.alloc())?;
    run_over(rt, name, &program, &view, runs)
}
