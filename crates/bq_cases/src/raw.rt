//! What the loop over checked code answers.
//!
//! - `loop ACC VALUES = SOURCE`: what the text answers once it is verified and checked, and in how many steps, over the
//!   one block of all lines, whose frame is cleared first, and over records as `run` has them. Or `refused NUMBER NAME`
//!   and the unit.

ghost use Rattle.std.specs.Prelude.{IfOk};
ghost use Rattle.bq_meaning.specs.Place.{record_length};
ghost use Rattle.bq_range.specs.Interval.{IsIn};

use crate::check::print_fault;
use crate::run::{print_ended, record_of};
use crate::words::{numbers, text};
use bq_check::{Certified, CheckFault, Notes, check_within};
use bq_frame::Block;
use bq_insn::Text;
use bq_meaning::Ended;
use bq_run::run;
use bq_state::Bounds;
use bq_verify::verify_within;
use std::alloc::Global;
use std::io;

/// The certificate of a text with these notes, for records of 64 bytes.
pub(crate) fn certified_with(
    alloc: Global,
    text: Text,
    notes: Notes,
) -> Result<Certified, CheckFault>
    ensures { IfOk result (λ certified. IsIn record_length certified.lengths) }
{
    check_within(alloc, text, notes, Bounds::of_views())
}

fn certified(alloc: Global, text: Text) -> Result<Certified, CheckFault>
    ensures { IfOk result (λ certified. IsIn record_length certified.lengths) }
{
    let notes = verify_within(alloc, &text, Bounds::of_views())?;
    certified_with(alloc, text, notes)
}

/// What the loop answers over records with these values.
pub(crate) fn fold(certified: &Certified, start: u64, values: &[u64], block: &mut Block) -> Ended
    requires { IsIn record_length certified.now.lengths }
{
    block.set_record(&[0xff; 64]);
    block.clear_frame();
    let mut all = Ended {
        acc: start,
        steps: 0,
    };
    for value in values {
        let ended = run(certified, &record_of(*value), all.acc, block);
        all = Ended {
            acc: ended.acc,
            steps: all.steps.wrapping_add(ended.steps),
        };
    }
    all
}

fn print_loop(
    rt: &impl Print,
    alloc: Global,
    block: &mut Block,
    text: Text,
    acc: u64,
    values: &[u64],
) -> io::Result<()> {
    match certified(alloc, text) {
        Ok(certified) => {
            let ended = fold(&certified, acc, values, block);
            print_ended(rt, ended)
        }
        Err(fault) => print_fault(rt, fault),
    }
}

/// Prints what the loop answers.
pub(crate) fn answer(
    rt: &impl Print,
    alloc: Global,
    block: &mut Block,
    rest: &str,
) -> io::Result<()> {
    let (words, source) = rest.split_once(" = ").unwrap_or((rest, ""));
    let numbers = numbers(alloc, words)?;
    match (numbers.as_deref(), text(alloc, source)?) {
        (Some([acc, values @ ..]), Some(text)) => print_loop(rt, alloc, block, text, *acc, values),
        _ => println!(rt; " ?"),
    }
}
