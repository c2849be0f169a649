//! Runs over one record.

ghost use Rattle.std.specs.Prelude.{◌≡◌, ◌≤◌, length, IfOk, IfErr, OnErr, ℕ, List};
ghost use Rattle.bq_meaning.specs.Place.{least_record, record_room};
ghost use Rattle.bq_meaning.specs.Runs.{RecordRun, RunFaults, entry_machine};

use crate::fault::Fault;
use crate::machine::Machine;
use crate::placement::{FRAME_LENGTH, Placement};
use crate::step::{Step, step_checked};
use bq_insn::Text;

/// How a record run ended: r0 at its exit, and how many steps it took, the exit among them.
#[derive(Clone, Copy, Debug, PartialEq, Eq, Drop)]
pub struct Ended {
    /// The next accumulator, and after the last record the answer.
    pub acc: u64,
    /// At least 1.
    pub steps: u64,
}

/// One record run over a record of 16 to 128 bytes, of at most `limit` steps: from the entry, where r2 is the record's
/// length, until an exit, or the fault that stops it (91 to 95), or 96 where `limit` steps were done without an exit.
/// After a fault the frame is as it was.
pub fn run_checked(
    text: &Text,
    placement: &Placement,
    record: &[u8],
    frame: &mut [u8; FRAME_LENGTH],
    acc: u64,
    limit: u64,
) -> Result<Ended, Fault>
    requires least { least_record ≤ length «record».now }
    requires room { length «record».now ≤ record_room }

    // What ends within the limit is a record run.
    ensures ok { IfOk result (λ e. RecordRun placement.now text.now acc «record».now frame.old e.steps e.acc frame.new) }
    ensures within { IfOk result (λ e. e.steps ≤ limit) }

    // Which fault it is, and what it leaves.
    ensures err { IfErr result (λ f. RunFaults placement.now text.now (entry_machine placement.now acc «record».now frame.old) limit f) }
    ensures unchanged { OnErr result (frame.new ≡ frame.old) }

    // A record run that there is within the limit is found, and so is a fault.
    ensures complete { (n answer : ℕ) (after : List ℕ) → n ≤ limit → RecordRun placement.now text.now acc «record».now frame.old n answer after → (result ≡ Ok (record { acc = answer; steps = n })) × (frame.new ≡ after) }
    ensures faulty { (f : Fault) → RunFaults placement.now text.now (entry_machine placement.now acc «record».now frame.old) limit f → result ≡ Err f }
{
    let mut machine = Machine::at_entry(placement, acc, record, frame);
    for done in 0..limit {
        match step_checked(text, placement, &mut machine) {
            Ok(Step::Continues) => {}
            Ok(Step::Ends(acc)) => {
                *frame = machine.frame;
                return Ok(Ended {
                    acc,
                    steps: done + 1,
                });
            }
            Err(fault) => return Err(fault),
        }
    }
    Err(Fault::StepsOut)
}
