//! How the run of a node ends.

ghost use Rattle.std.specs.Prelude.{◌≡◌, ℕ, List, Option, OnOk, OnErr};
ghost use Rattle.std.specs.Io.KnownBytes.{Appends};
ghost use Rattle.q_told.specs.Line.{line_of};
ghost use Rattle.q_kept.specs.Faults as recorder;
ghost use Rattle.q_told.specs.declared.refusal.RefusalPlace.TheVariants.{Untold};
ghost use Rattle.q_outside.specs.Counts.{count_after};
ghost use Rattle.q_node.specs.Journal.{IsKept};
ghost use Rattle.q_node.specs.Runs.{Closes, EndsRefused, IsJournal, IsWritten, failures_after, status_of};
ghost use Rattle.q_told.specs.Printing.{journal_line};
ghost use Rattle.q_node.specs.Talks.{Talks, talk_count};
ghost use Rattle.q_node.specs.declared.ending.NodeEnding.TheVariants.{Refused};
ghost use Rattle.q_node.specs.declared.fault.StartFault.{StartFault as Fault};

use crate::fault::StartFault;
use crate::talk_end::Talk;
use q_kept::Unrecorded;
use q_outside::{Counted, Piece, TransportFailed};
use q_told::{RefusalPlace, put_line};
use std::io::Write;

/// How the run of a node ended.
#[derive(Clone, Copy, Debug, PartialEq, Eq)]
pub enum NodeEnding {
    /// It was ended at its console, and its whole journal is written.
    Ended {
        /// How many events the journal has.
        events: usize,
    },
    /// 87: its journal could not be written, and it was mute from then on. 99: memory ran out, or a thread could not be
    /// started.
    Stopped(Unrecorded),
    /// It did not begin.
    Refused(StartFault),
    /// The output failed.
    Unwritten,
}

impl NodeEnding {
    /// The exit status: 0 where the node was ended and its journal is whole, and else 1.
    pub fn status(self) -> u8
        ensures { result ≡ status_of self }
    {
        match self {
            NodeEnding::Ended { .. } => 0,
            NodeEnding::Stopped(_) | NodeEnding::Refused(_) | NodeEnding::Unwritten => 1,
        }
    }
}

/// Writes how many events the journal has.
fn put_events<W: Write>(out: &mut Counted<W>, events: usize) -> Result<(), TransportFailed>
    ensures written { OnOk result (Appends (W.contents out.old.inner) (W.contents out.new.inner) (journal_line events)) }
    ensures failed { OnErr result ((part : List ℕ) × Appends (W.contents out.old.inner) (W.contents out.new.inner) part) }
    ensures counted { out.new.failures ≡ count_after result out.old.failures }
{
    out.put_all(&[
        Piece::Words("journal "),
        Piece::Number(events as u64),
        Piece::Words(" events\n"),
    ])
}

/// Prints the last line of a node that ran, or could not be started.
fn print_end<W: Write>(events: Result<usize, Unrecorded>, out: &mut Counted<W>) -> NodeEnding
    ensures written { Closes events (W.contents out.old.inner) result (W.contents out.new.inner) }
    ensures counted { out.new.failures ≡ failures_after result out.old.failures }
{
    let (written, ending) = match events {
        Ok(events) => (put_events(out, events), NodeEnding::Ended { events }),
        Err(fault) => (
            put_line(out, fault.reason(), RefusalPlace::Untold),
            NodeEnding::Stopped(fault),
        ),
    };
    match written {
        Ok(()) => ending,
        Err(_) => NodeEnding::Unwritten,
    }
}

/// Prints the last line of a node whose threads were not started, or whose journal could not be begun.
fn close_unstarted<W: Write>(events: Result<usize, Unrecorded>, out: &mut Counted<W>) -> NodeEnding
    ensures written { (node : ℕ) (greeting : List ℕ) → IsWritten node greeting result (W.contents out.old.inner) (W.contents out.new.inner) }
    ensures journal { (node : ℕ) (first given file : Option (List ℕ)) → IsKept node first file events → IsJournal node first given file result }
    ensures begun { (fault : Fault) → result ≡ Refused fault → ⊥ }
    ensures counted { out.new.failures ≡ failures_after result out.old.failures }
{
    let fault = events.err().unwrap_or(Unrecorded::OutOfMemory);
    print_end(Err(fault), out)
}

/// Prints the last line of a run whose conversation ended so, and whose journal was written so.
pub fn close<W: Write>(
    talk: Talk,
    events: Result<usize, Unrecorded>,
    out: &mut Counted<W>,
) -> NodeEnding
    ensures written { (node : ℕ) (greeting : List ℕ) (before : Option (List ℕ)) → Talks node greeting before talk (W.contents out.old.inner) → IsWritten node greeting result before (W.contents out.new.inner) }
    ensures journal { (node : ℕ) (first given file : Option (List ℕ)) → IsKept node first file events → IsJournal node first given file result }
    ensures begun { (fault : Fault) → result ≡ Refused fault → ⊥ }
    ensures counted { (n : ℕ) → out.old.failures ≡ talk_count talk n → out.new.failures ≡ failures_after result n }
{
    match talk {
        Talk::Ended => print_end(events, out),
        Talk::Unstarted => close_unstarted(events, out),
        Talk::Unwritten => NodeEnding::Unwritten,
    }
}

/// Prints why a node does not begin.
pub fn print_refusal<W: Write>(fault: StartFault, out: &mut Counted<W>) -> NodeEnding
    ensures written { EndsRefused fault result (W.contents out.old.inner) (W.contents out.new.inner) }
    ensures counted { out.new.failures ≡ failures_after result out.old.failures }
{
    match put_line(out, fault.reason(), fault.place()) {
        Ok(()) => NodeEnding::Refused(fault),
        Err(_) => NodeEnding::Unwritten,
    }
}
