//! Why a command or an event is refused, and the reason and the place that are told of each.

ghost use Rattle.std.specs.Prelude.{◌≡◌};
ghost use Rattle.q_told.specs.Refusal as refusal;
ghost use Rattle.q_told.specs.Refusal.{refusal_of};
ghost use Rattle.q_told.specs.declared.refusal.Refusal.TheVariants.{Assembler, Bytes, Program, Records, Script, Fraction, Cluster, Journal, OutOfMemory};

use bq_asm::AsmFault;
use bq_check::CheckFault;
use bq_insn::DecodeFault;
use q_history::ClusterFault;
use q_outside::FileFault;
use q_replay::ReplayFault;
use q_script::{RecordsFault, ScriptFault};
use reasons::{Reason, passed_on};
use sc_members::BadFraction;
use std::alloc::AllocError;
use std::error::Error;
use std::fmt;

/// A refusal. Its text is the line that the program prints, without the line feed.
#[derive(Clone, Copy, Debug, PartialEq, Eq)]
pub enum Refusal {
    /// 87: a file could not be opened, read or written, or a text file is not UTF-8.
    FileFailed,
    /// The assembler refuses a text.
    Assembler(AsmFault),
    /// Bytes spell no program.
    Bytes(DecodeFault),
    /// The verifier or the checker refuses a program.
    Program(CheckFault),
    /// A list of records is not read.
    Records(RecordsFault),
    /// A script is not read.
    Script(ScriptFault),
    /// 45: a fraction of a cluster is not num / den with 1 <= num <= den <= 1,000.
    Fraction(BadFraction),
    /// A cluster refuses its founders, or an event.
    Cluster(ClusterFault),
    /// Bytes are no journal of a node.
    Journal(ReplayFault),
    /// 99: memory ran out.
    OutOfMemory,
}

/// A line of a script that was refused.
#[derive(Clone, Copy, Debug, PartialEq, Eq)]
pub struct RefusedLine {
    /// The line of the script's file, counted from 1: the founding line is 1.
    pub line: usize,
    /// The refusal that was printed.
    pub refusal: Refusal,
}

/// Where a refusal arose, as its line tells it.
#[derive(Clone, Copy)]
pub enum RefusalPlace {
    /// The line does not tell it.
    Untold,
    /// At this unit of a program, counted from 0.
    Unit(usize),
    /// At this event of a journal, counted from 1, whose head is event 0.
    Event(usize),
    /// On this line of a file, counted from 1.
    Line(usize),
}

impl fmt::Display for RefusalPlace {
    ghost use Rattle.std.specs.Prelude.{Some};
    ghost use Rattle.q_told.specs.Refusal.{place_text};

    ghost output = { λ place. Some (place_text place) };

    fn fmt<W: fmt::Write>(&self, f: &mut fmt::Formatter<W>) -> fmt::Result {
        match self {
            RefusalPlace::Untold => Ok(()),
            RefusalPlace::Unit(unit) => write!(f, " at {unit}"),
            RefusalPlace::Event(event) => write!(f, " at {event}"),
            RefusalPlace::Line(line) => write!(f, " line {line}"),
        }
    }
}

impl Refusal {
    /// The reason by which the refusal is told.
    pub fn reason(self) -> Reason
        ensures { result ≡ refusal.reason self }
    {
        match self {
            Refusal::FileFailed => Reason::FileFailed,
            Refusal::Assembler(fault) => fault.reason(),
            Refusal::Bytes(fault) => fault.reason(),
            Refusal::Program(fault) => fault.reason(),
            Refusal::Records(RecordsFault::Line { fault, .. }) => fault.reason(),
            Refusal::Script(fault) => fault.reason(),
            Refusal::Fraction(fault) => fault.reason(),
            Refusal::Cluster(reason) => reason,
            Refusal::Journal(fault) => fault.reason(),
            Refusal::Records(RecordsFault::OutOfMemory) | Refusal::OutOfMemory => {
                Reason::OutOfMemory
            }
        }
    }

    /// The unit of a program, the event of a journal or the line of a file at which the refusal arose, where it carries
    /// one.
    pub fn place(&self) -> RefusalPlace
        ensures { result ≡ refusal.place self.now }
    {
        match self {
            Refusal::Assembler(AsmFault::Syntax { line } | AsmFault::Label { line }) => {
                RefusalPlace::Line(*line)
            }
            Refusal::Bytes(DecodeFault::At { unit, .. }) => RefusalPlace::Unit(*unit),
            Refusal::Program(fault) => match fault.unit() {
                Some(unit) => RefusalPlace::Unit(unit),
                None => RefusalPlace::Untold,
            },
            Refusal::Records(RecordsFault::Line { line, .. }) => RefusalPlace::Line(*line),
            Refusal::Script(ScriptFault::Syntax { line }) => RefusalPlace::Line(*line),
            Refusal::Journal(fault) => match fault.event() {
                Some(event) => RefusalPlace::Event(event),
                None => RefusalPlace::Untold,
            },
            _ => RefusalPlace::Untold,
        }
    }
}

impl fmt::Display for Refusal {
    ghost use Rattle.std.specs.Prelude.{Some};
    ghost use Rattle.q_told.specs.Refusal.{text};

    ghost output = { λ refusal. Some (text refusal) };

    fn fmt<W: fmt::Write>(&self, f: &mut fmt::Formatter<W>) -> fmt::Result {
        let reason = self.reason();
        let place = self.place();
        write!(f, "refused {reason}{place}")
    }
}

impl Error for Refusal {}

impl From<AsmFault> for Refusal {
    ghost from_gives = { λ fault refusal. refusal ≡ Assembler fault };

    fn from(fault: AsmFault) -> Self {
        Refusal::Assembler(fault)
    }
}

impl From<DecodeFault> for Refusal {
    ghost from_gives = { λ fault refusal. refusal ≡ Bytes fault };

    fn from(fault: DecodeFault) -> Self {
        Refusal::Bytes(fault)
    }
}

impl From<CheckFault> for Refusal {
    ghost from_gives = { λ fault refusal. refusal ≡ Program fault };

    fn from(fault: CheckFault) -> Self {
        Refusal::Program(fault)
    }
}

impl From<RecordsFault> for Refusal {
    ghost from_gives = { λ fault refusal. refusal ≡ Records fault };

    fn from(fault: RecordsFault) -> Self {
        Refusal::Records(fault)
    }
}

impl From<ScriptFault> for Refusal {
    ghost from_gives = { λ fault refusal. refusal ≡ Script fault };

    fn from(fault: ScriptFault) -> Self {
        Refusal::Script(fault)
    }
}

impl From<BadFraction> for Refusal {
    ghost from_gives = { λ fault refusal. refusal ≡ Fraction fault };

    fn from(fault: BadFraction) -> Self {
        Refusal::Fraction(fault)
    }
}

impl From<ClusterFault> for Refusal {
    ghost from_gives = { λ fault refusal. refusal ≡ Cluster fault };

    fn from(fault: ClusterFault) -> Self {
        Refusal::Cluster(fault)
    }
}

impl From<ReplayFault> for Refusal {
    ghost from_gives = { λ fault refusal. refusal ≡ Journal fault };

    fn from(fault: ReplayFault) -> Self {
        Refusal::Journal(fault)
    }
}

impl From<AllocError> for Refusal {
    ghost from_gives = { λ _ refusal. refusal ≡ OutOfMemory };

    fn from(_error: AllocError) -> Self {
        Refusal::OutOfMemory
    }
}

impl From<FileFault> for Refusal {
    ghost from_gives = { λ fault refusal. refusal ≡ refusal_of fault };

    fn from(fault: FileFault) -> Self {
        passed_on!(fault, FileFault as Refusal: Failed => FileFailed, OutOfMemory)
    }
}
