//! Why a text with notes is refused, and why bytes are no notes or notes have no bytes, and the reason that is told of
//! each.

ghost use Rattle.std.specs.Prelude.{◌≡◌};
ghost use Rattle.bq_check.specs.Reasons.{reason, fault_unit, notes_reason, flow_refusal};
ghost use Rattle.bq_check.specs.declared.fault.NotesFault.TheVariants.{OutOfMemory};

use bq_flow::{FlowFault, FlowRule};
use bq_state::Rule;
use reasons::{Reason, told};
use std::alloc::{AllocError, AllocFailed};

/// Why a text with notes is refused: the first fault, in the order in which they stand here.
#[derive(Clone, Copy, Debug, PartialEq, Eq)]
pub enum CheckFault {
    /// 21: not one note for each unit.
    WrongCount,
    /// 11 to 14: the text's flow is not legal.
    Flow {
        /// The unit where the instruction begins, counted from 0.
        unit: usize,
        /// The first rule of the flow that it breaks.
        rule: FlowRule,
    },
    /// 31: a second half of a wide instruction has a state; or records have one length alone, and a state is for other
    /// lengths or knows a register as the record's length.
    NoteForm {
        /// Its unit, counted from 0.
        unit: usize,
    },
    /// 22: the note at the first unit does not cover the entry.
    Entry,
    /// 23 to 28 and 30: an instruction breaks a rule.
    Rule {
        /// The unit where it begins, counted from 0.
        unit: usize,
        /// The first rule that it breaks.
        rule: Rule,
    },
    /// 29: the state at a feasible successor does not cover what the instruction leaves.
    NotCovered {
        /// The unit where the instruction begins, counted from 0.
        unit: usize,
    },
    /// 99: memory ran out. It may stand in place of any other answer.
    OutOfMemory,
}

impl CheckFault {
    /// The reason by which the fault is told: 11 to 14, 21 to 31 or 99.
    pub fn reason(self) -> Reason
        ensures { result ≡ reason self }
    {
        told!(self, CheckFault: WrongCount, Flow { rule, .. }, NoteForm { .. }, Entry, Rule { rule, .. }, NotCovered { .. }, OutOfMemory)
    }

    /// The unit where the fault is, counted from 0; none of 21, 22 and 99.
    pub fn unit(&self) -> Option<usize>
        ensures { result ≡ fault_unit self.now }
    {
        match self {
            CheckFault::WrongCount | CheckFault::Entry | CheckFault::OutOfMemory => None,
            CheckFault::Flow { unit, .. }
            | CheckFault::NoteForm { unit }
            | CheckFault::Rule { unit, .. }
            | CheckFault::NotCovered { unit } => Some(*unit),
        }
    }
}

impl From<FlowFault> for CheckFault {
    ghost from_gives = { λ fault e. e ≡ flow_refusal fault };

    fn from(fault: FlowFault) -> Self {
        match fault {
            FlowFault::At { unit, rule } => CheckFault::Flow { unit, rule },
            FlowFault::OutOfMemory => CheckFault::OutOfMemory,
        }
    }
}

/// Why bytes are not read as notes, and why notes have no bytes in the first form.
#[derive(Clone, Copy, Debug, PartialEq, Eq)]
pub enum NotesFault {
    /// 31: the bytes spell no notes; or a state is not for records of 64 bytes alone.
    NoteForm,
    /// 99: memory ran out. It may stand in place of the other answer.
    OutOfMemory,
}

impl NotesFault {
    /// The reason by which the fault is told, 31 or 99.
    pub fn reason(self) -> Reason
        ensures { result ≡ notes_reason self }
    {
        told!(self, NotesFault: NoteForm, OutOfMemory)
    }
}

impl From<AllocError> for NotesFault {
    ghost from_gives = { λ _ e. e ≡ OutOfMemory };

    fn from(_error: AllocError) -> Self {
        NotesFault::OutOfMemory
    }
}

impl<T: Drop> From<AllocFailed<T>> for NotesFault {
    ghost from_gives = { λ _ e. e ≡ OutOfMemory };

    fn from(_error: AllocFailed<T>) -> Self {
        NotesFault::OutOfMemory
    }
}
