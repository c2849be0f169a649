//! What a step comes to.

use std::fmt;

/// What a step comes to.
#[derive(Clone, Copy)]
pub enum StepOutcome {
    /// It was done.
    Done,
    /// It was tried, and was not done.
    Failed,
    /// There was nothing to do, or there is no such place, runner or memory.
    Nothing,
    /// So many jobs or results.
    Count(u64),
    /// The job or the result of this query.
    Query(usize),
    /// It was refused with this number.
    Refused(u8),
    /// It was refused with this number, and the job of this query came back.
    Back(u8, usize),
}

impl StepOutcome {
    /// Done where this is so, else failed.
    pub fn of(is_done: bool) -> StepOutcome {
        if is_done {
            StepOutcome::Done
        } else {
            StepOutcome::Failed
        }
    }
}

impl fmt::Display for StepOutcome {
    fn fmt<W: fmt::Write>(&self, f: &mut fmt::Formatter<W>) -> fmt::Result {
        match *self {
            StepOutcome::Done => f.write_str("done"),
            StepOutcome::Failed => f.write_str("failed"),
            StepOutcome::Nothing => f.write_str("nothing"),
            StepOutcome::Count(count) => write!(f, "{count}"),
            StepOutcome::Query(query) => write!(f, "query {query}"),
            StepOutcome::Refused(reason) => write!(f, "refused {reason}"),
            StepOutcome::Back(reason, query) => write!(
                f,
                "refused {reason}, query {query} came back"
            ),
        }
    }
}
