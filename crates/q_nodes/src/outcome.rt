//! What the call of a line came to.

use crate::fault::ClusterRunFault;
use q_table::ProgramId;

/// What the call of a line came to, as the book of its node answered it. What a line tells of it is a
/// [`Report`](crate::Report).
#[derive(Clone, Copy)]
pub enum Outcome {
    /// It was refused; or the bytes of the line are no program, and no call was made.
    Refused(ClusterRunFault),
    /// The program is registered under this id.
    Registered(ProgramId),
    /// A store was begun under this tag.
    Stored(u64),
    /// The query of this number was begun.
    Asked(usize),
}
