//! What a slot holds.

use q_session::{Done, Job};

/// What a slot of the board holds.
#[derive(Drop)]
pub enum Content {
    /// Nothing.
    Vacant,
    /// A job that waits for a runner.
    Offered(Job),
    /// A result that waits for its asker.
    Finished(Done),
}
