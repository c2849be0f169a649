//! What a command answers.

use q_sim::Printed;

/// What a command answers.
#[derive(Drop)]
pub(crate) struct Answer {
    /// What it prints.
    pub printed: Printed,
    /// The bytes of the script that it ran; none where it ran none.
    pub source: Vec<u8>,
}
