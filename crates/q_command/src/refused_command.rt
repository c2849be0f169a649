//! A command that was refused.

use q_told::Refusal;

/// Why a command was refused, and what was read of the file that it was refused for.
#[derive(Drop)]
pub struct RefusedCommand<'a> {
    /// Why.
    pub refusal: Refusal,
    /// The name of the file.
    pub file: &'a str,
    /// The file's bytes, as they were read; none where the file was not read.
    pub bytes: Vec<u8>,
}
