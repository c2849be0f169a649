//! How gathering files ends.

ghost use Rattle.std.specs.Prelude.{◌≡◌};
ghost use Rattle.q_command.specs.JournalFiles.{status_of};

use q_told::Refusal;

/// How gathering files ended.
#[derive(Clone, Copy)]
pub enum GatherEnding {
    /// The journals gather, and what they tell was written.
    Gathered,
    /// This refusal was written.
    Refused(Refusal),
    /// The writer failed.
    Unwritten,
}

impl GatherEnding {
    /// The exit status: 0 where the journals gather and all was written, and else 1.
    pub fn status(self) -> u8
        ensures { result ≡ status_of self }
    {
        match self {
            GatherEnding::Gathered => 0,
            GatherEnding::Refused(_) | GatherEnding::Unwritten => 1,
        }
    }
}
