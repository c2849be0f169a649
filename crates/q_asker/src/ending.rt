//! How a run ends.

ghost use Rattle.std.specs.Prelude.{◌≡◌};
ghost use Rattle.q_asker.specs.Runs.{IsRefusedAlone, failures_after, status_of};

use q_outside::Counted;
use q_told::{Refusal, put_refusal};
use std::io::Write;

/// How a run ended.
#[derive(Clone, Copy)]
pub enum ClientEnding {
    /// All lines were done.
    Done {
        /// No line was refused or is unanswered.
        clean: bool,
    },
    /// The script is refused, and this was printed alone.
    Refused(Refusal),
    /// There was no connection with the node, or it failed: 86 was printed last.
    Lost,
    /// The output failed.
    Unwritten,
}

impl ClientEnding {
    /// The exit status. A strict run wants that no line was refused or is unanswered.
    pub fn status(self, strict: bool) -> u8
        ensures { result ≡ status_of strict self }
    {
        match self {
            ClientEnding::Done { clean } if clean || !strict => 0,
            ClientEnding::Done { .. }
            | ClientEnding::Refused(_)
            | ClientEnding::Lost
            | ClientEnding::Unwritten => 1,
        }
    }
}

/// Prints the refusal of a script, with which a run ends.
pub fn print_refusal<O: Write>(refusal: Refusal, out: &mut Counted<O>) -> ClientEnding
    ensures written { IsRefusedAlone refusal result (O.contents out.old.inner) (O.contents out.new.inner) }
    ensures counted { out.new.failures ≡ failures_after result out.old.failures }
{
    match put_refusal(out, &refusal) {
        Ok(()) => ClientEnding::Refused(refusal),
        Err(_) => ClientEnding::Unwritten,
    }
}
