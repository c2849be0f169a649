//! How a run ends, and what it prints then.

ghost use Rattle.std.specs.Prelude.{◌≡◌, string_bytes};
ghost use Rattle.q_nodes.specs.Runs.{IsRefusedAlone, IsTellingOfNodes, IsUntold, IsWritten, failures_after, status_of};

use crate::fault::ClusterRunFault;
use crate::report::Tally;
use crate::script::ClusterScript;
use crate::telling::Telling;
use q_outside::Counted;
use q_told::put_line;
use std::io::Write;

/// How a run ended.
#[derive(Clone, Copy)]
pub enum ClusterEnding {
    /// The books of the nodes gather into a cluster of the script, and what the lines tell of it was printed: so many
    /// of them were refused or are unanswered.
    Gathered(Tally),
    /// This refusal was printed last: behind what the lines tell where the nodes make no cluster of the script, and
    /// else alone.
    Refused(ClusterRunFault),
    /// The writer failed.
    Unwritten,
}

impl ClusterEnding {
    /// The exit status. A strict run wants that no line was refused or is unanswered.
    pub fn status(self, strict: bool) -> u8
        ensures { result ≡ status_of strict self }
    {
        match self {
            ClusterEnding::Gathered(tally) if !strict || tally.is_clean() => 0,
            ClusterEnding::Gathered(_) | ClusterEnding::Refused(_) | ClusterEnding::Unwritten => 1,
        }
    }
}

/// Prints a refusal, with which a run ends.
pub fn print_refusal<W: Write>(fault: ClusterRunFault, out: &mut Counted<W>) -> ClusterEnding
    ensures written { IsRefusedAlone fault result (W.contents out.old.inner) (W.contents out.new.inner) }
    ensures counted { out.new.failures ≡ failures_after result out.old.failures }
{
    match put_line(out, fault.reason(), fault.place()) {
        Ok(()) => ClusterEnding::Refused(fault),
        Err(_) => ClusterEnding::Unwritten,
    }
}

/// Prints a refusal where no line is told.
pub fn print_untold<W: Write>(
    script: &ClusterScript,
    fault: ClusterRunFault,
    out: &mut Counted<W>,
) -> ClusterEnding
    requires { IsUntold script.now.nodes fault }
    ensures written { IsWritten script.now result (W.contents out.old.inner) (W.contents out.new.inner) }
    ensures counted { out.new.failures ≡ failures_after result out.old.failures }
{
    print_refusal(fault, out)
}

/// Prints what the lines of a script tell, and then the refusal of nodes that make no cluster of the script.
pub fn print_telling<W: Write>(
    script: &ClusterScript,
    telling: &Telling,
    out: &mut Counted<W>,
) -> ClusterEnding
    requires { IsTellingOfNodes script.now telling.now.tally telling.now.refusal (string_bytes telling.now.text) }
    ensures written { IsWritten script.now result (W.contents out.old.inner) (W.contents out.new.inner) }
    ensures counted { out.new.failures ≡ failures_after result out.old.failures }
{
    match out.put(telling.text.as_bytes()) {
        Ok(()) => match telling.refusal {
            None => ClusterEnding::Gathered(telling.tally),
            Some(fault) => print_refusal(fault, out),
        },
        Err(_) => ClusterEnding::Unwritten,
    }
}
