//! What is true of everything that a script prints.

ghost use Rattle.std.specs.Prelude.{ℕ, List, Bool};
ghost use Rattle.q_script.specs.declared.script.Script.{Script};
ghost use Rattle.q_sim.specs.Simulates.{Simulates};
ghost use Rattle.q_sim.specs.Truths.{AreTrueLines};

use q_history::laws::answers_stay;
use q_outside::Files;

/// A law: whatever script is run over whatever files, each `run` line prints an answer that the last cluster has
/// recorded for this node's query, and that is true; or its refusal, and then it is told that a line was refused. The
/// answer is the meaning of the program that the query names, which the checker accepts, from the query's start, over
/// the view that the query's own collect returned; and that view holds each store that ended before the collect began
/// and that meets it.
pub fn every_printed_answer_is_true<F: Files>()
    ensures { (script : Script) (before after : F) (text : List ℕ) (unsaved refused : Bool) (s : Simulates F.write_gives script before text unsaved refused after) → AreTrueLines s.last.cluster refused script.lines.items text }
{
    answers_stay();
}
