//! What is true of every run that ended well.

ghost use Rattle.std.specs.Prelude.{ℕ, List, Option};
ghost use Rattle.q_nodes.specs.Headline.{AnswersAreTrue};
ghost use Rattle.q_nodes.specs.Runs.{IsWritten};
ghost use Rattle.q_nodes.specs.declared.report.Tally.{Tally as Counts};
ghost use Rattle.q_nodes.specs.declared.ending.ClusterEnding.TheVariants as ending;
ghost use Rattle.q_nodes.specs.declared.script.ClusterScript.{ClusterScript as Script};

use q_history::laws::every_answer_is_true;

/// A law: of a run that ended with a gathered cluster, whatever the threads did and the network lost, repeated and
/// reordered, each printed answer is right. There is one cluster, which is a history of the script's nodes, and into
/// which books of these nodes gather, one of each, each the replay of its journal. Each answer that is printed of an
/// `ask` line is recorded in it for the query of that number at that node, which names the line's program and start;
/// and it is the meaning of that program, folded from that start over the records of the view that the query's own
/// collect returned. That view holds each store that ended before the collect began and that meets it.
pub fn every_printed_answer_is_true()
    ensures { (script : Script) (tally : Counts) (before after : Option (List ℕ)) → IsWritten script (ending.Gathered tally) before after → AnswersAreTrue script before after }
{
    every_answer_is_true();
}
