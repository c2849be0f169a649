//! Worked values of what the command `node` does.

ghost use Rattle.std.specs.Prelude.{ℕ, List, Option};
ghost use Rattle.q_script.specs.File.{IsFault};
ghost use Rattle.q_script.specs.declared.fault.ClusterFileFault.TheVariants as cluster_fault;
ghost use Rattle.q_node.specs.declared.ending.NodeEnding.TheVariants as ending;
ghost use Rattle.q_node.specs.declared.fault.StartFault.TheVariants as fault;
ghost use Rattle.q_node.specs.Files.{RunsText};

/// A text with a faulty line is not told as a file that is not read.
pub fn worked()
    ensures faulty { (source : List ℕ) (id line : ℕ) (before after : Option (List ℕ))
        → IsFault source (cluster_fault.Syntax line)
        → RunsText source id (ending.Refused fault.FileFailed) before after → ⊥ }
{}
