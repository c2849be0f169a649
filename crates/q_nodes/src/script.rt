//! The scripts of nodes in threads.

ghost use Rattle.std.specs.Prelude.{◌≡◌, IfOk, IfErr, MatchBool, MatchResult};
ghost use Rattle.q_nodes.specs.Lines.{IsNode};
ghost use Rattle.q_nodes.specs.Scripts.{Fits, IsClusterScript, IsRefused, IsUnfit};

use crate::fault::ClusterRunFault;
use q_script::{CallLine, Founding, read_script};
use q_told::Refusal;
use sc_members::Config;
use std::alloc::Global;

/// The most nodes that run in threads.
pub const MOST_NODES: u64 = 16;

/// A script that nodes in threads run.
#[derive(Drop)]
pub struct ClusterScript {
    /// The fractions of the cluster.
    pub config: Config,
    /// The nodes are 1 to this number, which is 1 to 16.
    pub nodes: u64,
    /// The lines, of which the first stands on line 2.
    pub lines: Vec<CallLine>,
}

/// Whether there is such a node among so many, which are counted from 1.
pub fn is_node(nodes: u64, node: u64) -> bool
    ensures { MatchBool result (IsNode nodes node) (¬ (IsNode nodes node)) }
{
    1 <= node && node <= nodes
}

/// The script of a founding and of these lines. Refused are 45, 62 and 49, in this order.
fn fitting(founding: Founding, lines: Vec<CallLine>) -> Result<ClusterScript, ClusterRunFault>
    ensures { MatchResult result (λ script. Fits founding script × (script.lines ≡ lines)) (IsUnfit founding) }
{
    let config = match Config::new(founding.beta, founding.gamma) {
        Ok(config) => config,
        Err(fault) => return Err(ClusterRunFault::Script(Refusal::Fraction(fault))),
    };
    if founding.count > MOST_NODES {
        return Err(ClusterRunFault::BadCount);
    }
    if founding.count == 0 {
        return Err(ClusterRunFault::bad_founders());
    }
    Ok(ClusterScript {
        config,
        nodes: founding.count,
        lines,
    })
}

impl ClusterScript {
    /// The script that a text spells. Refused are 9 Syntax, with the least line of another form or of another kind, and
    /// then 45 BadFraction, 62 BadCount for more than 16 nodes, 49 BadFounders for none, in this order; or 99.
    pub fn read(alloc: Global, source: &str) -> Result<ClusterScript, ClusterRunFault>
        ensures read { IfOk result (IsClusterScript source.now) }
        ensures fault { IfErr result (IsRefused source.now) }
    {
        match read_script(alloc, source) {
            Ok((founding, lines)) => fitting(founding, lines),
            Err(fault) => Err(ClusterRunFault::Script(Refusal::Script(fault))),
        }
    }
}
