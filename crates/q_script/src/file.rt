//! The file of a cluster.

ghost use Rattle.std.specs.Prelude.{◌≡◌, ◌↔◌, ◌==◌, ◌<◌, suc, not, filter, find, IfErr, IfOk, IsTrue, MatchOption, MatchResult, option_copied};
ghost use Rattle.std.specs.List.{All};
ghost use Rattle.sc_members.specs.Members.{most_facts};
ghost use Rattle.q_script.specs.declared.node_line.NodeLine.{NodeLine as Node};
ghost use Rattle.q_script.specs.NodeLine.{SpellsHeading, SpellsNode};
ghost use Rattle.q_script.specs.File.{AreApart, IsApart, IsFault, IsFaulty, IsListOf, IsListFault, IsNoHeading, IsNodeList, IsNodeFault, Spells, founder_ids};

use crate::fault::ClusterFileFault;
use crate::node_line::{Heading, NodeLine};
use crate::text::{cut, without_last_feed};
use sc_members::{Config, MOST_FACTS};
use sc_node::are_founders;
use std::alloc::{AllocError, Global};

/// What the file of a cluster says.
pub struct ClusterFile {
    /// The number of the run, which tells its datagrams from those of earlier runs.
    pub number: u64,
    /// The fractions.
    pub config: Config,
    /// The nodes in the order of their lines, 1 to 1,024; no two have one id or one address.
    pub nodes: Vec<NodeLine>,
}

impl Drop for ClusterFile {
    // By hand, so that it is proved here alone, and not in each crate that drops one.
    fn drop(self) {
        let ClusterFile {
            number: _,
            config: _,
            nodes: _,
        } = self;
    }
}

/// The heading of line 1.
fn heading(text: &str) -> Result<Heading, ClusterFileFault>
    ensures { MatchResult result (SpellsHeading text.now) (λ fault. (fault ≡ ClusterFileFault.Syntax 1) × IsNoHeading text.now) }
{
    match Heading::read(text) {
        Some(heading) => Ok(heading),
        None => Err(ClusterFileFault::Syntax { line: 1 }),
    }
}

/// The node of a line that has those of so many nodes before it: none where the line is faulty.
fn node_behind(nodes: usize, text: &str) -> Option<NodeLine>
    ensures { MatchOption result (IsFaulty (suc nodes) text.now) (λ node. SpellsNode text.now node × (nodes < most_facts)) }
{
    if nodes < MOST_FACTS {
        NodeLine::read(text)
    } else {
        None
    }
}

/// The nodes of these lines, of which the first is line 2 of a file.
fn read_nodes(alloc: Global, text: &str) -> Result<Vec<NodeLine>, ClusterFileFault>
    ensures read { IfOk result (λ nodes. IsNodeList text.now nodes.items) }
    ensures fault { IfErr result (IsNodeFault text.now) }
{
    let mut nodes = Vec::new(alloc);
    for part in text.split('\n') {
        let Some(node) = node_behind(nodes.len(), part) else {
            return Err(ClusterFileFault::Syntax {
                line: nodes.len() + 2,
            });
        };
        nodes.push(node)?;
    }
    Ok(nodes)
}

/// What the lines of a text spell. Refused are 9 and 99.
fn read_lines(alloc: Global, text: &str) -> Result<(Heading, Vec<NodeLine>), ClusterFileFault>
    ensures read { IfOk result (λ list. IsListOf text.now list.0 list.1.items) }
    ensures fault { IfErr result (IsListFault text.now) }
{
    let body = without_last_feed(text);
    let Some((first, rest)) = cut(body, '\n') else {
        let heading = heading(body)?;
        return Ok((heading, Vec::new(alloc)));
    };
    let heading = heading(first)?;
    let nodes = read_nodes(alloc, rest)?;
    Ok((heading, nodes))
}

/// The ids of the founders, in the order of their lines.
fn founder_ids(alloc: Global, nodes: &[NodeLine]) -> Result<Vec<u64>, AllocError>
    ensures { IfOk result (λ ids. ids.items ≡ founder_ids nodes.now) }
{
    nodes
        .iter()
        .filter(|node| node.is_founder)
        .map(|node| node.id)
        .collect(alloc)
}

/// Whether no two lines have one id or one address.
fn are_apart(nodes: &[NodeLine]) -> bool
    ensures { IsTrue result ↔ AreApart nodes.now }
{
    let mut rest = nodes;
    while let [first, behind @ ..] = rest {
        if !is_apart(first, behind) {
            return false;
        }
        rest = behind;
    }
    true
}

/// Whether none of these lines has the id or the address of a node.
fn is_apart(node: &NodeLine, others: &[NodeLine]) -> bool
    ensures { IsTrue result ↔ All (IsApart node.now) others.now }
{
    others.iter().all(|other| node.id != other.id && node.address != other.address)
}

/// The file that a text spells. Refused is, in this order: 9 Syntax with the least line of another form, or that of a
/// 1025th node; 45 BadFraction; 49 BadFounders, where there is no founder, there are more than 256, or their ids do not
/// rise from line to line; 44 IdUsed, where two lines have one id or one address. 99 may come in place of any answer.
pub fn read_cluster(alloc: Global, text: &str) -> Result<ClusterFile, ClusterFileFault>
    ensures read { IfOk result (Spells text.now) }
    ensures fault { IfErr result (IsFault text.now) }
{
    let (heading, nodes) = read_lines(alloc, text)?;
    let Heading {
        number,
        beta,
        gamma,
    } = heading;
    let Ok(config) = Config::new(beta, gamma) else {
        return Err(ClusterFileFault::BadFraction);
    };
    let founders = founder_ids(alloc, &nodes)?;
    if !are_founders(&founders) {
        return Err(ClusterFileFault::BadFounders);
    }
    if !are_apart(&nodes) {
        return Err(ClusterFileFault::IdUsed);
    }
    Ok(ClusterFile {
        number,
        config,
        nodes,
    })
}

impl ClusterFile {
    /// The ids of the founders, which rise: 1 to 256. Refused with 99 alone.
    pub fn founders(&self, alloc: Global) -> Result<Vec<u64>, AllocError>
        ensures { IfOk result (λ ids. ids.items ≡ founder_ids self.now.nodes.items) }
    {
        founder_ids(alloc, &self.nodes)
    }

    /// The line of the node with this id.
    pub fn node(&self, id: u64) -> Option<&NodeLine>
        ensures { option_copied result ≡ find (λ (node : Node). node.id == id) self.now.nodes.items }
    {
        self.nodes.iter().find(|node| node.id == id)
    }

    /// The lines of all nodes but that with this id, in their order. Refused with 99 alone.
    pub fn others(&self, alloc: Global, id: u64) -> Result<Vec<NodeLine>, AllocError>
        ensures { IfOk result (λ others. others.items ≡ filter (λ (node : Node). not (node.id == id)) self.now.nodes.items) }
    {
        self.nodes
            .iter()
            .filter(|node| node.id != id)
            .copied()
            .collect(alloc)
    }
}
