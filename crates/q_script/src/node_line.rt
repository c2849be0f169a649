//! The lines of the file of a cluster.

ghost use Rattle.std.specs.Prelude.{◌≡◌};
ghost use Rattle.q_script.specs.Words.{Reads};
ghost use Rattle.q_script.specs.NodeLine.{IsNodeWord, SpellsHeading, SpellsNode};

use crate::founding::first_line;
use crate::numeral::leading;
use crate::text::cut;
use sc_members::Fraction;
use std::net::SocketAddr;

/// The first line of a file.
#[derive(Clone, Copy)]
pub struct Heading {
    /// The number of the run, which tells it from earlier runs.
    pub number: u64,
    /// The fraction for the phases of operations.
    pub beta: Fraction,
    /// The fraction for joining.
    pub gamma: Fraction,
}

/// A node, as its line has it.
#[derive(Clone, Copy)]
pub struct NodeLine {
    /// The id of the node.
    pub id: u64,
    /// Whether it is a founder of the cluster; another node enters it later.
    pub is_founder: bool,
    /// Where its socket is.
    pub address: SocketAddr,
}

impl Heading {
    /// What a line as `cluster 7310582 2/3 2/3` spells, with beta before gamma. Whether the fractions are good is not
    /// judged here.
    pub fn read(text: &str) -> Option<Heading>
        ensures { Reads SpellsHeading text.now result }
    {
        let (number, beta, gamma) = first_line(text, "cluster")?;
        Some(Heading {
            number,
            beta,
            gamma,
        })
    }
}

/// Whether a node's line that begins with this word is a founder's.
fn is_founders(word: &str) -> Option<bool>
    ensures { Reads IsNodeWord word.now result }
{
    match word {
        "founder" => Some(true),
        "node" => Some(false),
        _ => None,
    }
}

impl NodeLine {
    /// What a line as `founder 1 10.88.0.1:7000` or `node 4 10.88.0.4:7000` spells. A line whose port is 0 spells no
    /// node: no datagram can be sent there.
    pub fn read(text: &str) -> Option<NodeLine>
        ensures { Reads SpellsNode text.now result }
    {
        let (word, rest) = cut(text, ' ')?;
        let is_founder = is_founders(word)?;
        let (id, address) = leading(rest, ' ')?;
        let address: SocketAddr = address.parse().ok()?;
        if address.port() == 0 {
            return None;
        }
        Some(NodeLine {
            id,
            is_founder,
            address,
        })
    }
}
