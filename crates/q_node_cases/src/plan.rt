//! What a case begins with.

use q_script::number;
use std::alloc::{AllocError, Global};

/// How many bytes the file of a journal takes that nothing limits.
pub const ROOM: usize = 1_000_000;

/// What a node of a case is run with.
#[derive(Drop)]
pub struct Part {
    /// How many bytes the file of its journal takes.
    pub room: usize,
    /// The call of that file that fails; 0 where none does.
    pub call: u64,
    /// The write of its output that fails; 0 where none does.
    pub write: u64,
    /// How many runners it has.
    pub runners: usize,
    /// By which letters its datagrams are disturbed.
    pub letters: Vec<u8>,
    /// Where its clients come in.
    pub door: String,
    /// The path of its console's socket, if it has one.
    pub console: Option<String>,
}

/// The cluster of a case.
#[derive(Drop)]
pub struct Plan {
    /// The first line of its file.
    pub heading: String,
    /// How many of its nodes are founders.
    pub founders: u64,
    /// Its nodes, which are counted from 1.
    pub parts: Vec<Part>,
}

/// The number that begins a text, or 0, and what stands behind the space after it.
pub fn first(words: &str) -> (u64, &str) {
    let (word, rest) = words.split_once(' ').unwrap_or((words, ""));
    (number(word).unwrap_or(0), rest)
}

/// A node that nothing disturbs.
fn plain(alloc: Global) -> Result<Part, AllocError> {
    Ok(Part {
        room: ROOM,
        call: 0,
        write: 0,
        runners: 2,
        letters: Vec::new(alloc),
        door: String::from_str(alloc, "127.0.0.1:0")?,
        console: None,
    })
}

impl Part {
    /// Changes one of these by its name.
    fn set(&mut self, alloc: Global, name: &str, value: &str) -> Result<(), AllocError> {
        let count = number(value).unwrap_or(0);
        match name {
            "room" => self.room = count as usize,
            "call" => self.call = count,
            "write" => self.write = count,
            "runners" => self.runners = count as usize,
            "letters" => self.letters = Vec::from_slice(alloc, value.as_bytes())?,
            "console" => self.console = Some(String::from_str(alloc, value)?),
            _ => self.door = String::from_str(alloc, value)?,
        }
        Ok(())
    }
}

impl Plan {
    /// No nodes.
    fn new(alloc: Global) -> Plan {
        Plan {
            heading: String::new(alloc),
            founders: 0,
            parts: Vec::new(alloc),
        }
    }

    /// A cluster of founders and nodes, this many of each.
    fn found(&mut self, alloc: Global, words: &str) -> Result<(), AllocError> {
        let (founders, rest) = first(words);
        let (nodes, heading) = first(rest);
        self.heading = String::from_str(alloc, heading)?;
        self.founders = founders;
        for _ in 0..nodes {
            self.parts.push(plain(alloc)?)?;
        }
        Ok(())
    }

    /// Changes something of a node.
    fn set(&mut self, alloc: Global, words: &str) -> Result<(), AllocError> {
        let (id, rest) = first(words);
        let (name, value) = rest.split_once(' ').unwrap_or((rest, ""));
        if let Some(part) = self.parts.get_mut((id as usize).wrapping_sub(1)) {
            part.set(alloc, name, value)?;
        }
        Ok(())
    }

    /// What these lines say.
    pub fn read(alloc: Global, lines: &[String]) -> Result<Plan, AllocError> {
        let mut plan = Plan::new(alloc);
        for line in lines {
            let (word, rest) = line.split_once(' ').unwrap_or((line.as_str(), ""));
            match word {
                "cluster" => plan.found(alloc, rest)?,
                "node" => plan.set(alloc, rest)?,
                _ => {}
            }
        }
        Ok(plan)
    }
}
