//! The lines of a script behind its first.

ghost use Rattle.std.specs.Prelude.{◌≡◌, ℕ, List};
ghost use Rattle.q_script.specs.Line.{IsAlone, Judges};

use crate::call_line::CallLine;
use crate::command::Command;
use crate::text::cut;
use std::alloc::Global;

/// An event of a script.
#[derive(Drop)]
pub enum ScriptLine {
    /// `program`, `store` or `ask`: the line calls a node.
    Call(CallLine),
    /// `deliver M NODE`: deliver a message to a node.
    Deliver {
        /// The message's number.
        message: u64,
        /// The node.
        node: u64,
    },
    /// `all LIMIT`: deliver what is not yet delivered, so many times at most.
    All {
        /// The most deliveries.
        limit: u64,
    },
    /// `hand NODE`: hand out a job of a node.
    Hand {
        /// The node.
        node: u64,
    },
    /// `run J`: run a job that was handed out.
    Run {
        /// The job's number.
        job: u64,
    },
    /// `enter ID`: a node comes.
    Enter {
        /// The node.
        node: u64,
    },
    /// `leave ID`: a node leaves.
    Leave {
        /// The node.
        node: u64,
    },
    /// `crash ID`: a node crashes.
    Crash {
        /// The node.
        node: u64,
    },
    /// `pairs`: tell of each collect whether it met the stores that ended before it.
    Pairs,
    /// `journal NODE FILE`: write the journal of a node into a file.
    Journal {
        /// The node.
        node: u64,
        /// The file's name, a word without spaces.
        file: String,
    },
}

/// Why a line is not read.
#[derive(Clone, Copy)]
pub enum LineFault {
    /// The line is of another form.
    Form,
    /// Memory ran out.
    OutOfMemory,
}

/// A line of a script behind its first.
pub trait Line: Drop {
    // The text spells the line.
    ghost spells: { List ℕ → Self → Type 0 };

    /// The line that a text spells.
    fn read(alloc: Global, text: &str) -> Result<Self, LineFault>
        ensures { Judges spells text.now result };
}

impl Line for ScriptLine {
    ghost use Rattle.q_script.specs.Line.{Spells};

    ghost spells = { Spells };

    fn read(alloc: Global, text: &str) -> Result<ScriptLine, LineFault> {
        let Some((word, rest)) = cut(text, ' ') else {
            return alone(text);
        };
        let Some(command) = Command::read(word) else {
            return Err(LineFault::Form);
        };
        command.operands(alloc, rest)
    }
}

/// The event of a command that is its word alone.
fn alone(text: &str) -> Result<ScriptLine, LineFault>
    ensures { Judges IsAlone text.now result }
{
    if text == Command::Pairs.name() {
        Ok(ScriptLine::Pairs)
    } else {
        Err(LineFault::Form)
    }
}
