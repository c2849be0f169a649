//! The commands of lines: the word of each, and its operands.

ghost use Rattle.std.specs.Prelude.{◌≡◌, ◌≢◌, MatchOption, find};
ghost use Rattle.std.specs.Str.{bytes_eq};
ghost use Rattle.q_script.specs.declared.command.Command.{Command as Word};
ghost use Rattle.q_script.specs.Line.{HasOperands, Judges, name};

use crate::line::{LineFault, ScriptLine};
use crate::operands::{ask, deliver, journal, one, program, store};
use std::alloc::Global;

/// What the first word of a line tells to do.
#[derive(Clone, Copy)]
pub enum Command {
    /// A program is registered at a node.
    Program,
    /// A node stores a value.
    Store,
    /// A query is asked.
    Ask,
    /// A message is delivered to a node.
    Deliver,
    /// What is not yet delivered is delivered, so many times at most.
    All,
    /// A node hands out a job.
    Hand,
    /// A job is run, and its answer recorded.
    Run,
    /// A node enters.
    Enter,
    /// A node leaves.
    Leave,
    /// A node stops, and tells nobody.
    Crash,
    /// Each pair of a store and a later collect is told.
    Pairs,
    /// A node's journal is written.
    Journal,
}

/// Every command.
static COMMANDS: [Command; 12] = [
    Command::Program,
    Command::Store,
    Command::Ask,
    Command::Deliver,
    Command::All,
    Command::Hand,
    Command::Run,
    Command::Enter,
    Command::Leave,
    Command::Crash,
    Command::Pairs,
    Command::Journal,
];

/// The word of each command, in the order of these.
static WORDS: [&str; 12] = [
    "program", "store", "ask", "deliver", "all", "hand", "run", "enter", "leave", "crash", "pairs",
    "journal",
];

impl Command {
    /// The word of a command.
    pub fn name(self) -> &'static str
        ensures { result.now ≡ name self }
    {
        WORDS[self as usize]
    }

    /// The command with this word, where there is one.
    pub fn read(word: &str) -> Option<Command>
        ensures { MatchOption result ((c : Word) → word.now ≢ name c) (λ c. word.now ≡ name c) }
    {
        find(&COMMANDS, word)
    }

    /// The event of this command with the operands that a text spells.
    pub fn operands(self, alloc: Global, text: &str) -> Result<ScriptLine, LineFault>
        ensures { Judges (HasOperands self) text.now result }
    {
        match self {
            Command::Program => program(alloc, text),
            Command::Store => store(alloc, text),
            Command::Ask => ask(text),
            Command::Deliver => deliver(text),
            Command::All => Ok(ScriptLine::All { limit: one(text)? }),
            Command::Hand => Ok(ScriptLine::Hand { node: one(text)? }),
            Command::Run => Ok(ScriptLine::Run { job: one(text)? }),
            Command::Enter => Ok(ScriptLine::Enter { node: one(text)? }),
            Command::Leave => Ok(ScriptLine::Leave { node: one(text)? }),
            Command::Crash => Ok(ScriptLine::Crash { node: one(text)? }),
            Command::Pairs => Err(LineFault::Form),
            Command::Journal => journal(alloc, text),
        }
    }
}

/// The one of these commands that has this word.
fn find(commands: &[Command], word: &str) -> Option<Command>
    ensures { result ≡ find (λ c. bytes_eq (name c) word.now) commands.now }
{
    for command in commands {
        if command.name() == word {
            return Some(*command);
        }
    }
    None
}
