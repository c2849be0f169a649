//! Forms of a view: what the calls of each mean, by the map alone.
ghost use Rattle.std.specs.Prelude.{◌≡◌, ℕ, ◌≤◌, ◌<◌, ◌↔◌, IfOk, OnOk, OnErr, IsErrOf};
ghost use Rattle.std.specs.FinMap as fin;
ghost use Rattle.sc_view.specs.Views.{ViewMap, put, merge, most_entries};
ghost use Rattle.sc_view.specs.Forms.{Runs, Answers};

use crate::view::{Stored, View, ViewFault};
use std::alloc::{AllocError, Global};

/// A form of a view, whose meaning is a map.
pub trait ViewForm {
    /// The map.
    ghost map: { Self → ViewMap };

    /// What is known of the node.
    fn value(&self, id: u64) -> Option<Stored>
        ensures { result ≡ fin.get (map self.now) id };

    /// Learns one value.
    fn learn(&mut self, id: u64, stored: Stored) -> Result<(), ViewFault>
        ensures ok { OnOk result (map self.new ≡ put (map self.old) id stored) }
        ensures full { IsErrOf result ViewFault.Full ↔ (most_entries < fin.len (put (map self.old) id stored)) }
        ensures err { OnErr result (map self.new ≡ map self.old) };

    /// Learns all that the other has.
    fn join(&mut self, other: &Self) -> Result<(), ViewFault>
        ensures ok { OnOk result (map self.new ≡ merge (map self.old) (map other.now)) }
        ensures full { IsErrOf result ViewFault.Full ↔ (most_entries < fin.len (merge (map self.old) (map other.now))) }
        ensures err { OnErr result (map self.new ≡ map self.old) };
}

impl ViewForm for View {
    ghost map = { λ v. v };

    fn value(&self, id: u64) -> Option<Stored> {
        self.get(id)
    }

    fn learn(&mut self, id: u64, stored: Stored) -> Result<(), ViewFault> {
        self.put(id, stored)
    }

    fn join(&mut self, other: &View) -> Result<(), ViewFault> {
        self.merge(other)
    }
}

/// A call of a view.
#[derive(Clone, Copy, Debug, PartialEq)]
pub enum Command {
    /// What is known of the node?
    Get(u64),
    /// Learn one value.
    Put(u64, Stored),
    /// Learn all that the other view has.
    Merge,
}

/// What a view answers.
#[derive(Clone, Copy, Debug, PartialEq)]
pub enum Reply {
    /// What is known of the node.
    Known(Option<Stored>),
    /// What a put or a merge answered.
    Learned(Result<(), ViewFault>),
}

/// Carries out one command.
pub fn step<V: ViewForm>(view: &mut V, other: &V, command: Command) -> Reply
    ensures { Answers (V.map view.old) (V.map other.now) command result (V.map view.new) }
{
    match command {
        Command::Get(id) => Reply::Known(view.value(id)),
        Command::Put(id, stored) => Reply::Learned(view.learn(id, stored)),
        Command::Merge => Reply::Learned(view.join(other)),
    }
}

/// Carries out commands in turn. The replies are those of a map. The one error is that there was no memory for them,
/// and then no command was carried out.
pub fn run<V: ViewForm>(
    alloc: Global,
    view: &mut V,
    other: &V,
    commands: &[Command],
) -> Result<Vec<Reply>, AllocError>
    ensures ok { IfOk result (λ replies. Runs (V.map view.old) (V.map other.now) commands.now replies.items (V.map view.new)) }
    ensures err { OnErr result (V.map view.new ≡ V.map view.old) }
{
    let mut replies = Vec::with_capacity(alloc, commands.len())?;
    for command in commands {
        replies.push_reserved(step(view, other, *command));
    }
    Ok(replies)
}
