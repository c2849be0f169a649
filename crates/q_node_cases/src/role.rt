//! A node of a case, run in a thread of its own.

ghost use Rattle.std.specs.Prelude.{◌≡◌, IfOk};
ghost use Rattle.std.specs.Option.{ForSome};
ghost use Rattle.q_replay.specs.Journal.{journal_of};

use crate::console::{Console, Mailbox, Paper, end_at, number_of};
use crate::disturbed::Disturbed;
use crate::door::PolledDoor;
use crate::own::resumed;
use crate::sockets::Common;
use q_journal::Resumed;
use q_kept::MemoryFile;
use q_node::{NodeDoors, NodeRun, Setup, run_node};
use q_outside::{Counted, Hub, Transport};
use std::alloc::Global;
use std::io;
use std::io::{BufRead, BufReader, Eprint, ErrorKind, Write};
use std::sync::Wait;
use std::thread::{Scope, Threads};
use std::time::Clock;

/// The doors of a node.
#[derive(Drop)]
pub struct RoleDoors {
    /// Where its clients come in.
    pub clients: PolledDoor,
    /// Where the lines of its console come in, if they come over connections.
    pub console: Option<PolledDoor>,
}

impl RoleDoors {
    /// The doors, lent to a run.
    fn lent(&self) -> NodeDoors<'_, PolledDoor> {
        let console = self.console.as_ref();
        NodeDoors {
            clients: &self.clients,
            console,
        }
    }
}

/// What a node is run with.
#[derive(Drop)]
pub struct Role<'a> {
    pub id: u64,
    pub post: Disturbed<'a>,
    pub doors: RoleDoors,
    /// Where its clients come in.
    pub place: String,
    pub journal: MemoryFile,
    /// Whether the journal is from an earlier run of the node, which comes back.
    pub is_back: bool,
    /// The call of the journal's file that fails; 0 where none does.
    pub call: u64,
    pub runners: usize,
    /// The write of its output that fails; 0 where none does.
    pub write: u64,
}

/// Where what a node prints is put.
fn paper<'a, R: Wait>(rt: &'a R, hub: &'a Hub, id: u64) -> Paper<'a, R> {
    let to = number_of(id, Mailbox::Printed);
    Paper {
        end: end_at(rt, hub, to),
        to,
    }
}

/// The lines of a node's console.
fn lines_of<'a, R: Wait>(
    rt: &'a R,
    alloc: Global,
    hub: &'a Hub,
    id: u64,
) -> io::Result<BufReader<Console<'a, R>>> {
    let end = end_at(rt, hub, number_of(id, Mailbox::Console));
    Ok(BufReader::new(alloc, Console { rt, end })?)
}

/// Puts the journal of a node that has ended, and then its exit status, where the steps find them.
fn hand_over<R: Wait>(rt: &R, hub: &Hub, id: u64, journal: &[u8], status: u8) -> io::Result<()> {
    let to = number_of(id, Mailbox::Journal);
    let _ = end_at(rt, hub, to).send(to, journal);
    writeln!(paper(rt, hub, id), "status {status}")
}

/// What a node comes back with, if it does.
fn found(
    alloc: Global,
    common: &Common,
    id: u64,
    is_back: bool,
    journal: &mut Counted<MemoryFile>,
) -> io::Result<Option<Resumed>>
    ensures own { IfOk result (λ found. ForSome found (λ r. r.book.id ≡ id)) }
    ensures holds { IfOk result (λ found. ForSome found (λ r. journal.new.inner.bytes.items ≡ journal_of r.book)) }
{
    if !is_back {
        return Ok(None);
    }
    match resumed(alloc, &common.file, id, &mut journal.inner) {
        Ok(found) => Ok(found),
        Err(_) => Err(io::Error::from(ErrorKind::InvalidData)),
    }
}

/// Runs a node with these lines of its console to its end, prints there, and closes its socket and its doors.
fn run_over<R, C: BufRead, W: Write>(
    rt: &R,
    alloc: Global,
    common: &Common,
    role: Role<'_>,
    lines: &mut C,
    out: &mut Counted<W>,
) -> io::Result<NodeRun<Counted<MemoryFile>>>
where
    R: Wait + Threads + Clock + Eprint + Sync,
{
    let Role {
        id,
        post,
        doors,
        journal,
        is_back,
        call,
        runners,
        ..
    } = role;
    let mut journal = Counted::new(journal);
    journal.fail_at(call);
    let resumed = found(alloc, common, id, is_back, &mut journal)?;
    let greeting = format!(in alloc; "node {id} hears")?;
    let setup = Setup {
        file: &common.file,
        id,
        runners,
        keeps: true,
        greeting: greeting.as_str(),
    };
    let lent = doors.lent();
    Ok(run_node(
        rt, alloc, &setup, &post, &lent, journal, resumed, lines, out,
    ))
}

/// Runs a node to its end.
fn run_role<'a, R>(
    rt: &'a R,
    alloc: Global,
    common: &'a Common,
    role: Role<'a>,
) -> io::Result<NodeRun<Counted<MemoryFile>>>
where
    R: Wait + Threads + Clock + Eprint + Sync,
{
    let id = role.id;
    let mut lines = lines_of(rt, alloc, &common.hub, id)?;
    let mut out = Counted::new(paper(rt, &common.hub, id));
    out.fail_at(role.write);
    run_over(rt, alloc, common, role, &mut lines, &mut out)
}

/// Runs a node to its end, and hands its journal over.
fn act<'a, R>(rt: &'a R, alloc: Global, common: &'a Common, role: Role<'a>) -> io::Result<()>
where
    R: Wait + Threads + Clock + Eprint + Sync,
{
    let id = role.id;
    let run = run_role(rt, alloc, common, role)?;
    let journal = run.recorder.file().inner.bytes.as_slice();
    hand_over(rt, &common.hub, id, journal, run.ending.status())
}

/// Starts the thread of a node.
pub fn start<'s, E, R>(
    scope: &Scope<'s, E>,
    rt: &'s R,
    alloc: Global,
    common: &'s Common,
    role: Role<'s>,
) -> io::Result<()>
where
    R: Wait + Threads + Clock + Eprint + Sync,
{
    scope.spawn(move || {
        let _ = act(rt, alloc, common, role);
    })?;
    Ok(())
}
