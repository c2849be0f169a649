//! Cases of nodes in separate processes, which run here as threads: with sockets over UDP at the loopback, doors, files
//! in memory for their journals, and mailboxes or sockets for their consoles.
//!
//! Lines `-- TEXT` are printed unchanged. A case begins with lines that say what it has:
//!
//! | Line | What it says |
//! |---|---|
//! | `cluster FOUNDERS NODES NUMBER BETA GAMMA` | the nodes are counted from 1, and the first are founders |
//! | `node ID room BYTES` | the file of its journal takes no more than these bytes |
//! | `node ID call NUMBER` | this call of that file fails |
//! | `node ID write NUMBER` | this write of its output fails |
//! | `node ID runners COUNT` | it has this many runners; else two |
//! | `node ID letters LETTERS` | its datagrams are lost (`x`), doubled (`2`) or sent unchanged, in turn |
//! | `node ID door PLACE` | its clients connect here, and else at a TCP address |
//! | `node ID console PATH` | its console is a Unix socket at this path, and its mailbox is not read |
//!
//! `begin` opens the sockets and the doors. Steps follow, and `over` ends the nodes that still run.
//!
//! Nodes and their consoles:
//!
//! - `start ID`: starts a node.
//! - `say ID LINE`, `tell ID LINE`: gives its console a line, and writes what it prints next; or gives the line alone.
//! - `hear ID`: writes what it prints next. Its exit status follows its last line.
//! - `until ID TEXT`: asks for its status until that has this text.
//! - `line ID LINE;LINE;..`: gives its console lines over its socket, and writes what it says to them.
//! - `speech PATH LINE;LINE;..`, `said ID`: gives these lines to the console at a path once it is there, while the next
//!   steps are done; writes what it said to them.
//! - `close ID`: ends the input of its console. Only for a node whose console has a socket: nothing ends another then.
//! - `pause MILLISECONDS`: waits.
//!
//! Nodes that come back:
//!
//! - `again ID`: starts a node that has ended on the journal that it left, writes what that start answers, and opens a
//!   socket at its old address and new doors, so that `start ID` runs it. Its letters, limits and failures end.
//! - `again ID KIND BYTES`: the same with the journal up to its last event of this kind, and this many bytes of that
//!   event. For 0 it is the first bytes of the journal.
//! - `beginnings ID`: a start on each beginning of that journal. Counts how many begin, come back, or are wrong.
//! - `foreign ID`: starts of other nodes on that journal, of the node on bytes that are not its journal, and with other
//!   notes. Writes what each answers and whether the file was kept. The cluster is one node with the fractions 1/1.
//!
//! Clients:
//!
//! - `clients ID LINE;LINE..|ID LINE..`: runs clients at once, each with a script.
//! - `drown ID LINE;LINE..`: runs a client again and again until it is not served.
//! - `insist ID LINE;LINE..`: does so until it is served.
//! - `connect ID COUNT BYTES`: opens connections, and writes these bytes over each. They are numbered from 1.
//! - `write NUMBER BYTES`, `shut NUMBER`: writes more over a connection; ends what is written over it.
//! - `read NUMBER COUNT`: reads this many bytes of replies, or those before the end of the connection.
//! - `answer ID QUERY`: asks for the answer of a query until it is there, and writes the reply.
//! - `closed`: writes how many of the connections the node has closed.
//! - `disperse`: closes all connections.
//!
//! Datagrams, journals and files:
//!
//! - `forge FROM NUMBER TO BYTES`: sends a node a datagram of the run with this number, from the socket of a node that
//!   was not started, or, with 0, from one that is no node's.
//! - `strangers ID COUNT`: waits until a node was sent this many datagrams of strangers.
//! - `gather`: gathers the beginnings of the journals of all nodes that ended.
//! - `text LINE;LINE..`: is the file `text` of the next commands. `@` is an address in use, and `&` one that is free.
//! - `command FILE ID RUNNERS PLACE`, and then perhaps `resume` or `console PATH`: runs the command `node`, with FILE in
//!   memory, and its journal in the file `journal` of the folder in which this program runs.
//! - `put PATH LINE;LINE;..`: writes a file.
//! - `there PATH`, `remove PATH`: whether a file is there; removes it.
//!
//! BYTES are hexadecimal digits; after `COUNT*` they are repeated. The number of events of a journal and the ports of
//! addresses depend on the schedule, and are printed as `*`. All else is the same under every schedule. What a node
//! prints and replies is proved in its crates. These cases test that threads, sockets, doors and restarts work together.
//!
//! What these cases cannot test: a node whose console is the standard input, and whose input has ended, goes on. Nothing
//! would end such a node but a signal.
#![tactic(auto)]

mod again;
mod beginnings;
mod clients;
mod console;
mod disturbed;
mod door;
mod events;
mod files;
mod masks;
mod own;
mod plan;
mod role;
mod sockets;
mod speech;
mod stage;
mod strangers;

use crate::plan::Plan;
use crate::sockets::{open, places, roles};
use crate::stage::Stage;
use std::alloc::Global;
use std::fs::Files;
use std::io::{Eprint, Input, Print, Write};
use std::net::{Net, TcpListener, TcpStream};
use std::sync::Wait;
use std::thread::Threads;
use std::time::Clock;
use std::{io, thread};

/// Opens the sockets of a plan, and does these steps.
fn play<'a, R, W>(
    rt: &'a R,
    alloc: Global,
    plan: Plan,
    steps: &[String],
    out: &mut W,
) -> io::Result<()>
where
    R: Net<Listener = TcpListener, Stream = TcpStream> + Sync,
    R: Files + Wait + Threads + Clock + Eprint,
    R::File: Send,
    W: Write,
{
    let (common, posts, stranger) = open(rt, alloc, plan)?;
    let common = &common;
    let roles = roles(rt, alloc, common, posts)?;
    let places = places(alloc, roles.as_slice())?;
    let stage = Stage {
        rt,
        alloc,
        common,
        roles,
        places,
        stranger,
        streams: Vec::new(alloc),
        text: String::new(alloc),
    };
    let printed = thread::scope(
        thread::scope_env(),
        rt,
        move |scope| -> io::Result<Vec<u8>> {
            let mut printed = Vec::new(alloc);
            stage.play(scope, steps, &mut printed)?;
            Ok(printed)
        },
    )?;
    out.write_all(printed.as_slice())
}

/// Runs the case of these lines.
fn run_case<'a, R, W>(rt: &'a R, alloc: Global, lines: &'a [String], out: &mut W) -> io::Result<()>
where
    R: Net<Listener = TcpListener, Stream = TcpStream> + Sync,
    R: Files + Wait + Threads + Clock + Eprint,
    R::File: Send,
    W: Write,
{
    let at = lines.iter().position(|line| line.as_str() == "begin");
    let Some((before, [_, steps @ ..])) = at.and_then(|at| lines.split_at_checked(at)) else {
        return writeln!(out, "no case");
    };
    let plan = Plan::read(alloc, before)?;
    play(rt, alloc, plan, steps, out)
}

fn main(rt: HostRuntime) -> io::Result<()> {
    let alloc = rt.alloc();
    let mut lines = Vec::new(alloc);
    for line in rt.lines(alloc) {
        let line = line?;
        if line.starts_with("-- ") {
            println!(rt; "{line}")?;
        } else if line.as_str() == "over" {
            run_case(&rt, alloc, lines.as_slice(), &mut io::writer(&rt))?;
            lines.clear();
        } else {
            lines.push(line)?;
        }
    }
    Ok(())
}
