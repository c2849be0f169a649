//! Clusters whose nodes have a socket each.

ghost use Rattle.std.specs.Prelude.{◌≡◌};
ghost use Rattle.q_nodes.specs.Runs.{IsWrittenBytes, IsWrittenFile, IsWrittenOf, failures_after};
ghost use Rattle.q_nodes.specs.Files.{longest_script};

use crate::ending::{ClusterEnding, print_refusal};
use crate::fault::ClusterRunFault;
use crate::run::run_cluster;
use crate::script::ClusterScript;
use q_outside::{Counted, Files, LONGEST_TEXT, Peer, UdpTransport};
use q_told::Refusal;
use std::alloc::Global;
use std::io::Write;
use std::net::Net;
use std::sync::Wait;
use std::thread::Threads;
use std::time::{Clock, Duration};
use std::{io, str};

/// For how long a socket waits for a datagram.
const PATIENCE_MILLIS: u64 = 50;

/// A socket for each node, and one for the thread that makes the calls. None knows a peer yet.
fn open_all<R: Net>(rt: &R, alloc: Global, nodes: u64) -> io::Result<Vec<UdpTransport>> {
    let patience = Duration::from_millis(PATIENCE_MILLIS);
    let mut transports = Vec::new(alloc);
    for _ in 0..nodes {
        transports.push(UdpTransport::open(rt, alloc, patience)?)?;
    }
    transports.push(UdpTransport::open(rt, alloc, patience)?)?;
    Ok(transports)
}

/// Where the sockets of the nodes are.
fn peers(alloc: Global, transports: &[UdpTransport]) -> io::Result<Vec<Peer>> {
    let mut peers = Vec::new(alloc);
    for (place, transport) in transports.iter().enumerate() {
        peers.push(Peer {
            id: (place as u64).saturating_add(1),
            address: transport.address()?,
        })?;
    }
    Ok(peers)
}

/// Makes the peers known to a node.
fn meet_all(transport: &mut UdpTransport, peers: &[Peer]) -> io::Result<()> {
    for peer in peers {
        transport.meet(peer.id, peer.address)?;
    }
    Ok(())
}

/// A socket for each of so many nodes, and one more for the thread that makes the calls, at free ports of loopback,
/// each of which knows all.
pub fn open_sockets<R: Net>(rt: &R, alloc: Global, nodes: u64) -> io::Result<Vec<UdpTransport>> {
    let mut transports = open_all(rt, alloc, nodes)?;
    let peers = peers(alloc, transports.as_slice())?;
    for transport in transports.as_mut_slice() {
        meet_all(transport, peers.as_slice())?;
    }
    Ok(transports)
}

/// Runs the script that a text spells by a thread and a socket for each node, and prints what its lines tell; what
/// `run_cluster` notes goes to the notes, and why lines were refused. A script that is refused prints its refusal, and
/// a socket that can't be opened 86 TransportFailed: the notes say why.
pub fn run_over_sockets<R: Net + Wait + Threads + Clock + Sync, W: Write, N: Write>(
    rt: &R,
    alloc: Global,
    source: &str,
    out: &mut Counted<W>,
    notes: &mut N,
) -> ClusterEnding
    ensures written { IsWrittenOf source.now result (W.contents out.old.inner) (W.contents out.new.inner) }
    ensures counted { out.new.failures ≡ failures_after result out.old.failures }
{
    let script = match ClusterScript::read(alloc, source) {
        Ok(script) => script,
        Err(fault) => return print_refusal(fault, out),
    };
    match open_sockets(rt, alloc, script.nodes) {
        Ok(transports) => run_cluster(rt, alloc, &script, source, transports, out, notes),
        Err(error) => {
            note_socket(notes, &error);
            print_refusal(ClusterRunFault::TransportFailed, out)
        }
    }
}

/// Tells why a socket was not opened.
fn note_socket<N: Write>(notes: &mut N, error: &io::Error) {
    let _ = writeln!(notes, "a socket could not be opened: {error}");
}

/// How the run of a file's script ended.
#[derive(Drop)]
pub struct FileRun {
    /// How it ended.
    pub ending: ClusterEnding,
    /// The bytes of the file; none where it failed.
    pub source: Vec<u8>,
}

/// The command `cluster`: runs the script in the file of this name so. A file that fails, has more than 16 MiB, or is
/// no UTF-8, is refused with 87 FileFailed. The bytes that were read are answered, so that a refusal can be explained
/// from them.
pub fn run_file<R: Net + Wait + Threads + Clock + Sync, F: Files, W: Write, N: Write>(
    rt: &R,
    alloc: Global,
    name: &str,
    files: &mut F,
    out: &mut Counted<W>,
    notes: &mut N,
) -> FileRun
    ensures written { IsWrittenFile (F.read_gives longest_script) name.now files.old files.new result.source.items result.ending
        (W.contents out.old.inner) (W.contents out.new.inner) }
    ensures counted { out.new.failures ≡ failures_after result.ending out.old.failures }
{
    let source = match files.read(alloc, name, LONGEST_TEXT) {
        Ok(bytes) => bytes,
        Err(fault) => {
            let ending = print_refusal(ClusterRunFault::from(fault), out);
            return FileRun {
                ending,
                source: Vec::new(alloc),
            };
        }
    };
    let ending = run_bytes(rt, alloc, source.as_slice(), out, notes);
    FileRun { ending, source }
}

/// The same of the bytes of a file.
fn run_bytes<R: Net + Wait + Threads + Clock + Sync, W: Write, N: Write>(
    rt: &R,
    alloc: Global,
    bytes: &[u8],
    out: &mut Counted<W>,
    notes: &mut N,
) -> ClusterEnding
    ensures written { IsWrittenBytes bytes.now result (W.contents out.old.inner) (W.contents out.new.inner) }
    ensures counted { out.new.failures ≡ failures_after result out.old.failures }
{
    match str::from_utf8(bytes) {
        Ok(source) => run_over_sockets(rt, alloc, source, out, notes),
        Err(_) => print_refusal(ClusterRunFault::Script(Refusal::FileFailed), out),
    }
}
