//! Scripts of nodes, and what they print.

use crate::commands::tell_fault;
use crate::deaf::Deaf;
use crate::forged::{Forged, datagrams};
use crate::noise::{Flooding, Noisy};
use q_command::{Invocation, read_words};
use q_nodes::{
    ClusterEnding, ClusterRunFault, ClusterScript, open_sockets, run_cluster, run_file,
    run_over_sockets,
};
use q_outside::{Counted, Files, Hub, MemoryFiles, MemoryTransport, Peer, UdpTransport};
use q_script::number;
use std::alloc::{AllocError, Global};
use std::io;
use std::io::Write;
use std::net::Net;
use std::sync::Wait;
use std::thread::Threads;
use std::time::{Clock, Duration};

/// How the datagrams of a run over memory are disturbed.
#[derive(Drop)]
struct Disturbed<'a> {
    /// The node that hears nothing; 0 where each hears.
    deaf: u64,
    /// The node that sends nothing; 0 where each sends.
    mute: u64,
    /// The node whose sends fail; 0 where none does.
    failing: u64,
    /// The letters by which datagrams are disturbed.
    letters: &'a [u8],
    /// What node 1 hears before all else, the last one first.
    before: Vec<Vec<u8>>,
    /// Whether the nodes' threads are woken, by an end of the caller's own.
    has_bells: bool,
}

impl<'a> Disturbed<'a> {
    /// What a word and the rest of its line say; none where it is another word.
    fn read(alloc: Global, word: &str, rest: &'a str) -> Result<Option<Self>, AllocError> {
        let mut disturbed = Disturbed {
            deaf: 0,
            mute: 0,
            failing: 0,
            letters: &[],
            before: Vec::new(alloc),
            has_bells: true,
        };
        match word {
            "memory" => {}
            "unrung" => disturbed.has_bells = false,
            "deaf" => disturbed.deaf = number(rest).unwrap_or(0),
            "mute" => disturbed.mute = number(rest).unwrap_or(0),
            "failing" => disturbed.failing = number(rest).unwrap_or(0),
            "noisy" => disturbed.letters = rest.as_bytes(),
            "forged" => disturbed.before = unsent(alloc, rest)?,
            _ => return Ok(None),
        }
        Ok(Some(disturbed))
    }
}

/// So many datagrams that spell no message, that no book takes, and of a message that was never sent.
fn unsent(alloc: Global, counts: &str) -> Result<Vec<Vec<u8>>, AllocError> {
    let (spelling_none, rest) = counts.split_once(' ').unwrap_or((counts, ""));
    let (refused, never_sent) = rest.split_once(' ').unwrap_or((rest, ""));
    datagrams(
        alloc,
        number(spelling_none).unwrap_or(0),
        number(refused).unwrap_or(0),
        number(never_sent).unwrap_or(0),
    )
}

/// How long a node waits for a datagram.
const PATIENCE_MILLIS: u64 = 50;

/// The end of a node, whose datagrams are disturbed.
type End<'a, R> = Deaf<Noisy<'a, Forged<MemoryTransport<'a, R>>>>;

/// The end of this node, which hears these datagrams before all else.
fn plain<'a, R: Wait>(
    rt: &'a R,
    hub: &'a Hub,
    id: u64,
    patience: Duration,
    before: Vec<Vec<u8>>,
) -> Forged<MemoryTransport<'a, R>> {
    Forged {
        inner: MemoryTransport::new(rt, hub, id, patience),
        before,
    }
}

/// The end of this node, which is disturbed by these letters.
fn noisy<'a, R: Wait>(
    rt: &'a R,
    alloc: Global,
    hub: &'a Hub,
    nodes: u64,
    id: u64,
    letters: &'a [u8],
    before: Vec<Vec<u8>>,
) -> Result<Noisy<'a, Forged<MemoryTransport<'a, R>>>, AllocError> {
    let patience = Duration::from_millis(PATIENCE_MILLIS);
    let patient = plain(rt, hub, id, patience, before);
    let at_once = plain(rt, hub, id, Duration::ZERO, Vec::new(alloc));
    Noisy::new(alloc, letters, nodes, patient, at_once)
}

/// The end of this node. What is heard before all else goes to the first that is made.
fn end<'a, 'l: 'a, R: Wait>(
    rt: &'a R,
    alloc: Global,
    hub: &'a Hub,
    nodes: u64,
    id: u64,
    disturbed: &mut Disturbed<'l>,
) -> Result<End<'a, R>, AllocError> {
    let before = std::mem::replace(&mut disturbed.before, Vec::new(alloc));
    Ok(Deaf {
        inner: noisy(rt, alloc, hub, nodes, id, disturbed.letters, before)?,
        is_deaf: id == disturbed.deaf,
        is_mute: id == disturbed.mute,
        is_failing: id == disturbed.failing,
    })
}

/// The end of the caller, by which it wakes the nodes, and which nothing disturbs.
fn caller_end<'a, R: Wait>(
    rt: &'a R,
    alloc: Global,
    hub: &'a Hub,
    nodes: u64,
) -> Result<End<'a, R>, AllocError> {
    Ok(Deaf {
        inner: noisy(rt, alloc, hub, nodes, 0, &[], Vec::new(alloc))?,
        is_deaf: false,
        is_mute: false,
        is_failing: false,
    })
}

/// The ends of so many nodes, and the caller's, if it has one.
fn ends<'a, 'l: 'a, R: Wait>(
    rt: &'a R,
    alloc: Global,
    hub: &'a Hub,
    nodes: u64,
    disturbed: &mut Disturbed<'l>,
) -> Result<Vec<End<'a, R>>, AllocError> {
    let mut ends = Vec::new(alloc);
    for known in 0..nodes {
        let id = known.wrapping_add(1);
        ends.push(end(rt, alloc, hub, nodes, id, disturbed)?)?;
    }
    if disturbed.has_bells {
        ends.push(caller_end(rt, alloc, hub, nodes)?)?;
    }
    Ok(ends)
}

/// A stranger's socket that knows where nodes are.
fn stranger<R: Net>(rt: &R, alloc: Global, peers: &[Peer]) -> io::Result<UdpTransport> {
    let mut socket = UdpTransport::open(rt, alloc, Duration::ZERO)?;
    for peer in peers {
        socket.meet(peer.id, peer.address)?;
    }
    Ok(socket)
}

/// Ends at sockets, each of which has a stranger who floods the nodes to which it sends.
fn flooding<R: Net>(
    rt: &R,
    alloc: Global,
    nodes: u64,
    many: u64,
) -> io::Result<Vec<Flooding<UdpTransport>>> {
    let mut ends = Vec::new(alloc);
    for inner in open_sockets(rt, alloc, nodes)? {
        let stranger = stranger(rt, alloc, inner.peers.as_slice())?;
        ends.push(Flooding {
            inner,
            stranger,
            many,
        })?;
    }
    Ok(ends)
}

/// The script whose lines were read, and where what comes of them is written.
#[derive(Drop)]
pub struct Nodes<'a, R, W> {
    rt: &'a R,
    alloc: Global,
    out: Counted<W>,
    script: String,
}

impl<'a, R: Net + Wait + Threads + Clock + Sync, W: Write> Nodes<'a, R, W> {
    /// An empty script.
    fn new(rt: &'a R, alloc: Global, out: W) -> Self {
        Nodes {
            rt,
            alloc,
            out: Counted::new(out),
            script: String::new(alloc),
        }
    }

    /// Takes these lines.
    fn take_all(&mut self, lines: &str) -> io::Result<()> {
        for line in lines.lines() {
            self.take(line)?;
        }
        Ok(())
    }

    /// Takes a line, and writes what comes of it.
    fn take(&mut self, text: &str) -> io::Result<()> {
        match text.split_once(' ') {
            Some(("--", _)) => {
                self.script.clear();
                writeln!(self.out, "{text}")
            }
            Some(("*", rest)) => Ok(self.repeat(rest)?),
            Some(("$", words)) => {
                writeln!(self.out, "{text}")?;
                let status = self.run(words)?;
                writeln!(self.out, "status {status}")
            }
            _ => Ok(self.add(text)?),
        }
    }

    fn add(&mut self, text: &str) -> Result<(), AllocError> {
        self.script.push_str(text)?;
        self.script.push('\n')
    }

    fn repeat(&mut self, rest: &str) -> Result<(), AllocError> {
        let (count, text) = rest.split_once(' ').unwrap_or((rest, ""));
        for _ in 0..number(count).unwrap_or(0) {
            self.add(text)?;
        }
        Ok(())
    }

    /// Runs the script as these words say, and prints what it notes where no datagrams are disturbed: the exit status.
    fn run(&mut self, words: &str) -> io::Result<u8> {
        match words.split_once(' ') {
            Some(("strict", words)) => self.run_script(words, true),
            Some(("runs", words)) => self.run_often(words),
            _ => self.run_script(words, false),
        }
    }

    /// Runs the script so often as these words say, prints what the first run prints, and how many printed the same.
    fn run_often(&mut self, words: &str) -> io::Result<u8> {
        let (count, words) = words.split_once(' ').unwrap_or((words, ""));
        let (first, status) = self.run_apart(words)?;
        let mut same: u64 = 1;
        for _ in 1..number(count).unwrap_or(0) {
            let (printed, _) = self.run_apart(words)?;
            if printed.as_slice() == first.as_slice() {
                same = same.saturating_add(1);
            }
        }
        self.out.write_all(first.as_slice())?;
        writeln!(self.out, "{same} runs that print the same")?;
        Ok(status)
    }

    /// Runs the script: what it prints, and the exit status.
    fn run_apart(&self, words: &str) -> io::Result<(Vec<u8>, u8)> {
        let mut nodes = Nodes::new(self.rt, self.alloc, Vec::new(self.alloc));
        nodes.script.push_str(self.script.as_str())?;
        let status = nodes.run_script(words, false)?;
        Ok((nodes.out.inner, status))
    }

    /// The same, strict or not.
    fn run_script(&mut self, words: &str, is_strict: bool) -> io::Result<u8> {
        let (word, rest) = words.split_once(' ').unwrap_or((words, ""));
        let mut notes = Vec::new(self.alloc);
        let status = match word {
            "sockets" => self.run_over_sockets(&mut notes).status(is_strict),
            "flood" => self.run_flooded(rest, &mut notes)?.status(is_strict),
            _ => self.run_word(words, word, rest, is_strict, &mut notes)?,
        };
        if word != "noisy" && word != "flood" {
            self.out.write_all(notes.as_slice())?;
        }
        Ok(status)
    }

    /// The same over memory, or of the command of these words.
    fn run_word(
        &mut self,
        words: &str,
        word: &str,
        rest: &str,
        is_strict: bool,
        notes: &mut Vec<u8>,
    ) -> io::Result<u8> {
        match Disturbed::read(self.alloc, word, rest)? {
            Some(mut disturbed) => {
                let ending = self.run_over_memory(&mut disturbed, notes)?;
                Ok(ending.status(is_strict))
            }
            None => self.run_command(words, notes),
        }
    }

    /// Runs the script over a socket for each node.
    fn run_over_sockets(&mut self, notes: &mut Vec<u8>) -> ClusterEnding {
        let source = self.script.as_str();
        run_over_sockets(self.rt, self.alloc, source, &mut self.out, notes)
    }

    /// Runs the script over a socket for each node, in a flood of so many datagrams for each that is sent.
    fn run_flooded(&mut self, many: &str, notes: &mut Vec<u8>) -> io::Result<ClusterEnding> {
        match ClusterScript::read(self.alloc, self.script.as_str()) {
            Ok(script) => {
                let many = number(many).unwrap_or(0);
                let ends = flooding(self.rt, self.alloc, script.nodes, many)?;
                let out = &mut self.out;
                Ok(run_cluster(self.rt, self.alloc, &script, "", ends, out, notes))
            }
            Err(fault) => self.refuse(fault),
        }
    }

    /// Prints the refusal of a script.
    fn refuse(&mut self, fault: ClusterRunFault) -> io::Result<ClusterEnding> {
        writeln!(self.out, "{fault}")?;
        Ok(ClusterEnding::Refused(fault))
    }

    /// Runs the command of these words over a file `s`, which holds the script.
    fn run_command(&mut self, words: &str, notes: &mut Vec<u8>) -> io::Result<u8> {
        let words: Vec<&str> = words.split(' ').collect(self.alloc)?;
        match read_words(self.alloc, words.as_slice()) {
            Ok(Invocation::Cluster { script, strict }) => Ok(self.run_file(script, strict, notes)),
            Ok(
                Invocation::FileCommand(_)
                | Invocation::Gather { .. }
                | Invocation::Node(_)
                | Invocation::Client { .. },
            ) => {
                writeln!(self.out, "another command")?;
                Ok(0)
            }
            Err(fault) => tell_fault(&fault, &mut self.out),
        }
    }

    /// Runs the script of the file of this name.
    fn run_file(&mut self, name: &str, is_strict: bool, notes: &mut Vec<u8>) -> u8 {
        let mut files = MemoryFiles::new(self.alloc);
        let _ = files.write("s", self.script.as_bytes());
        let _ = files.write("t", &[0xff]);
        let out = &mut self.out;
        let run = run_file(self.rt, self.alloc, name, &mut files, out, notes);
        run.ending.status(is_strict)
    }

    /// Runs the script over memory, or prints its refusal.
    fn run_over_memory(
        &mut self,
        disturbed: &mut Disturbed<'_>,
        notes: &mut Vec<u8>,
    ) -> io::Result<ClusterEnding> {
        match ClusterScript::read(self.alloc, self.script.as_str()) {
            Ok(script) => self.run_read(&script, disturbed, notes),
            Err(fault) => self.refuse(fault),
        }
    }

    /// Runs a script over memory.
    fn run_read(
        &mut self,
        script: &ClusterScript,
        disturbed: &mut Disturbed<'_>,
        notes: &mut Vec<u8>,
    ) -> io::Result<ClusterEnding> {
        let hub = Hub::open(self.alloc, script.nodes)?;
        let ends = ends(self.rt, self.alloc, &hub, script.nodes, disturbed)?;
        let out = &mut self.out;
        Ok(run_cluster(self.rt, self.alloc, script, "", ends, out, notes))
    }
}

/// Runs the cases of these lines.
pub fn run_nodes<T: Net + Wait + Threads + Clock + Sync>(
    rt: &impl Print,
    threads: &T,
    alloc: Global,
    lines: &str,
) -> io::Result<()> {
    let mut nodes = Nodes::new(threads, alloc, io::writer(rt));
    nodes.take_all(lines)
}
