//! Cases of calls, and what comes of them.

use crate::events::{EventsEnding, run};
use crate::journals::{
    FurtherStore, GatheredCluster, answer, further, gathered, journal, misjudged_beginnings,
    misjudged_changes,
};
use crate::program::refusal;
use crate::writer::listed;
use bq_state::Bounds;
use q_cluster::Cluster;
use q_outside::MemoryFiles;
use q_script::{Script, number};
use q_session::Ran;
use q_sim::{Printed, simulate};
use q_told::Refusal;
use sc_msg::Version;
use std::alloc::{AllocError, Global};
use std::io;
use std::io::Write;

/// The script whose lines were read, and the cluster over which the last list of events ran.
#[derive(Drop)]
pub struct Calls {
    alloc: Global,
    script: String,
    cluster: Option<Box<Cluster>>,
}

/// A number, or 0, and what stands behind it.
fn leading(words: &str) -> (u64, &str) {
    let (first, rest) = words.split_once(' ').unwrap_or((words, ""));
    (number(first).unwrap_or(0), rest)
}

/// The version of this number; the second, where it is another than 1.
fn version(number: u64) -> Version {
    if number == 1 {
        Version::First
    } else {
        Version::Second
    }
}

/// Prints an answer.
fn tell<W: Write>(out: &mut W, answer: Option<Ran>) -> io::Result<()> {
    match answer {
        Some(Ran { acc, steps }) => writeln!(out, "acc {acc} steps {steps}"),
        None => writeln!(out, "no answer"),
    }
}

/// Prints the answer of a gathered cluster and its versions.
fn tell_cluster<W: Write>(out: &mut W, gathered: GatheredCluster) -> io::Result<()> {
    let (version, entered) = (gathered.version, gathered.entered);
    write!(out, "version {version}, of a node that enters {entered}: ")?;
    tell(out, gathered.answer)
}

/// The same, or the refusal.
fn tell_gathered<W: Write>(
    out: &mut W,
    gathered: Option<Result<GatheredCluster, u8>>,
) -> io::Result<()> {
    match gathered {
        Some(Ok(gathered)) => tell_cluster(out, gathered),
        Some(Err(reason)) => writeln!(out, "refused {reason}"),
        None => writeln!(out, "no journals"),
    }
}

/// Prints what a store came to in a book that was replayed.
fn tell_further<W: Write>(out: &mut W, further: Option<FurtherStore>) -> io::Result<()> {
    let Some(further) = further else {
        return writeln!(out, "not replayed");
    };
    match further.refusal {
        0 => write!(out, "taken")?,
        refusal => write!(out, "refused {refusal}")?,
    }
    let replayed = if further.is_journal { "" } else { "not " };
    let version = further.version;
    writeln!(out, ", a journal of version {version}, {replayed}replayed")
}

/// Prints what a script printed, and how many of its lines it told that are done.
fn tell_printed<W: Write>(
    out: &mut W,
    lines: &str,
    told: Option<(usize, usize)>,
) -> io::Result<()> {
    write!(out, "{lines}")?;
    match told {
        Some((done, all)) => writeln!(out, "{done} of {all} lines done"),
        None => writeln!(out, "nothing told"),
    }
}

/// The same, or the refusal.
fn tell_simulated<W: Write>(
    out: &mut W,
    simulated: Result<Printed, Refusal>,
    files: &MemoryFiles,
) -> io::Result<()> {
    match simulated {
        Ok(printed) => tell_printed(out, printed.lines.as_str(), files.told()),
        Err(refusal) => writeln!(out, "{refusal}"),
    }
}

/// Tells whether a program is taken, by the number with which it is refused.
fn tell_refusal<W: Write>(out: &mut W, refusal: Option<u8>) -> io::Result<()> {
    match refusal {
        Some(0) => writeln!(out, "taken"),
        Some(reason) => writeln!(out, "refused {reason}"),
        None => writeln!(out, "no certificate"),
    }
}

impl Calls {
    /// An empty script.
    fn new(alloc: Global) -> Calls {
        Calls {
            alloc,
            script: String::new(alloc),
            cluster: None,
        }
    }

    /// Takes a line, and writes what comes of it.
    fn take<W: Write>(&mut self, text: &str, out: &mut W) -> io::Result<()> {
        match text.split_once(' ') {
            Some(("--", _)) => {
                self.script.clear();
                writeln!(out, "{text}")
            }
            Some(("$", words)) => {
                writeln!(out, "{text}")?;
                self.call(words, out)
            }
            _ => Ok(self.add(text)?),
        }
    }

    fn add(&mut self, text: &str) -> Result<(), AllocError> {
        self.script.push_str(text)?;
        self.script.push('\n')
    }

    /// Makes the call that these words say.
    fn call<W: Write>(&mut self, words: &str, out: &mut W) -> io::Result<()> {
        let (word, rest) = words.split_once(' ').unwrap_or((words, ""));
        let (first, behind) = leading(rest);
        match word {
            "run" => self.run(version(first), out),
            "sim" => self.simulate(out),
            "room" => {
                let (end, status) = listed(self.alloc, first as usize, behind);
                writeln!(out, "{end} status {status}")
            }
            "lengths" => self.certify(version(first), false, behind, out),
            "gone" => self.certify(version(first), true, behind, out),
            _ => self.call_on_cluster(word, first, behind, out),
        }
    }

    /// Runs the script as a list of events, at nodes of this version.
    fn run<W: Write>(&mut self, version: Version, out: &mut W) -> io::Result<()> {
        match run(self.alloc, version, self.script.as_str(), &mut self.cluster) {
            EventsEnding::All => writeln!(out, "all ran"),
            EventsEnding::Refused(place, reason) => writeln!(out, "refused {reason} at {place}"),
            EventsEnding::Nothing => writeln!(out, "no cluster"),
        }
    }

    /// Makes a call on the cluster or on its journals.
    fn call_on_cluster<W: Write>(
        &self,
        word: &str,
        node: u64,
        rest: &str,
        out: &mut W,
    ) -> io::Result<()> {
        let Some(cluster) = &self.cluster else {
            return writeln!(out, "no cluster");
        };
        let (second, names) = leading(rest);
        match word {
            "answer" => tell(out, answer(cluster, node, second as usize)),
            "gather" => {
                let gathered = gathered(self.alloc, cluster, names, node, second as usize);
                tell_gathered(out, gathered)
            }
            _ => {
                let journal = journal(self.alloc, cluster, node);
                match &journal {
                    Some(journal) => self.spoil(word, journal.as_slice(), second, out),
                    None => writeln!(out, "no journal"),
                }
            }
        }
    }

    /// Replays the journal and stores in its book, or replays what is not the journal.
    fn spoil<W: Write>(
        &self,
        word: &str,
        journal: &[u8],
        count: u64,
        out: &mut W,
    ) -> io::Result<()> {
        if word == "cut" {
            let misjudged = misjudged_beginnings(self.alloc, journal);
            return writeln!(out, "{} replayed, other {misjudged}", journal.len());
        }
        if word == "store" {
            return tell_further(out, further(self.alloc, journal, count as usize));
        }
        match misjudged_changes(self.alloc, journal, count) {
            Some(misjudged) => writeln!(out, "{count} replayed, other {misjudged}"),
            None => writeln!(out, "no memory"),
        }
    }

    /// Runs the script, and prints what it prints and what it told.
    fn simulate<W: Write>(&self, out: &mut W) -> io::Result<()> {
        let mut files = MemoryFiles::new(self.alloc);
        self.simulate_over(&mut files, out)
    }

    /// The same over these files.
    fn simulate_over<W: Write>(&self, files: &mut MemoryFiles, out: &mut W) -> io::Result<()> {
        match Script::read(self.alloc, self.script.as_str()) {
            Ok(script) => {
                let simulated = simulate(self.alloc, script, files);
                tell_simulated(out, simulated, files)
            }
            Err(fault) => writeln!(out, "refused {}", fault.reason().number()),
        }
    }

    /// Tells whether a founder of this version, which has left where that is said, takes a program for records of these
    /// lengths.
    fn certify<W: Write>(
        &self,
        version: Version,
        is_gone: bool,
        lengths: &str,
        out: &mut W,
    ) -> io::Result<()> {
        let (least, most) = leading(lengths);
        let least = u8::try_from(least).unwrap_or(0);
        let most = u8::try_from(number(most).unwrap_or(0)).unwrap_or(0);
        match Bounds::new(least, most) {
            Some(lengths) => { tell_refusal(out, refusal(self.alloc, version, is_gone, lengths)) }
            None => writeln!(out, "no lengths"),
        }
    }
}

/// Takes these lines.
fn take_all(rt: &impl Print, calls: &mut Calls, lines: &str) -> io::Result<()> {
    for line in lines.lines() {
        calls.take(line, &mut io::writer(rt))?;
    }
    Ok(())
}

/// Runs the cases of these lines.
pub fn run_calls(rt: &impl Print, alloc: Global, lines: &str) -> io::Result<()> {
    let mut calls = Calls::new(alloc);
    take_all(rt, &mut calls, lines)
}
