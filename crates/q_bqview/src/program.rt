//! The program, from its words to its exit status.

ghost use Rattle.std.specs.Prelude.{◌≡◌, ◌⊎◌, ℕ, List, IfOk, IfErr, map, string_bytes};
ghost use Rattle.std.specs.Vec.Iter.{into_iter_items};
ghost use Rattle.q_command.specs.Words.{exit_status};
ghost use Rattle.q_bqview.specs.Runs.{CarriesOut, Does, Explains, Gathers, IsUngiven, Puts, PutsMemory, Runs, RunsApart, RunsClient, RunsNodes, output_of};

use crate::client::client_advice;
use q_asker::ClientEnding;
use q_command::{
    FileCommand, Invocation, RefusedCommand, WordsFault, carry_out, gather_files, given_words,
    nodes_advice, read_words,
};
use q_nodes::{ClusterEnding, ClusterRunFault, FileRun, run_file};
use q_outside::{Counted, Files};
use q_script::NodeWords;
use q_told::{Refusal, put_refusal};
use std::alloc::{AllocError, Global};
use std::convert::AsStr;
use std::env::Args;
use std::fs::Files as SystemFiles;
use std::io;
use std::io::{Eprint, Input, Write};
use std::net::{Net, TcpListener, TcpStream};
use std::sync::Wait;
use std::thread::Threads;
use std::time::Clock;

// ---- words that ask for no command

/// Writes bytes: the exit status that is wanted, or 1 where the writer failed.
fn put<W: Write>(out: &mut Counted<W>, bytes: &[u8], wanted: u8) -> u8
    ensures { Puts bytes.now wanted (output_of W.contents out.old) result (output_of W.contents out.new) }
{
    match out.put(bytes) {
        Ok(()) => wanted,
        Err(_) => 1,
    }
}

/// Writes the refusal for want of memory, and takes none: the exit status.
fn put_memory<W: Write>(out: &mut Counted<W>) -> u8
    ensures { PutsMemory (output_of W.contents out.old) result (output_of W.contents out.new) }
{
    match put_refusal(out, &Refusal::OutOfMemory) {
        Ok(()) => 1,
        Err(_) => 1,
    }
}

/// The text of a fault.
fn text_of(alloc: Global, fault: &WordsFault<'_>) -> Result<String, AllocError> {
    format!(in alloc; "{fault}")
}

/// Writes the help, whose text needs memory: the exit status.
fn put_help<W: Write>(alloc: Global, fault: &WordsFault<'_>, out: &mut Counted<W>) -> u8
    ensures { ((text : List ℕ) × Puts text 0 (output_of W.contents out.old) result (output_of W.contents out.new))
        ⊎ PutsMemory (output_of W.contents out.old) result (output_of W.contents out.new) }
{
    match text_of(alloc, fault) {
        Ok(text) => put(out, text.as_bytes(), 0),
        Err(_) => put_memory(out),
    }
}

/// Says in the notes what is wrong with the words: the exit status.
fn note_fault<N: Write>(fault: &WordsFault<'_>, notes: &mut N) -> u8
    ensures { result ≡ exit_status fault.now }
{
    let _ = write!(notes, "{fault}");
    fault.status()
}

/// Says why no command runs: the exit status.
fn tell_fault<W: Write, N: Write>(
    alloc: Global,
    fault: &WordsFault<'_>,
    out: &mut Counted<W>,
    notes: &mut N,
) -> u8
    ensures { Explains fault.now (output_of W.contents out.old) result (output_of W.contents out.new) }
{
    match fault {
        WordsFault::Help(_) => put_help(alloc, fault, out),
        WordsFault::OutOfMemory => put_memory(out),
        WordsFault::Wrong(_)
        | WordsFault::BadStart { .. }
        | WordsFault::BadLengths { .. }
        | WordsFault::NotesOverProgram { .. }
        | WordsFault::BadId { .. }
        | WordsFault::BadRunners { .. }
        | WordsFault::NotUtf8 => note_fault(fault, notes),
    }
}

/// Says in the notes that the output failed, if a call of it failed since so many had.
fn note_failure<W: Write, N: Write>(out: &Counted<W>, before: u64, notes: &mut N) {
    if out.failures != before {
        let _ = notes.write_all(
            b"error: the standard output failed, and did not take all of the answer\n",
        );
    }
}

/// Says why no command runs, and where the output fails: the exit status.
fn explain<W: Write, N: Write>(
    alloc: Global,
    fault: &WordsFault<'_>,
    out: &mut Counted<W>,
    notes: &mut N,
) -> u8
    ensures { Explains fault.now (output_of W.contents out.old) result (output_of W.contents out.new) }
{
    let before = out.failures;
    let status = tell_fault(alloc, fault, out, notes);
    note_failure(out, before, notes);
    status
}

// ---- what explains a refusal

/// Writes what explains a refusal, if something does. Nothing comes of it where there is no memory for the text, or
/// where the notes take none.
fn note<N: Write>(told: Result<Option<String>, AllocError>, notes: &mut N) {
    if let Ok(Some(text)) = told {
        let _ = notes.write_all(text.as_bytes());
    }
}

/// What explains a fault of the script of nodes in threads, from what was read of it.
fn script_advice(
    alloc: Global,
    script: &str,
    source: Vec<u8>,
    fault: ClusterRunFault,
) -> Result<Option<String>, AllocError> {
    match fault {
        ClusterRunFault::Script(refusal) => nodes_advice(
            alloc,
            &RefusedCommand {
                refusal,
                file: script,
                bytes: source,
            },
        ),
        ClusterRunFault::BadCount => {
            let told = format!(in alloc; "{script}: A cluster is founded by 1 to 16 nodes.\n")?;
            Ok(Some(told))
        }
        ClusterRunFault::TransportFailed => Ok(None),
    }
}

/// Explains how a run of nodes in threads ended, if its script was refused.
fn note_ending<N: Write>(
    alloc: Global,
    script: &str,
    source: Vec<u8>,
    ending: ClusterEnding,
    notes: &mut N,
) {
    if let ClusterEnding::Refused(fault) = ending {
        note(script_advice(alloc, script, source, fault), notes);
    }
}

/// Explains how a client's run ended, if its script was refused.
fn note_client<N: Write>(
    alloc: Global,
    script: &str,
    source: &[u8],
    ending: ClientEnding,
    notes: &mut N,
) {
    if let ClientEnding::Refused(refusal) = ending {
        note(client_advice(alloc, script, source, refusal), notes);
    }
}

// ---- commands

/// Carries out a command over files, and explains its refusal: the exit status.
fn run_line<F: Files, W: Write, N: Write>(
    alloc: Global,
    line: &FileCommand<'_>,
    files: &mut F,
    out: &mut Counted<W>,
    notes: &mut N,
) -> u8
    ensures { CarriesOut F.read_gives F.write_gives line.now files.old
        (output_of W.contents out.old) result files.new (output_of W.contents out.new) }
{
    carry_out(alloc, line, files, out, notes).status()
}

/// Runs a script by a thread and a socket for each node, and explains its refusal: the exit status.
fn run_nodes<R: Net + Wait + Threads + Clock + Sync, F: Files, W: Write, N: Write>(
    rt: &R,
    alloc: Global,
    script: &str,
    is_strict: bool,
    files: &mut F,
    out: &mut Counted<W>,
    notes: &mut N,
) -> u8
    ensures { RunsNodes F.read_gives F.write_gives script.now is_strict files.old
        (output_of W.contents out.old) result files.new (output_of W.contents out.new) }
{
    let FileRun { ending, source } = run_file(rt, alloc, script, files, out, notes);
    note_ending(alloc, script, source, ending, notes);
    ending.status(is_strict)
}

/// Gathers the journals of files, and explains their refusal: the exit status.
fn run_gather<F: Files, W: Write, N: Write>(
    alloc: Global,
    journals: &[&str],
    pairs: bool,
    files: &mut F,
    out: &mut Counted<W>,
    notes: &mut N,
) -> u8
    ensures { Gathers F.read_gives F.write_gives (map (λ name. name.now) journals.now) pairs files.old
        (output_of W.contents out.old) result files.new (output_of W.contents out.new) }
{
    gather_files(alloc, journals, pairs, files, out, notes).status()
}

/// Runs a client's script over a connection with the node at a place, and explains its refusal: the exit status.
fn run_client<R: Net + Clock, F: Files, W: Write, N: Write>(
    rt: &R,
    alloc: Global,
    place: &str,
    script: &str,
    is_strict: bool,
    files: &mut F,
    out: &mut Counted<W>,
    notes: &mut N,
) -> u8
    ensures { RunsClient F.read_gives F.write_gives script.now is_strict files.old
        (output_of W.contents out.old) result files.new (output_of W.contents out.new) }
{
    let q_asker::FileRun { ending, source } = q_asker::run_file(
        rt, alloc, place, script, files, out, notes,
    );
    note_client(alloc, script, source.as_slice(), ending, notes);
    ending.status(is_strict)
}

/// The machine on which a command runs.
#[derive(Drop)]
struct Machine<'a, R> {
    rt: &'a R,
    alloc: Global,
}

impl<R> Machine<'_, R>
where
    R: Net<Listener = TcpListener, Stream = TcpStream> + Sync,
    R: SystemFiles + Input + Eprint + Wait + Threads + Clock,
    R::File: Send,
{
    /// Runs a node by itself, whose console is the standard input: the exit status.
    fn run_node<F: Files, W: Write, N: Write>(
        &self,
        words: &NodeWords<'_>,
        files: &mut F,
        out: &mut Counted<W>,
        notes: &mut N,
    ) -> u8
        ensures { RunsApart F.read_gives F.write_gives words.now.file.now words.now.id files.old
            (output_of W.contents out.old) result files.new (output_of W.contents out.new) }
    {
        let mut console = self.rt.reader();
        q_node::run_file(self.rt, self.alloc, words, files, &mut console, out, notes).status()
    }

    /// Does what is wanted: the exit status.
    fn do_invocation<F: Files, W: Write, N: Write>(
        &self,
        invocation: &Invocation<'_>,
        files: &mut F,
        out: &mut Counted<W>,
        notes: &mut N,
    ) -> u8
        ensures { Does F.read_gives F.write_gives invocation.now files.old
            (output_of W.contents out.old) result files.new (output_of W.contents out.new) }
    {
        match invocation {
            Invocation::FileCommand(line) => run_line(self.alloc, line, files, out, notes),
            Invocation::Cluster { script, strict } => {
                run_nodes(self.rt, self.alloc, script, *strict, files, out, notes)
            }
            Invocation::Gather { journals, pairs } => {
                run_gather(self.alloc, journals.as_slice(), *pairs, files, out, notes)
            }
            Invocation::Client {
                place,
                script,
                strict,
            } => run_client(
                self.rt, self.alloc, place, script, *strict, files, out, notes,
            ),
            Invocation::Node(command) => self.run_node(command, files, out, notes),
        }
    }

    /// Does what is wanted, and says in the notes where the output fails: the exit status.
    fn run_invocation<F: Files, W: Write, N: Write>(
        &self,
        invocation: &Invocation<'_>,
        files: &mut F,
        out: &mut Counted<W>,
        notes: &mut N,
    ) -> u8
        ensures { Does F.read_gives F.write_gives invocation.now files.old
            (output_of W.contents out.old) result files.new (output_of W.contents out.new) }
    {
        let before = out.failures;
        let status = self.do_invocation(invocation, files, out, notes);
        note_failure(out, before, notes);
        status
    }
}

/// Runs the command of these words, of which the first is the program's name: the exit status.
///
/// What explains a refusal, what is wrong with words that ask for no command, and that the output failed go to the
/// notes. That they fail changes nothing else.
pub fn run_words<R, S, F, W, N>(
    rt: &R,
    alloc: Global,
    words: &[S],
    files: &mut F,
    out: &mut Counted<W>,
    notes: &mut N,
) -> u8
where
    R: Net<Listener = TcpListener, Stream = TcpStream> + Sync,
    R: SystemFiles + Input + Eprint + Wait + Threads + Clock,
    R::File: Send,
    S: AsStr,
    F: Files,
    W: Write,
    N: Write,
    ensures { Runs F.read_gives F.write_gives (map S.text words.now) files.old
        (record { taken = W.contents out.old.inner; failures = out.old.failures }) result files.new
        (record { taken = W.contents out.new.inner; failures = out.new.failures }) }
{
    match read_words(alloc, words) {
        Ok(invocation) => Machine { rt, alloc }.run_invocation(&invocation, files, out, notes),
        Err(fault) => explain(alloc, &fault, out, notes),
    }
}

/// Runs the command of the words that the system gives, if it gives them, as [`run_words`]: the exit status.
pub fn run<R, F, W, N>(
    rt: &R,
    alloc: Global,
    given: io::Result<Args>,
    files: &mut F,
    out: &mut Counted<W>,
    notes: &mut N,
) -> u8
where
    R: Net<Listener = TcpListener, Stream = TcpStream> + Sync,
    R: SystemFiles + Input + Eprint + Wait + Threads + Clock,
    R::File: Send,
    F: Files,
    W: Write,
    N: Write,
    ensures given { IfOk given (λ args. Runs F.read_gives F.write_gives (map string_bytes (into_iter_items args)) files.old
        (record { taken = W.contents out.old.inner; failures = out.old.failures }) result files.new
        (record { taken = W.contents out.new.inner; failures = out.new.failures })) }
    ensures ungiven { IfErr given (λ error. IsUngiven error files.old
        (record { taken = W.contents out.old.inner; failures = out.old.failures }) result files.new
        (record { taken = W.contents out.new.inner; failures = out.new.failures })) }
{
    match given_words(alloc, given) {
        Ok(words) => run_words(rt, alloc, words.as_slice(), files, out, notes),
        Err(fault) => explain(alloc, &fault, out, notes),
    }
}
