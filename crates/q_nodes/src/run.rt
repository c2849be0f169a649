//! A whole cluster, run by threads.

ghost use Rattle.std.specs.Prelude.{◌≡◌, ◌≤◌, IfErr, IfOk, length, string_bytes};
ghost use Rattle.std.specs.List.{AllZip};
ghost use Rattle.q_nodes.specs.Lines.{ComesTo};
ghost use Rattle.q_nodes.specs.Runs.{IsTellingOfNodes, IsWritten, failures_after};
ghost use Rattle.q_nodes.specs.Halts.{IsHalt};

use crate::calls::{Calls, ids, make_calls};
use crate::ending::{ClusterEnding, print_telling, print_untold};
use crate::fault::ClusterRunFault;
use crate::halt::Halt;
use crate::outcome::Outcome;
use crate::own::are_of_nodes;
use crate::report::Tally;
use crate::script::ClusterScript;
use crate::telling::{Telling, tell};
use q_held::Unsent;
use q_outside::{Counted, Transport};
use q_told::{RefusedLine, write_refused_line};
use std::alloc::{AllocError, Global};
use std::io::Write;
use std::sync::Wait;
use std::thread::Threads;
use std::time::Clock;

/// Tells what trouble there was, where there was any.
fn note_trouble<N: Write>(notes: &mut N, tally: Tally, unsent: Unsent) {
    let unanswered = tally.unanswered;
    if unanswered != 0 {
        let _ = writeln!(notes, "unanswered lines: {unanswered}");
    }
    if !unsent.is_none() {
        let _ = writeln!(notes, "{unsent}");
    }
}

/// A line that was refused, its refusal, and what would satisfy it.
fn refused_line(alloc: Global, fault: RefusedLine, text: &str) -> Result<String, AllocError> {
    let mut out = String::new(alloc);
    write_refused_line(alloc, &mut out, fault, text)?;
    Ok(out)
}

/// Tells why lines were refused. Nothing is told of a line for which memory runs out.
fn note_refused<N: Write>(alloc: Global, source: &str, outcomes: &[Outcome], notes: &mut N) {
    for (place, (text, outcome)) in source.split('\n').skip(1).zip(outcomes).enumerate() {
        if let Outcome::Refused(ClusterRunFault::Script(refusal)) = *outcome {
            let line = place.saturating_add(2);
            if let Ok(told) = refused_line(alloc, RefusedLine { line, refusal }, text) {
                let _ = notes.write_all(told.as_bytes());
            }
        }
    }
}

/// Gathers the books of the nodes, and tells the lines; how many datagrams changed nothing, why lines were refused, and
/// what trouble there was, goes to the notes.
fn tell_calls<N: Write>(
    alloc: Global,
    script: &ClusterScript,
    source: &str,
    calls: &Calls,
    notes: &mut N,
) -> Result<Telling, Halt>
    requires came { AllZip (ComesTo script.now.nodes) script.now.lines.items calls.now.outcomes.items }
    requires books { length calls.now.books.items ≡ script.now.nodes }
    requires few { script.now.nodes ≤ 16 }
    ensures told { IfOk result (λ t. IsTellingOfNodes script.now t.tally t.refusal (string_bytes t.text)) }
    ensures halt { IfErr result (IsHalt script.now.nodes) }
{
    if !are_of_nodes(calls.books.as_slice()) {
        return Err(Halt::Astray);
    }
    let lost = calls.lost;
    let _ = writeln!(notes, "{lost}");
    note_refused(alloc, source, calls.outcomes.as_slice(), notes);
    let ids = ids(alloc, script.nodes)?;
    let telling = tell(
        alloc,
        script,
        ids.as_slice(),
        calls.books.as_slice(),
        calls.outcomes.as_slice(),
    )?;
    note_trouble(notes, telling.tally, calls.unsent);
    Ok(telling)
}

/// Makes the calls of a script's lines in turn, each after the end of the one before, and tells them.
fn tell_script<R: Wait + Threads + Clock + Sync, T: Transport + Send + Drop, N: Write>(
    rt: &R,
    alloc: Global,
    script: &ClusterScript,
    source: &str,
    transports: Vec<T>,
    notes: &mut N,
) -> Result<Telling, Halt>
    ensures told { IfOk result (λ t. IsTellingOfNodes script.now t.tally t.refusal (string_bytes t.text)) }
    ensures halt { IfErr result (IsHalt script.now.nodes) }
{
    match make_calls(rt, alloc, script, 1, transports) {
        Ok(calls) => tell_calls(alloc, script, source, &calls, notes),
        Err(halt) => Err(halt),
    }
}

/// Tells which thread was not started.
fn note_halt<N: Write>(notes: &mut N, halt: Halt) {
    if let Halt::Thread(node) = halt {
        let _ = writeln!(notes, "the thread of node {node} could not be started");
    }
}

/// Runs a script by a thread for each node, over these transports, and by four runners; gathers the books of the nodes
/// into a cluster; and prints what the lines tell of it, all at the end. To the notes goes how many datagrams changed
/// nothing, how many lines are unanswered, what was not sent, and which thread was not started. Where there is one
/// transport more than nodes, the last one wakes the nodes' threads, as in [`make_calls`].
///
/// From the text that spells the script the notes tell why lines were refused. Of an empty text they do not.
pub fn run_cluster<R, T, W, N>(
    rt: &R,
    alloc: Global,
    script: &ClusterScript,
    source: &str,
    transports: Vec<T>,
    out: &mut Counted<W>,
    notes: &mut N,
) -> ClusterEnding
where
    R: Wait + Threads + Clock + Sync,
    T: Transport + Send + Drop,
    W: Write,
    N: Write,
    ensures written { IsWritten script.now result (W.contents out.old.inner) (W.contents out.new.inner) }
    ensures counted { out.new.failures ≡ failures_after result out.old.failures }
{
    match tell_script(rt, alloc, script, source, transports, notes) {
        Ok(telling) => print_telling(script, &telling, out),
        Err(halt) => {
            note_halt(notes, halt);
            print_untold(script, halt.fault(), out)
        }
    }
}
