//! A script, run over a connection.

ghost use Rattle.std.specs.Prelude.{◌≡◌, ◌&&◌};
ghost use Rattle.q_asker.specs.Runs.{Halts, PrintsLost, RunsScript, RunsTo};
ghost use Rattle.q_asker.specs.Runs.{failures_after, failures_halted, is_done_end};
ghost use Rattle.q_asker.specs.Steps.{streams};

use crate::connection::Connection;
use crate::ending::{ClientEnding, print_refusal};
use crate::line::run_line;
use crate::notes::{note_line, note_lost};
use crate::script::{ClientLine, read_client_script};
use crate::step::{Halt, LineEnd};
use q_outside::Counted;
use q_told::{Refusal, RefusalPlace, put_line};
use reasons::Reason;
use std::alloc::Global;
use std::io::{Read, Write};
use std::time::Clock;

/// Prints that the connection failed.
pub(crate) fn print_lost<O: Write>(out: &mut Counted<O>) -> ClientEnding
    ensures written { PrintsLost result (O.contents out.old.inner) (O.contents out.new.inner) }
    ensures counted { out.new.failures ≡ failures_after result out.old.failures }
{
    match put_line(out, Reason::TransportFailed, RefusalPlace::Untold) {
        Ok(()) => ClientEnding::Lost,
        Err(_) => ClientEnding::Unwritten,
    }
}

/// How a run ends that stops at this line, which has this number.
fn halt<O: Write, N: Write>(
    halt: Halt,
    number: u64,
    line: &ClientLine,
    out: &mut Counted<O>,
    notes: &mut N,
) -> ClientEnding
    ensures written { Halts halt result (O.contents out.old.inner) (O.contents out.new.inner) }
    ensures counted { out.new.failures ≡ failures_halted halt result out.old.failures }
{
    match halt {
        Halt::Lost(fault) => {
            note_lost(notes, number, line, fault);
            print_lost(out)
        }
        Halt::Unwritten => ClientEnding::Unwritten,
    }
}

/// Whether no line was refused or is unanswered so far, of which the last ended so.
fn still_clean(clean: bool, end: LineEnd) -> bool
    ensures { result ≡ (is_done_end end && clean) }
{
    match end {
        LineEnd::Done => clean,
        LineEnd::Refused(_) | LineEnd::Unanswered => false,
    }
}

/// Runs lines in turn, and tells them. Their texts are the lines of the source, from which refusals are explained.
pub(crate) fn run_lines<T: Clock, R: Read, W: Write, O: Write, N: Write>(
    rt: &T,
    alloc: Global,
    lines: &[ClientLine],
    source: &str,
    connection: &mut Connection<R, W>,
    out: &mut Counted<O>,
    notes: &mut N,
) -> ClientEnding
    ensures steps { RunsTo lines.now
        (streams R.remaining W.contents O.contents connection.old out.old)
        (streams R.remaining W.contents O.contents connection.new out.new) result }
    ensures counted { out.new.failures ≡ failures_after result out.old.failures }
{
    let mut texts = source.split('\n');
    let mut number: u64 = 0;
    let mut clean = true;
    for line in lines {
        number = number.saturating_add(1);
        let text = texts.next().unwrap_or("");
        match run_line(rt, alloc, line, connection, out) {
            Ok(end) => {
                note_line(alloc, notes, number, text, end);
                clean = still_clean(clean, end);
            }
            Err(halted) => return halt(halted, number, line, out, notes),
        }
    }
    ClientEnding::Done { clean }
}

/// Runs the script that a text spells over a connection: makes the requests of its lines in turn, and prints what the
/// replies tell, each line as it is done. Refused are 9 Syntax, with the least line of another form, before a request
/// is made; 99; and 86 TransportFailed, printed last, where the connection fails. Why lines were refused goes to the
/// notes.
pub fn run_client<T: Clock, R: Read, W: Write, O: Write, N: Write>(
    rt: &T,
    alloc: Global,
    source: &str,
    connection: &mut Connection<R, W>,
    out: &mut Counted<O>,
    notes: &mut N,
) -> ClientEnding
    ensures steps { RunsScript source.now
        (streams R.remaining W.contents O.contents connection.old out.old)
        (streams R.remaining W.contents O.contents connection.new out.new) result }
    ensures counted { out.new.failures ≡ failures_after result out.old.failures }
{
    match read_client_script(alloc, source) {
        Ok(lines) => run_lines(rt, alloc, lines.as_slice(), source, connection, out, notes),
        Err(fault) => print_refusal(Refusal::Script(fault), out),
    }
}
