//! The conversation at the console.

ghost use Rattle.std.specs.Prelude.{◌≡◌, ◌++◌, ◌∷◌, [], ℕ, List, IfSome, OnOk, OnErr};
ghost use Rattle.std.specs.Io.KnownBytes.{Appends};
ghost use Rattle.q_outside.specs.Counts.{count_after};
ghost use Rattle.q_node.specs.Console.{IsSaid, IsSaidTo};
ghost use Rattle.q_node.specs.Talks.{Greets, Obeys, Talks, Tells, front_text, resumption_text, talk_count};

use crate::console::{Command, Said, put_said};
use crate::front::{Front, Resumption};
use crate::peer::{CONSOLE_SILENCE, Connection, Peer};
use crate::process::Process;
use crate::start::Start;
use crate::talk_end::Talk;
use q_doors::{Post, Stream};
use q_kept::JournalFile;
use q_outside::{Counted, Piece, TransportFailed};
use reasons::Reason;
use std::alloc::Global;
use std::io::{BufRead, BufReader, Eprint, Write};
use std::sync::Wait;
use std::time::Clock;

/// The command of the next line. None at the end of the input, and where that fails: the console is closed then.
fn next_command<C: BufRead>(alloc: Global, console: &mut C) -> Option<Command> {
    let mut line = Vec::new(alloc);
    match console.read_until(b'\n', &mut line) {
        Ok(0) | Err(_) => None,
        Ok(_) => Some(Command::of(line.strip_suffix(b"\n").unwrap_or(line.as_slice()))),
    }
}

/// Leaves the cluster, and sends that.
fn leave<R: Wait, P: Post, J: JournalFile, S: Start>(
    process: &Process<'_, '_, R, P, J, S>,
    alloc: Global,
) -> Said
    ensures { IsSaidTo S.id Command.Leave result }
{
    let left = process.own.lock(process.rt).leave(alloc);
    process.send_settled(left.letters);
    left.said
}

/// Says on the standard error which lines there are.
fn note_lines<R: Eprint>(rt: &R) {
    let _ = eprintln!(rt;
        "A line of the console is 'status', 'leave' or 'end', with no space before or after it."
    );
}

/// Says on the standard error what to do where a leave was refused.
fn note_leave<R: Eprint>(rt: &R, said: Said) {
    match said {
        Said::Refused(Reason::BookFull) => {
            let _ = eprintln!(rt;
                "The journal is full, so the node cannot leave. End it: the others count it as crashed."
            );
        }
        Said::Refused(Reason::Gone) => {
            let _ = eprintln!(rt; "The node has left already. End it.");
        }
        _ => {}
    }
}

/// Does what a command asks, and says what came of it. The command to end has the node's threads end, and nothing is
/// said to it. An unknown line is explained.
fn obey<R: Wait + Eprint, P: Post, J: JournalFile, S: Start>(
    process: &Process<'_, '_, R, P, J, S>,
    alloc: Global,
    command: Command,
) -> Option<Said>
    ensures obeys { Obeys S.id command result }
    ensures said { IfSome result (IsSaid S.id) }
{
    match command {
        Command::End => {
            process.end();
            None
        }
        Command::Status => Some(Said::Status(process.own.lock(process.rt).status())),
        Command::Leave => {
            let said = leave(process, alloc);
            note_leave(process.rt, said);
            Some(said)
        }
        Command::Unknown => {
            note_lines(process.rt);
            Some(Said::Refused(Reason::Syntax))
        }
    }
}

/// Obeys the lines of the console until one of them ends the node or the console is closed, and writes what is said to
/// each. Refused with 86 where a write fails.
fn converse<R: Wait + Eprint, P: Post, J: JournalFile, S: Start, C: BufRead, W: Write>(
    process: &Process<'_, '_, R, P, J, S>,
    alloc: Global,
    console: &mut C,
    out: &mut Counted<W>,
) -> Result<(), TransportFailed>
    ensures said { Tells S.id (W.contents out.old.inner) result (W.contents out.new.inner) }
    ensures counted { out.new.failures ≡ count_after result out.old.failures }
{
    for _ in process.rt.forever() {
        let Some(command) = next_command(alloc, console) else {
            return Ok(());
        };
        match obey(process, alloc, command) {
            Some(said) => match put_said(alloc, out, said) {
                Ok(()) => {}
                Err(fault) => return Err(fault),
            },
            None => return Ok(()),
        }
    }
    unreachable!()
}

/// Obeys the lines that come over a connection to the console, which has this seat, and writes what is said to each
/// over it.
pub(crate) fn serve_console<C, R, P, J, S>(
    process: &Process<'_, '_, R, P, J, S>,
    alloc: Global,
    stream: &C,
    place: usize,
)
where
    C: Stream,
    R: Wait + Clock + Eprint,
    P: Post,
    J: JournalFile,
    S: Start,
{
    let connection = Connection::new(&process.console, stream, place, CONSOLE_SILENCE);
    let mut out = Counted::new(Peer::new(process, &connection));
    if let Ok(mut lines) = BufReader::new(alloc, Peer::new(process, &connection)) {
        let _ = converse(process, alloc, &mut lines, &mut out);
    }
}

/// Obeys the lines of the console in silence, since the output failed.
fn obey_silently<R: Wait + Eprint, P: Post, J: JournalFile, S: Start, C: BufRead>(
    process: &Process<'_, '_, R, P, J, S>,
    alloc: Global,
    console: &mut C,
) {
    for _ in process.rt.forever() {
        let Some(command) = next_command(alloc, console) else {
            break;
        };
        if obey(process, alloc, command).is_none() {
            break;
        }
    }
}

/// Waits until the threads are to end.
fn await_end<R: Wait, P: Post, J: JournalFile, S: Start>(process: &Process<'_, '_, R, P, J, S>) {
    for _ in process.rt.forever() {
        let rung = process.rings();
        if process.is_over() {
            break;
        }
        process.await_ring(rung);
    }
}

/// Waits until all threads run. Whether they do.
fn await_threads<R: Wait, P: Post, J: JournalFile, S: Start>(
    process: &Process<'_, '_, R, P, J, S>,
) -> bool {
    for _ in process.rt.forever() {
        let rung = process.rings();
        if process.has_begun() {
            return true;
        }
        if process.is_over() {
            return false;
        }
        process.await_ring(rung);
    }
    unreachable!()
}

/// Writes how the node comes back, if it does.
fn put_resumption<W: Write>(
    resumption: Option<Resumption>,
    out: &mut Counted<W>,
) -> Result<(), TransportFailed>
    ensures written { OnOk result (Appends (W.contents out.old.inner) (W.contents out.new.inner) (resumption_text resumption)) }
    ensures failed { OnErr result ((part : List ℕ) × Appends (W.contents out.old.inner) (W.contents out.new.inner) part) }
    ensures counted { out.new.failures ≡ count_after result out.old.failures }
{
    match resumption {
        Some(Resumption { events, cut }) => out.put_all(&[
            Piece::Words("resumed "),
            Piece::Number(events as u64),
            Piece::Words(" events cut "),
            Piece::Number(cut as u64),
            Piece::Words(" bytes\n"),
        ]),
        None => out.put(b""),
    }
}

/// Writes how the node comes back, if it does, and where it hears.
fn put_front<W: Write>(front: Front<'_>, out: &mut Counted<W>) -> Result<(), TransportFailed>
    ensures written { OnOk result (Appends (W.contents out.old.inner) (W.contents out.new.inner) (front_text front.entry ++ 10 ∷ [])) }
    ensures failed { OnErr result ((part : List ℕ) × Appends (W.contents out.old.inner) (W.contents out.new.inner) part) }
    ensures counted { out.new.failures ≡ count_after result out.old.failures }
{
    put_resumption(front.resumption, out)?;
    out.put_all(&[Piece::Words(front.greeting), Piece::Words("\n")])
}

/// Writes where the node hears, and then what is said at the console. Refused with 86 where a write fails.
fn greet<R: Wait + Eprint, P: Post, J: JournalFile, S: Start, C: BufRead, W: Write>(
    process: &Process<'_, '_, R, P, J, S>,
    alloc: Global,
    front: Front<'_>,
    console: &mut C,
    out: &mut Counted<W>,
) -> Result<(), TransportFailed>
    ensures said { Greets S.id (front_text front.entry) (W.contents out.old.inner) result (W.contents out.new.inner) }
    ensures counted { out.new.failures ≡ count_after result out.old.failures }
{
    put_front(front, out)?;
    converse(process, alloc, console, out)
}

/// Writes where the node hears once all threads run, and obeys the lines of the console until the node ends; when the
/// console is closed, the node goes on. Where the output fails, the lines are obeyed in silence.
pub(crate) fn hold_talk<R: Wait + Eprint, P: Post, J: JournalFile, S: Start, C: BufRead, W: Write>(
    process: &Process<'_, '_, R, P, J, S>,
    alloc: Global,
    front: Front<'_>,
    console: &mut C,
    out: &mut Counted<W>,
) -> Talk
    ensures said { Talks S.id (front_text front.entry) (W.contents out.old.inner) result (W.contents out.new.inner) }
    ensures counted { out.new.failures ≡ talk_count result out.old.failures }
{
    if !await_threads(process) {
        return Talk::Unstarted;
    }
    let talk = match greet(process, alloc, front, console, out) {
        Ok(()) => Talk::Ended,
        Err(_) => {
            obey_silently(process, alloc, console);
            Talk::Unwritten
        }
    };
    await_end(process);
    talk
}
