//! The lines of a node's console.

ghost use Rattle.std.specs.Prelude.{◌≡◌, ℕ, List, OnOk, OnErr};
ghost use Rattle.std.specs.Io.KnownBytes.{Appends};
ghost use Rattle.q_outside.specs.Counts.{count_after};
ghost use Rattle.q_node.specs.Console.{command_of, said_line, status_line, truth};

use crate::status::Status;
use q_desk::{MOST_EVENTS, MOST_QUERIES};
use q_outside::{Counted, Piece, TransportFailed};
use q_told::{RefusalPlace, put_line};
use reasons::Reason;
use std::alloc::Global;
use std::io::Write;

/// What a line of the console asks for.
#[derive(Clone, Copy, Debug, PartialEq, Eq)]
pub enum Command {
    /// `status`: how the node is.
    Status,
    /// `leave`: the node leaves the cluster for good.
    Leave,
    /// `end`: the process ends.
    End,
    /// Any other line.
    Unknown,
}

impl Command {
    /// The command of a line, without the feed at its end.
    pub fn of(line: &[u8]) -> Command
        ensures { command_of line.now result }
    {
        match line {
            b"status" => Command::Status,
            b"leave" => Command::Leave,
            b"end" => Command::End,
            _ => Command::Unknown,
        }
    }
}

/// What the node says to a command.
#[derive(Clone, Copy)]
pub enum Said {
    /// How the node is.
    Status(Status),
    /// It was done.
    Done,
    /// It was refused for this reason.
    Refused(Reason),
}

/// The word of a truth value.
fn truth(value: bool) -> &'static str
    ensures { result.now ≡ truth value }
{
    match value {
        true => "true",
        false => "false",
    }
}

/// Writes the line of a status, piece by piece.
fn put_pieces<W: Write>(out: &mut Counted<W>, status: Status) -> Result<(), TransportFailed>
    ensures written { OnOk result (Appends
        (W.contents out.old.inner) (W.contents out.new.inner) (status_line status)) }
    ensures failed { OnErr result ((part : List ℕ) × Appends
        (W.contents out.old.inner) (W.contents out.new.inner) part) }
    ensures counted { out.new.failures ≡ count_after result out.old.failures }
{
    out.put_all(&[
        Piece::Words("status joined "),
        Piece::Words(truth(status.joined)),
        Piece::Words(" present "),
        Piece::Number(status.present as u64),
        Piece::Words(" events "),
        Piece::Number(status.events as u64),
        Piece::Words(" of "),
        Piece::Number(MOST_EVENTS as u64),
        Piece::Words(" queries "),
        Piece::Number(status.queries as u64),
        Piece::Words(" of "),
        Piece::Number(MOST_QUERIES as u64),
        Piece::Words(" open "),
        Piece::Number(status.underway as u64),
        Piece::Words("\n"),
    ])
}

/// Writes the line of a status in one write, so that nobody reads half of it. Where memory is short, in pieces.
fn put_status<W: Write>(
    alloc: Global,
    out: &mut Counted<W>,
    status: Status,
) -> Result<(), TransportFailed>
    ensures written { OnOk result (Appends
        (W.contents out.old.inner) (W.contents out.new.inner) (status_line status)) }
    ensures failed { OnErr result ((part : List ℕ) × Appends
        (W.contents out.old.inner) (W.contents out.new.inner) part) }
    ensures counted { out.new.failures ≡ count_after result out.old.failures }
{
    let mut line = Counted::new(Vec::new(alloc));
    match put_pieces(&mut line, status) {
        Ok(()) => out.put(line.inner.as_slice()),
        Err(_) => put_pieces(out, status),
    }
}

/// Writes what the node says to a command. Refused with 86 where a write fails; a part may have been written before.
pub fn put_said<W: Write>(
    alloc: Global,
    out: &mut Counted<W>,
    said: Said,
) -> Result<(), TransportFailed>
    ensures written { OnOk result (Appends
        (W.contents out.old.inner) (W.contents out.new.inner) (said_line said)) }
    ensures failed { OnErr result ((part : List ℕ) × Appends
        (W.contents out.old.inner) (W.contents out.new.inner) part) }
    ensures counted { out.new.failures ≡ count_after result out.old.failures }
{
    match said {
        Said::Status(status) => put_status(alloc, out, status),
        Said::Done => out.put(b"ok\n"),
        Said::Refused(reason) => put_line(out, reason, RefusalPlace::Untold),
    }
}
