//! The lines that replies tell.

ghost use Rattle.std.specs.Prelude.{◌≡◌, ℕ, List, OnOk, OnErr};
ghost use Rattle.std.specs.Io.KnownBytes.{Appends};
ghost use Rattle.q_outside.specs.Counts.{count_after};
ghost use Rattle.q_told.specs.Line.{line_of};
ghost use Rattle.reasons.specs.Table as table;
ghost use Rattle.reasons.specs.declared.Reason.{Reason as Why};
ghost use Rattle.q_asker.specs.Replies.{IsRefusal, MayReply};
ghost use Rattle.q_asker.specs.Steps.{Tells, number_word, query_of};

use crate::replies::reason_of;
use q_net::{Reply, Request};
use q_outside::{Counted, Piece, TransportFailed};
use q_told::{RefusalPlace, put_line};
use std::io::Write;

/// The word before a number that a request is replied to.
fn number_word(request: &Request) -> &'static str
    ensures { result.now ≡ number_word request.now }
{
    match request {
        Request::Ask { .. } => "query",
        _ => "store",
    }
}

/// The query whose answer a request asks for; 0 of a request that asks for none.
fn query_of(request: &Request) -> u64
    ensures { result ≡ query_of request.now }
{
    match request {
        Request::Answer(query) => *query,
        _ => 0,
    }
}

/// Writes the line of a refusal by its number.
fn put_refused<O: Write>(out: &mut Counted<O>, number: u8) -> Result<(), TransportFailed>
    requires { IsRefusal number }
    ensures written { OnOk result ((why : Why) × (table.number why ≡ number)
        × Appends (O.contents out.old.inner) (O.contents out.new.inner) (line_of why RefusalPlace.Untold)) }
    ensures failed { OnErr result ((part : List ℕ) × Appends
        (O.contents out.old.inner) (O.contents out.new.inner) part) }
    ensures counted { out.new.failures ≡ count_after result out.old.failures }
{
    let Some(reason) = reason_of(number) else {
        unreachable!()
    };
    put_line(out, reason, RefusalPlace::Untold)
}

/// Writes what the reply to a request tells: a line, or nothing where a query has no answer yet.
pub fn put_told<O: Write>(
    out: &mut Counted<O>,
    request: &Request,
    said: Reply,
) -> Result<(), TransportFailed>
    requires { MayReply request.now said }
    ensures written { OnOk result ((text : List ℕ) × Tells request.now said text
        × Appends (O.contents out.old.inner) (O.contents out.new.inner) text) }
    ensures failed { OnErr result ((part : List ℕ) × Appends
        (O.contents out.old.inner) (O.contents out.new.inner) part) }
    ensures counted { out.new.failures ≡ count_after result out.old.failures }
{
    match said {
        Reply::Program(program) => out.put_all(&[
            Piece::Words("program "),
            Piece::Number(u64::from(program)),
            Piece::Words("\n"),
        ]),
        Reply::Number(number) => out.put_all(&[
            Piece::Words(number_word(request)),
            Piece::Words(" "),
            Piece::Number(number),
            Piece::Words("\n"),
        ]),
        Reply::Open => out.put(b""),
        Reply::Answer { acc, steps } => out.put_all(&[
            Piece::Words("answer "),
            Piece::Number(query_of(request)),
            Piece::Words(" "),
            Piece::Number(acc),
            Piece::Words(" "),
            Piece::Number(steps),
            Piece::Words("\n"),
        ]),
        Reply::Refused(number) => put_refused(out, number),
    }
}
