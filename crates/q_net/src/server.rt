//! Requests, one after the other.

ghost use Rattle.std.specs.Prelude.{◌≡◌};
ghost use Rattle.q_net.specs.Replies.{stop_number};
ghost use Rattle.q_outside.specs.Counts.{Counts};
ghost use Rattle.q_net.specs.Serves.{IsEnd, IsTurn};

use crate::incoming::{Incoming, read_next};
use crate::replies::Reply;
use crate::request::StreamEnd;
use crate::served::reply;
use q_book::Book;
use q_outside::{Counted, TransportFailed};
use reasons::Reason;
use sc_msg::{Message, Version};
use std::alloc::Global;
use std::io::{Read, Write};
use std::sync::Wait;

/// The number at which requests stop.
fn number_of(stop: StreamEnd) -> u8
    ensures { result ≡ stop_number stop }
{
    let reason = match stop {
        StreamEnd::Unknown => Reason::BadRequest,
        StreamEnd::Cut => Reason::CutRequest,
        StreamEnd::LongText => Reason::TooLong,
        StreamEnd::LongNotes => Reason::NoteForm,
    };
    reason.number()
}

/// Reads the next request, to a book of that version, and replies to it: whether requests go on.
fn take_turn<R: Read, W: Write>(
    alloc: Global,
    version: Version,
    book: &mut Book,
    input: &mut Counted<R>,
    out: &mut Counted<W>,
    sent: &mut Vec<Message>,
) -> Result<bool, TransportFailed>
    ensures turn { IsTurn version (R.remaining input.old.inner) (R.remaining input.new.inner)
        (W.contents out.old.inner) (W.contents out.new.inner) book.old book.new sent.old.items sent.new.items result }
    ensures counted { Counts result input.old.failures input.new.failures out.old.failures out.new.failures }
{
    match read_next(alloc, version, input)? {
        Incoming::End => Ok(false),
        Incoming::Ended(stop) => {
            Reply::Refused(number_of(stop)).write(out)?;
            Ok(false)
        }
        Incoming::Lost => {
            Reply::Refused(99).write(out)?;
            Ok(true)
        }
        Incoming::Whole(request) => {
            reply(alloc, book, &request, sent).write(out)?;
            Ok(true)
        }
    }
}

/// Answers the requests of a client until they end, and puts the messages of the book behind those that were sent. A
/// request may be answered 99, and then changes nothing. Refused with 86 TransportFailed where a read or a write fails:
/// then the requests before it were served whole, and the one at hand whole or not at all.
pub fn serve<T: Wait, R: Read, W: Write>(
    rt: &T,
    alloc: Global,
    book: &mut Book,
    input: &mut Counted<R>,
    out: &mut Counted<W>,
    sent: &mut Vec<Message>,
) -> Result<(), TransportFailed>
    // What was read, what was written, and what became of the book and of the messages that were sent.
    ensures served { IsEnd result (R.remaining input.old.inner) (R.remaining input.new.inner)
        (W.contents out.old.inner) (W.contents out.new.inner) book.old book.new sent.old.items sent.new.items }

    // Nothing failed, or just one read or one write did.
    ensures counted { Counts result input.old.failures input.new.failures out.old.failures out.new.failures }
{
    let version = book.version();
    for _ in rt.forever() {
        if !take_turn(alloc, version, book, input, out, sent)? {
            return Ok(());
        }
    }
    unreachable!()
}
