//! A caller of `q_net`.

ghost use Rattle.std.specs.Prelude.{◌≡◌, length, IfOk, OnOk};
ghost use Rattle.q_net.specs.Serves.{IsServed};

use q_book::Book;
use q_net::serve;
use q_outside::{Counted, TransportFailed};
use sc_msg::Message;
use std::alloc::Global;
use std::io::{Read, Write};
use std::sync::Wait;

/// Serves the requests of a client, from bytes to bytes, and tells how many entries the journal of the book then has.
pub fn serve_client<T: Wait, R: Read, W: Write>(
    rt: &T,
    alloc: Global,
    book: &mut Book,
    input: &mut Counted<R>,
    out: &mut Counted<W>,
    sent: &mut Vec<Message>,
) -> Result<usize, TransportFailed>
    ensures served { OnOk result (IsServed (R.remaining input.old.inner) (R.remaining input.new.inner)
        (W.contents out.old.inner) (W.contents out.new.inner) book.old book.new sent.old.items sent.new.items) }
    ensures entries { IfOk result (λ entries. entries ≡ length book.new.desk.journal) }
{
    serve(rt, alloc, book, input, out, sent)?;
    Ok(book.events())
}
