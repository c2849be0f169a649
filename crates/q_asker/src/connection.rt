//! A request to a node, and its reply.

ghost use Rattle.std.specs.Prelude.{◌≡◌, ◌++◌, ℕ, List, Some, IfOk};
ghost use Rattle.q_net.specs.Replies.{reply_bytes};
ghost use Rattle.q_net.specs.declared.replies.Reply.{Reply as Said};
ghost use Rattle.q_asker.specs.Exchanges.{Exchanges};
ghost use Rattle.q_asker.specs.Faults.{reason};
ghost use Rattle.q_asker.specs.Replies.{MayReply};

use crate::bytes::request_bytes;
use crate::replies::{expected, read_reply};
use q_net::{Reply, Request};
use q_outside::Counted;
use reasons::{Reason, told};
use std::alloc::Global;
use std::io::{Read, Write};

/// A connection with a node.
#[derive(Drop)]
pub struct Connection<R, W> {
    /// Where the node's replies are read.
    pub replies: Counted<R>,
    /// Where requests are written.
    pub requests: Counted<W>,
}

/// Why there is no reply.
#[derive(Clone, Copy, Debug)]
pub enum ExchangeFault {
    /// 86: the request was not written whole.
    Unsent,
    /// 86: a read failed, or waited for too long.
    Unheard,
    /// 86: what came is no reply to the request, or the node ended the connection before one was whole.
    NoReply,
    /// 99: there was no memory for the request's bytes. Nothing was sent.
    OutOfMemory,
}

impl ExchangeFault {
    /// The reason by which the fault is told, 86 or 99.
    pub fn reason(self) -> Reason
        ensures { result ≡ reason self }
    {
        told!(self, ExchangeFault: Unsent => TransportFailed, Unheard => TransportFailed,
            NoReply => TransportFailed, OutOfMemory)
    }
}

/// Writes a request, all of its bytes together, and reads its reply. After any fault but 99 the connection is of no use
/// any more.
pub fn exchange<R: Read, W: Write>(
    alloc: Global,
    request: &Request,
    connection: &mut Connection<R, W>,
) -> Result<Reply, ExchangeFault>
    // The request was written, and the reply, which it may have, was read.
    ensures exchanged { Exchanges request.now
        (W.contents connection.old.requests.inner) (W.contents connection.new.requests.inner)
        (R.remaining connection.old.replies.inner) (R.remaining connection.new.replies.inner) result }

    // The reply that stands there is answered, if there is an answer.
    ensures exact { (said : Said) (rest : List ℕ) → MayReply request.now said
        → R.remaining connection.old.replies.inner ≡ Some (reply_bytes said ++ rest)
        → IfOk result (λ heard. heard ≡ said) }
{
    let Ok(bytes) = request_bytes(alloc, request) else {
        return Err(ExchangeFault::OutOfMemory);
    };
    if connection.requests.put(bytes.as_slice()).is_err() {
        return Err(ExchangeFault::Unsent);
    }
    match read_reply(expected(request), &mut connection.replies) {
        Ok(Some(said)) => Ok(said),
        Ok(None) => Err(ExchangeFault::NoReply),
        Err(_) => Err(ExchangeFault::Unheard),
    }
}
