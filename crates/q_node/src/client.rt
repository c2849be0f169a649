//! The clients of a node, each served by a thread of its own.

ghost use Rattle.std.specs.Prelude.{◌≡◌, IfSome, IsTrue};
ghost use Rattle.q_doors.specs.Books.{HasEnded};
ghost use Rattle.q_doors.specs.Clients.{IsReplyOf, IsSaid};

use crate::clock::has_passed;
use crate::peer::{CLIENT_SILENCE, Connection, Peer};
use crate::process::Process;
use crate::start::Start;
use q_doors::{Due, Post, Serving, Stream, serve_node};
use q_kept::JournalFile;
use q_net::{Reply, Request};
use q_outside::Counted;
use sc_msg::Version;
use std::alloc::Global;
use std::sync::Wait;
use std::time::{Clock, Duration, Instant};

/// For how many seconds the end of a store is waited for.
const END_PATIENCE: u64 = 10;

/// For how many seconds an answer is waited for.
const ANSWER_PATIENCE: u64 = 1;

/// The node as its clients see it.
#[derive(Drop)]
pub(crate) struct Client<'p, 'a, 'b, R: Wait + Clock, P, J: JournalFile, S: Start> {
    process: &'p Process<'a, 'b, R, P, J, S>,
    version: Version,
}

impl<R: Wait + Clock, P: Post, J: JournalFile, S: Start> Client<'_, '_, '_, R, P, J, S> {
    /// Waits until the operation with this tag has ended. Whether it has.
    fn await_end(&self, tag: u64) -> bool
        ensures { IsTrue result → HasEnded S.id tag }
    {
        let rt = self.process.rt;
        let since = Instant::now(rt).ok();
        for _ in rt.forever() {
            // The bell is read before the book, so what ends later ends the sleep.
            let rung = self.process.rings();
            if self.process.has_ended(tag) {
                return true;
            }
            if self.process.is_silent()
                || has_passed(rt, since, Duration::from_secs(END_PATIENCE))
            {
                return false;
            }
            self.process.await_ring(rung);
        }
        unreachable!()
    }

    /// Waits until a query has its answer, for a while.
    fn await_answer(&self, query: u64) {
        let rt = self.process.rt;
        let since = Instant::now(rt).ok();
        for _ in rt.forever() {
            let rung = self.process.rings();
            if self.process.is_answered(query)
                || self.process.is_silent()
                || has_passed(rt, since, Duration::from_secs(ANSWER_PATIENCE))
            {
                break;
            }
            self.process.await_ring(rung);
        }
    }
}

impl<R: Wait + Clock, P: Post, J: JournalFile, S: Start> Serving
    for Client<'_, '_, '_, R, P, J, S> {
    ghost id = { λ _. S.id };

    ghost version = { λ client. client.version };

    fn version(&self) -> Version {
        self.version
    }

    fn reply(&self, alloc: Global, request: &Request) -> Option<Reply>
        ensures said { IfSome result (IsSaid S.id request.now) }
    {
        let said = self.process.answer(alloc, request)?;
        match Due::of(request, said) {
            Due::AtOnce => Some(said),
            Due::AtEnd(tag) => {
                if self.await_end(tag) {
                    Some(said)
                } else {
                    None
                }
            }
            Due::AtAnswer(query) => {
                self.await_answer(query);
                self.process.answer(alloc, request)
            }
        }
    }
}

/// The version of the node's book, read under the lock.
fn version<R: Wait, P, J: JournalFile, S: Start>(process: &Process<'_, '_, R, P, J, S>) -> Version {
    process.own.lock(process.rt).version()
}

/// Serves a client, who has this seat, until it ends, or its connection fails, or it loses its seat, or the node ends.
pub(crate) fn serve_client<C: Stream, R: Wait + Clock, P: Post, J: JournalFile, S: Start>(
    process: &Process<'_, '_, R, P, J, S>,
    alloc: Global,
    stream: &C,
    place: usize,
) {
    let client = Client {
        process,
        version: version(process),
    };
    let connection = Connection::new(&process.clients, stream, place, CLIENT_SILENCE);
    let mut input = Counted::new(Peer::new(process, &connection));
    let mut out = Counted::new(Peer::new(process, &connection));
    let _ = serve_node(process.rt, alloc, &client, &mut input, &mut out);
}
