//! What the threads of a node share.

ghost use Rattle.std.specs.Prelude.{◌≡◌, IfSome, IsTrue};
ghost use Rattle.q_doors.specs.Books.{HasEnded};
ghost use Rattle.q_doors.specs.Clients.{IsReplyOf};

use crate::entrance::Entrance;
use crate::own::Own;
use crate::start::Start;
use q_doors::Post;
use q_held::Unsent;
use q_kept::{JournalFile, Letter};
use q_net::{Reply, Request};
use q_outside::TransportFault;
use std::alloc::{AllocError, Global};
use std::sync::atomic::{AtomicBool, AtomicU64, Ordering};
use std::sync::{Condvar, Mutex, Wait};
use std::time::Duration;

/// The most milliseconds that a waiting thread sleeps before it looks again.
pub(crate) const NAP: u64 = 100;

/// What the threads of a node share.
#[derive(Drop)]
pub(crate) struct Process<'a, 'b, R, P, J: JournalFile, S: Start> {
    /// The machine.
    pub(crate) rt: &'a R,
    /// The node's socket.
    pub(crate) post: &'a P,
    /// The ids of the cluster's nodes.
    pub(crate) nodes: &'a [u64],
    /// The one lock.
    pub(crate) own: Mutex<Own<'b, J, S>>,
    /// Is rung where an operation has ended, where an answer may have come, and where a thread begins or ends.
    bell: Condvar,
    /// All threads run.
    ready: AtomicBool,
    /// The threads are to end.
    over: AtomicBool,
    /// How many datagrams came from strangers.
    strangers: AtomicU64,
    /// Where clients come in.
    pub(crate) clients: Entrance,
    /// Where the console's lines come in, if they come over connections.
    pub(crate) console: Entrance,
}

/// The entrances of a node: for clients, and for its console.
#[derive(Drop)]
pub(crate) struct Entrances {
    pub(crate) clients: Entrance,
    pub(crate) console: Entrance,
}

/// How many clients are served at once.
const MOST_CLIENTS: usize = 64;

/// How many connections to the console are served at once.
const MOST_CONSOLES: usize = 8;

impl Entrances {
    /// Nobody came in yet.
    pub(crate) fn new(alloc: Global) -> Result<Entrances, AllocError> {
        Ok(Entrances {
            clients: Entrance::new(alloc, MOST_CLIENTS)?,
            console: Entrance::new(alloc, MOST_CONSOLES)?,
        })
    }
}

impl<'a, 'b, R, P, J: JournalFile, S: Start> Process<'a, 'b, R, P, J, S> {
    /// Of a node that was just begun.
    pub(crate) fn new(
        rt: &'a R,
        post: &'a P,
        nodes: &'a [u64],
        own: Own<'b, J, S>,
        entrances: Entrances,
    ) -> Self {
        let Entrances { clients, console } = entrances;
        Process {
            rt,
            post,
            nodes,
            own: Mutex::new(own),
            bell: Condvar::new(),
            ready: AtomicBool::new(false),
            over: AtomicBool::new(false),
            strangers: AtomicU64::new(0),
            clients,
            console,
        }
    }

    /// The threads are to end.
    pub(crate) fn end(&self) {
        self.over.store(true, Ordering::SeqCst);
        self.bell.notify_all();
    }

    /// Whether the threads are to end.
    pub(crate) fn is_over(&self) -> bool {
        self.over.load(Ordering::SeqCst)
    }

    /// All threads run.
    pub(crate) fn begin(&self) {
        self.ready.store(true, Ordering::SeqCst);
        self.bell.notify_all();
    }

    /// Whether all threads ran once.
    pub(crate) fn has_begun(&self) -> bool {
        self.ready.load(Ordering::SeqCst)
    }

    /// Wakes those that wait for an end or an answer.
    pub(crate) fn ring(&self) {
        self.bell.notify_all();
    }

    /// How often that was done.
    pub(crate) fn rings(&self) -> u64 {
        self.bell.notifications()
    }

    /// A datagram came from a stranger.
    pub(crate) fn count_stranger(&self) {
        self.strangers.fetch_add(1, Ordering::SeqCst);
    }

    /// How many did.
    pub(crate) fn strangers(&self) -> u64 {
        self.strangers.load(Ordering::SeqCst)
    }
}

/// What a node's socket did not send.
fn unsent(sent: Result<(), TransportFault>) -> Unsent {
    match sent {
        Ok(()) => Unsent::none(),
        Err(_) => Unsent::send(),
    }
}

impl<R: Wait, P: Post, J: JournalFile, S: Start> Process<'_, '_, R, P, J, S> {
    /// Sleeps until the bell is rung once more than so often, a while at most.
    pub(crate) fn await_ring(&self, rung: u64) {
        self.bell.sleep(self.rt, rung, Duration::from_millis(NAP));
    }

    /// Sends a letter.
    fn send_one(&self, letter: &Letter) -> Unsent {
        match letter.to {
            Some(to) => unsent(self.post.send(to, letter.bytes.as_slice())),
            None => unsent(self.post.send_all(letter.bytes.as_slice())),
        }
    }

    /// Sends letters, while the lock is free.
    pub(crate) fn send(&self, letters: &[Letter]) {
        let mut failed = Unsent::none();
        for letter in letters {
            failed = failed.and(self.send_one(letter));
        }
        if !failed.is_none() {
            self.own.lock(self.rt).count_unsent(failed);
        }
    }

    /// Sends what is to be sent. Whether the journal was written.
    pub(crate) fn send_settled(&self, letters: Option<Vec<Letter>>) -> bool {
        match letters {
            Some(letters) => {
                self.send(letters.as_slice());
                true
            }
            None => false,
        }
    }

    /// Takes a message's bytes, and sends the messages that result.
    pub(crate) fn hear(&self, alloc: Global, bytes: &[u8]) {
        let heard = self.own.lock(self.rt).hear(alloc, bytes);
        self.send_settled(heard.letters);
        if heard.has_ended {
            self.ring();
        }
    }

    /// Carries results and jobs between the board and the book, and sends what waits. Whether the journal was written.
    pub(crate) fn settle(&self, alloc: Global) -> bool {
        let letters = self.own.lock(self.rt).settle(alloc);
        let is_written = self.send_settled(letters);
        self.ring();
        is_written
    }

    /// Does what a request asks: the reply of the node's book. None where the journal is not written.
    pub(crate) fn answer(&self, alloc: Global, request: &Request) -> Option<Reply>
        ensures { IfSome result (IsReplyOf S.id request.now) }
    {
        let answered = self.own.lock(self.rt).answer(alloc, request);
        if self.send_settled(answered.letters) {
            Some(answered.said)
        } else {
            None
        }
    }

    /// Whether the operation with this tag was begun and has ended, and that is written.
    pub(crate) fn has_ended(&self, tag: u64) -> bool
        ensures { IsTrue result → HasEnded S.id tag }
    {
        self.own.lock(self.rt).has_ended(tag)
    }

    /// Whether the node says nothing any more, since a write of its journal failed.
    fn is_mute(&self) -> bool {
        self.own.lock(self.rt).is_mute()
    }

    /// Whether nothing more is to be waited for: the node ends, or it is mute.
    pub(crate) fn is_silent(&self) -> bool {
        self.is_over() || self.is_mute()
    }

    /// Whether a query has its answer, or never will have one.
    pub(crate) fn is_answered(&self, query: u64) -> bool {
        self.own.lock(self.rt).is_answered(query)
    }
}
