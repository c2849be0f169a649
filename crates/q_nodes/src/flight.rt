//! Operations and queries that were begun and are waited for.

use crate::bell::Bell;
use crate::clock::has_passed;
use crate::lock::lock_of;
use crate::outcome::Outcome;
use q_held::LiveNode;
use q_outside::Transport;
use std::alloc::Global;
use std::sync::{Mutex, Wait};
use std::time::{Clock, Duration, Instant};

/// For how long an operation or a query is waited for.
const MOST_SECONDS: u64 = 4;

/// For how long the caller's thread sleeps at most before it looks again.
const NAP_MILLIS: u64 = 50;

/// After so many looks nothing is waited for any longer, also where the clock stands still.
const MOST_LOOKS: u32 = 100_000;

/// What is waited for.
#[derive(Clone, Copy)]
enum Awaited {
    /// The end of the operation with this tag.
    End(u64),
    /// The answer of the query with this number.
    Answer(usize),
}

/// What was begun at a node, and when.
#[derive(Clone, Copy)]
struct Begun {
    node: u64,
    awaited: Awaited,
    since: Option<Instant>,
}

/// What was begun and is waited for, at most so much at once; the bell that is rung when something ended; and the
/// caller's own end, by which it wakes the threads of the nodes. Without one a node finds what it has to send when its
/// patience ends.
#[derive(Drop)]
pub(crate) struct Flight<'a, T> {
    most: usize,
    begun: Vec<Begun>,
    bell: &'a Bell,
    end: Option<T>,
}

impl<'a, T: Transport + Drop> Flight<'a, T> {
    /// Nothing was begun.
    pub(crate) fn new(alloc: Global, most: usize, bell: &'a Bell, end: Option<T>) -> Self {
        Flight {
            most,
            begun: Vec::new(alloc),
            bell,
            end,
        }
    }

    /// Wakes the thread of a node by an empty datagram.
    pub(crate) fn wake(&mut self, node: u64) {
        if let Some(end) = &mut self.end {
            let _ = end.send(node, &[]);
        }
    }

    /// Wakes the threads of so many nodes.
    pub(crate) fn wake_all(&mut self, nodes: u64) {
        for known in 0..nodes {
            self.wake(known + 1);
        }
    }

    /// After a call at a node, which came to this: wakes the node's thread if something began, and waits until there is
    /// room for more. Where memory runs out for it, it is not waited for.
    pub(crate) fn join<R: Wait + Clock>(
        &mut self,
        rt: &R,
        locks: &[Mutex<LiveNode<'_>>],
        node: u64,
        outcome: &Outcome,
    ) {
        let awaited = match outcome {
            Outcome::Stored(tag) => Awaited::End(*tag),
            Outcome::Asked(query) => Awaited::Answer(*query),
            Outcome::Refused(_) | Outcome::Registered(_) => return,
        };
        let since = Instant::now(rt).ok();
        let _ = self.begun.push(Begun {
            node,
            awaited,
            since,
        });
        self.wake(node);
        self.await_fewer(rt, locks, self.most);
    }

    /// Waits until less than this is waited for.
    pub(crate) fn await_fewer<R: Wait + Clock>(
        &mut self,
        rt: &R,
        locks: &[Mutex<LiveNode<'_>>],
        many: usize,
    ) {
        for _ in 0..MOST_LOOKS {
            // The bell is read before the books, so what ends later ends the sleep.
            let rung = self.bell.rings();
            self.begun.retain(|begun| !is_settled(rt, locks, begun) && !is_late(rt, begun));
            if self.begun.len() < many {
                break;
            }
            self.bell
                .await_ring(rt, rung, Duration::from_millis(NAP_MILLIS));
        }
    }
}

/// Whether the operation has ended, or the answer stands. The results that wait for the node of a query are taken.
fn is_settled<R: Wait>(rt: &R, locks: &[Mutex<LiveNode<'_>>], begun: &Begun) -> bool {
    let Some(held) = lock_of(locks, begun.node) else {
        return true;
    };
    let mut held = held.lock(rt);
    match begun.awaited {
        Awaited::End(tag) => !held.book.is_open(tag),
        Awaited::Answer(query) => {
            let _ = held.pump();
            !matches!(held.book.answer(query), Ok(None))
        }
    }
}

/// Whether it was waited for long enough.
fn is_late<R: Clock>(rt: &R, begun: &Begun) -> bool {
    match begun.since {
        Some(since) => has_passed(rt, since, Duration::from_secs(MOST_SECONDS)),
        None => false,
    }
}
