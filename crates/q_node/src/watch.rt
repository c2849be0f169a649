//! What the operator of a node has to know while it runs.

ghost use Rattle.std.specs.Prelude.{◌≡◌};

use crate::status::Status;
use q_desk::{MOST_EVENTS, MOST_QUERIES};
use sc_view::MOST_ENTRIES;
use std::io::Eprint;

/// Something that is reported once, after it was first seen.
#[derive(Clone, Copy, PartialEq, Eq)]
enum Once {
    Unseen,
    Seen,
    Reported,
}

impl Once {
    /// It was seen, or not.
    fn see(&mut self, seen: bool) {
        if seen && *self == Once::Unseen {
            *self = Once::Seen;
        }
    }

    /// Whether it is to be reported now. From then on it is not.
    fn take(&mut self) -> bool {
        let is_new = *self == Once::Seen;
        if is_new {
            *self = Once::Reported;
        }
        is_new
    }
}

/// What the operator of a node has to know. Each fact is reported once.
#[derive(Drop)]
pub(crate) struct Watch {
    events: Once,
    queries: Once,
    ids: Once,
    mute: Once,
    altered: Once,
    unjoined: Once,
    /// How many looks found the node not joined.
    looks: u32,
}

/// After how many looks a node that has not joined is reported: ten seconds.
const UNJOINED_LOOKS: u32 = 100;

/// Whether nine tenths of a limit are used.
pub(crate) fn is_nearly_full(used: usize, most: usize) -> bool {
    used >= most - most / 10
}

/// Reports that nine tenths of a limit are used, if that was first seen.
fn report_used<R: Eprint>(rt: &R, once: &mut Once, most: usize, words: &str) {
    if once.take() {
        let _ = eprintln!(rt; "nine tenths of the {most} {words}");
    }
}

impl Watch {
    /// Nothing was seen.
    pub(crate) fn new() -> Watch {
        Watch {
            events: Once::Unseen,
            queries: Once::Unseen,
            ids: Once::Unseen,
            mute: Once::Unseen,
            altered: Once::Unseen,
            unjoined: Once::Unseen,
            looks: 0,
        }
    }

    /// Counts a look that found the node not joined.
    fn count_unjoined(&mut self, joined: bool) {
        if !joined {
            self.looks = self.looks.saturating_add(1);
        }
        self.unjoined.see(!joined && self.looks >= UNJOINED_LOOKS);
    }

    /// Sees how the node is, how many ids its view holds, whether it is mute, and whether this look found that the
    /// journal's file is no longer as the node left it.
    pub(crate) fn look(&mut self, status: Status, ids: usize, is_mute: bool, is_altered: bool) {
        self.count_unjoined(status.joined);
        self.altered.see(is_altered);
        self.events.see(is_nearly_full(status.events, MOST_EVENTS));
        self.queries
            .see(is_nearly_full(status.queries, MOST_QUERIES));
        self.ids.see(is_nearly_full(ids, MOST_ENTRIES));
        self.mute.see(is_mute && self.altered == Once::Unseen);
    }

    /// Writes to the standard error what was first seen at the last look.
    pub(crate) fn report<R: Eprint>(&mut self, rt: &R) {
        report_used(
            rt,
            &mut self.events,
            MOST_EVENTS,
            "events of the journal are used: enter a node under a new id, and leave with this one",
        );
        report_used(
            rt,
            &mut self.queries,
            MOST_QUERIES,
            "queries are used: ask another node, or enter one under a new id",
        );
        report_used(
            rt,
            &mut self.ids,
            MOST_ENTRIES,
            "ids of a view are used: store at nodes that have stored, or found another cluster",
        );
        if self.altered.take() {
            let _ = eprintln!(rt;
                "the journal's file was removed, cut or written by someone else: this node says nothing more, to nodes or to clients; end it, and enter a node under a new id"
            );
        }
        if self.unjoined.take() {
            let _ = eprintln!(rt;
                "this node has not joined after 10 seconds: the part gamma of the nodes has to run, and each of them needs this node's line in its file of the cluster"
            );
        }
        if self.mute.take() {
            let _ = eprintln!(rt;
                "the journal cannot be written: this node says nothing more, to nodes or to clients; end it"
            );
        }
    }
}
