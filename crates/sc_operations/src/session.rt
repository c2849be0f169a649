//! An operation, and its phases.

ghost use Rattle.std.specs.Prelude.{◌≡◌, OnOk, OnErr, option_copied};
ghost use Rattle.sc_operations.specs.declared.session.Session.TheVariants as session;
ghost use Rattle.std.specs.FinSet as set;
ghost use Rattle.sc_operations.specs.Sessions.{new_phase, back_begun, count_sender, is_reached, kind_of, query_of, back_of, open_phase, counted, with_counted, advanced_by, apply, ended_with};

use crate::progress::{Advance, Ended, OpResult, Progress};
use sc_members::IdSet;
use sc_view::{Stored, View};
use std::alloc::{AllocError, Global};
use std::mem;

/// What an operation is for.
#[derive(Clone, Copy, Debug, PartialEq, Eq)]
pub enum OperationKind {
    /// The value that is stored, and its number.
    Store(Stored),
    /// A view is collected.
    Collect,
}

/// A phase ends when so many different senders are counted.
#[derive(Drop)]
pub struct Phase {
    /// How many senders it waits for.
    pub threshold: u64,
    /// The senders that were counted so far.
    pub counted: IdSet,
}

/// The view that an operation stores, or stores back, and the phase that waits for its acknowledgements.
#[derive(Drop)]
pub struct StoreBack {
    /// The view.
    pub view: View,
    /// The phase of its acknowledgements.
    pub phase: Phase,
}

/// An operation. A store stores from its beginning. A collect begins with its query phase, whose counted senders it
/// keeps, and stores back once that phase has ended.
pub enum Session {
    /// A store: the value with its number, and who acknowledged the view that has it.
    Store {
        /// The value with its number.
        stored: Stored,
        /// The view that has the value, and who acknowledged it.
        back: StoreBack,
    },
    /// A collect whose replies are counted.
    Querying(Phase),
    /// A collect that stores back what it learned: its query phase, and who acknowledged what is stored back.
    StoringBack {
        /// The query phase, which has ended.
        query: Phase,
        /// What is stored back, and who acknowledged it.
        back: StoreBack,
    },
}

impl Drop for Session {
    // By hand, so that it is proved here alone, and not in each crate that drops one.
    fn drop(self) {
        match self {
            Session::Store { stored: _, back: _ } => {}
            Session::Querying(_) => {}
            Session::StoringBack { query: _, back: _ } => {}
        }
    }
}

impl Phase {
    /// A phase that begins, and has counted nobody.
    pub fn new(alloc: Global, threshold: u64) -> Phase
        ensures { result ≡ new_phase threshold }
    {
        Phase {
            threshold,
            counted: IdSet::new(alloc),
        }
    }

    /// Counts the sender, once. At Err the phase is as it was.
    pub fn count(&mut self, sender: u64) -> Result<(), AllocError>
        ensures ok { OnOk result (self.new ≡ count_sender self.old sender) }
        ensures err { OnErr result (self.new ≡ self.old) }
    {
        self.counted.insert(sender)
    }

    /// Whether the phase ends once this sender is counted. Takes no memory.
    pub fn is_reached_with(&self, sender: u64) -> bool
        ensures { result ≡ is_reached (count_sender self.now sender) }
    {
        self.threshold <= self.counted.len_with(sender) as u64
    }
}

impl StoreBack {
    // The view is stored, or stored back, and nobody acknowledged it yet.
    pub(crate) fn new(alloc: Global, view: View, threshold: u64) -> StoreBack
        ensures { result ≡ back_begun view threshold }
    {
        StoreBack {
            view,
            phase: Phase::new(alloc, threshold),
        }
    }
}

impl Session {
    /// A store that begins.
    pub fn store(alloc: Global, stored: Stored, view: View, threshold: u64) -> Session
        ensures { result ≡ session.Store stored (back_begun view threshold) }
    {
        Session::Store {
            stored,
            back: StoreBack::new(alloc, view, threshold),
        }
    }

    /// A collect that begins.
    pub fn collect(alloc: Global, threshold: u64) -> Session
        ensures { result ≡ session.Querying (new_phase threshold) }
    {
        Session::Querying(Phase::new(alloc, threshold))
    }

    /// Whether it stores or collects.
    pub fn kind(&self) -> OperationKind
        ensures { result ≡ kind_of self.now }
    {
        match self {
            Session::Store { stored, .. } => OperationKind::Store(*stored),
            Session::Querying(_) | Session::StoringBack { .. } => OperationKind::Collect,
        }
    }

    /// The query phase of a collect.
    pub fn query(&self) -> Option<&Phase>
        ensures { option_copied result ≡ query_of self.now }
    {
        match self {
            Session::Store { .. } => None,
            Session::Querying(query) | Session::StoringBack { query, .. } => Some(query),
        }
    }

    /// What is stored, or stored back, once it is.
    pub fn back(&self) -> Option<&StoreBack>
        ensures { option_copied result ≡ back_of self.now }
    {
        match self {
            Session::Querying(_) => None,
            Session::Store { back, .. } | Session::StoringBack { back, .. } => Some(back),
        }
    }

    /// The phase in which it counts now.
    pub fn open_phase(&self) -> &Phase
        ensures { result.now ≡ open_phase self.now }
    {
        match self {
            Session::Querying(query) => query,
            Session::Store { back, .. } | Session::StoringBack { back, .. } => &back.phase,
        }
    }

    /// Moves the operation by a progress whose sender was counted elsewhere. Takes no memory.
    pub fn advance(&mut self, alloc: Global, progress: Progress, counted: IdSet)
        requires { counted ≡ set.insert (open_phase self.old).counted progress.sender }
        ensures { self.new ≡ apply progress self.old }
    {
        let Advance::Turned { threshold, view } = progress.advance else {
            self.replace_counted(counted);
            return;
        };
        if let Session::Querying(query) = self {
            let query = Phase {
                threshold: query.threshold,
                counted,
            };
            let back = StoreBack::new(alloc, view, threshold);
            *self = Session::StoringBack { query, back };
        }
    }

    // Counts the sender where an answer moves the operation. At Err the operation is as it was.
    pub(crate) fn take(
        &mut self,
        alloc: Global,
        sender: u64,
        advance: Advance,
    ) -> Result<(), AllocError>
        ensures ok { OnOk result (self.new ≡ advanced_by sender advance self.old) }
        ensures err { OnErr result (self.new ≡ self.old) }
    {
        let Advance::Turned { threshold, view } = advance else {
            return self.count(sender);
        };
        if let Session::Querying(query) = self {
            query.count(sender)?;
            let back = StoreBack::new(alloc, view, threshold);
            let query = mem::replace(query, Phase::new(alloc, threshold));
            *self = Session::StoringBack { query, back };
        }
        Ok(())
    }

    // Counts the sender in the phase that is open.
    fn count(&mut self, sender: u64) -> Result<(), AllocError>
        ensures ok { OnOk result (self.new ≡ counted self.old sender) }
        ensures err { OnErr result (self.new ≡ self.old) }
    {
        match self {
            Session::Querying(query) => query.count(sender),
            Session::Store { back, .. } => back.phase.count(sender),
            Session::StoringBack { back, .. } => back.phase.count(sender),
        }
    }

    // What it ends with under its tag, where it is stored or stored back.
    pub(crate) fn into_ended(self, tag: u64) -> Option<Ended>
        ensures { result ≡ ended_with tag self }
    {
        let what = match self {
            Session::Store { stored: _, back: _ } => OpResult::Stored,
            Session::Querying(_) => return None,
            Session::StoringBack { query: _, back } => OpResult::Returned(back.view),
        };
        Some(Ended { tag, what })
    }

    // These are counted in the phase that is open.
    fn replace_counted(&mut self, counted: IdSet)
        ensures { self.new ≡ with_counted self.old counted }
    {
        match self {
            Session::Querying(query) => query.counted = counted,
            Session::Store { back, .. } => back.phase.counted = counted,
            Session::StoringBack { back, .. } => back.phase.counted = counted,
        }
    }
}
