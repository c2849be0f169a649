//! What a node holds: the newest values that it knows, and the operations that it has open.

ghost use Rattle.std.specs.Prelude.{◌≡◌, Some, IfOk, OnOk, OnErr};
ghost use Rattle.sc_operations.specs.Sessions.{acked, acknowledged, moved};
ghost use Rattle.sc_operations.specs.declared.progress.Advance.TheVariants as Advance;

use crate::progress::{Advance, Ended, Progress};
use crate::sessions::Sessions;
use sc_view::View;
use std::alloc::{AllocError, Global};

/// What a node holds of values and operations.
#[derive(Drop)]
pub struct Holdings {
    /// The newest values that the node knows.
    pub view: View,
    /// The operations that it has open.
    pub sessions: Sessions,
}

/// What an acknowledgement did.
#[derive(Drop)]
pub struct Acknowledged {
    /// The operation that it moved.
    pub progress: Option<Progress>,
    /// The operation that it ended.
    pub ended: Option<Ended>,
}

impl Holdings {
    /// Counts an acknowledgement. At enough of them the operation ends, and a collect gives the view that was stored
    /// back. At Err all is as it was.
    pub fn acknowledge(
        &mut self,
        alloc: Global,
        tag: u64,
        sender: u64,
    ) -> Result<Acknowledged, AllocError>
        ensures told { IfOk result (λ told. told ≡ acknowledged self.old.sessions (acked self.old.sessions sender tag)) }
        ensures ok { OnOk result (self.new ≡ moved self.old.view self.old.sessions (acked self.old.sessions sender tag)) }
        ensures err { OnErr result (self.new ≡ self.old) }
    {
        let Some(phase) = self.sessions.storing(tag) else {
            return Ok(Acknowledged {
                progress: None,
                ended: None,
            });
        };
        if phase.is_reached_with(sender) {
            let ended = self.sessions.end(tag);
            return Ok(Acknowledged {
                progress: Some(Progress {
                    tag,
                    sender,
                    advance: Advance::Ended,
                }),
                ended,
            });
        }
        self.sessions.advance(alloc, tag, sender, Advance::Counted)?;
        Ok(Acknowledged {
            progress: Some(Progress {
                tag,
                sender,
                advance: Advance::Counted,
            }),
            ended: None,
        })
    }

    /// Counts a reply in the query phase, which goes on, and knows the view from now on. At Err all is as it was.
    pub fn count_reply(
        &mut self,
        alloc: Global,
        tag: u64,
        sender: u64,
        view: View,
    ) -> Result<(), AllocError>
        ensures ok { OnOk result (self.new ≡ moved view self.old.sessions (Some (record { tag = tag; sender = sender; advance = Advance.Counted }))) }
        ensures err { OnErr result (self.new ≡ self.old) }
    {
        self.sessions.advance(alloc, tag, sender, Advance::Counted)?;
        self.view = view;
        Ok(())
    }

    /// The query phase ends with this sender's reply: the view is stored back, and known from now on. At Err all is as
    /// it was.
    pub fn turn(
        &mut self,
        alloc: Global,
        tag: u64,
        sender: u64,
        threshold: u64,
        view: View,
    ) -> Result<(), AllocError>
        ensures ok { OnOk result (self.new ≡ moved view self.old.sessions (Some (record { tag = tag; sender = sender; advance = Advance.Turned threshold view }))) }
        ensures err { OnErr result (self.new ≡ self.old) }
    {
        let kept = view.clone()?;
        let turned = Advance::Turned {
            threshold,
            view: kept,
        };
        self.sessions.advance(alloc, tag, sender, turned)?;
        self.view = view;
        Ok(())
    }
}
