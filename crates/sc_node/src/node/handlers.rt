//! What a node does at each kind of message, where it has not left.

ghost use Rattle.std.specs.Prelude.{◌≡◌, false, ◌&&◌, is_none, [], Some, None, Ok, IfOk, OnOk, OnErr, if◌then◌else◌};
ghost use Rattle.std.specs.FinSet as set;
ghost use Rattle.forms.specs.Calls.{Steps};
ghost use Rattle.reasons.specs.declared.Reason.TheVariants as reasons;
ghost use Rattle.sc_node.specs.Nodes.{message_from, delivered, echo_for, store_under, learned, joining, echo_counted, saying, gamma_threshold, is_met, query_ended};
ghost use Rattle.sc_msg.specs.declared.message.Body.TheVariants as bodies;

use super::Node;
use crate::answer::{Advance, Delivered};
use crate::copies::Copies;
use crate::node::NodeFault;
use crate::outs::Outs;
use sc_members::Facts;
use sc_msg::{Body, CollectReply, EnterEcho, Store, StoreAck};
use sc_view::View;
use std::alloc::AllocError;

impl Node {
    pub(super) fn on_enter(&mut self, from: u64) -> Result<Delivered, NodeFault>
        requires { self.old.gone ≡ false }
        ensures { Steps reasons.OutOfMemory (delivered self.old (message_from from bodies.Enter)) self.old self.new result }
    {
        let facts = self.facts.with_entered(from)?;
        let echo = self.enter_echo(from, &facts)?;
        self.facts = facts;
        Ok(echo)
    }

    // Tells a node that enters what this one knows, where these are the facts.
    fn enter_echo(&self, to: u64, facts: &Facts) -> Result<Delivered, AllocError>
        ensures { IfOk result (λ told. told ≡ saying self.now.id (bodies.EnterEcho (echo_for self.now to facts.now))) }
    {
        let facts = facts.clone()?;
        let view = self.held.view.clone()?;
        Ok(self.sends(Body::EnterEcho(EnterEcho {
            to,
            joined: self.joined,
            facts,
            view,
        })))
    }

    pub(super) fn on_join(&mut self, from: u64) -> Result<Delivered, NodeFault>
        requires { self.old.gone ≡ false }
        ensures { Steps reasons.OutOfMemory (delivered self.old (message_from from bodies.Join)) self.old self.new result }
    {
        self.facts = self.facts.with_joined(from)?;
        Ok(self.sends(Body::JoinEcho { about: from }))
    }

    pub(super) fn on_join_echo(&mut self, from: u64, about: u64) -> Result<Delivered, NodeFault>
        requires { self.old.gone ≡ false }
        ensures { Steps reasons.OutOfMemory (delivered self.old (message_from from (bodies.JoinEcho about))) self.old self.new result }
    {
        self.facts = self.facts.with_joined(about)?;
        Ok(self.silent())
    }

    pub(super) fn on_leave(&mut self, from: u64) -> Result<Delivered, NodeFault>
        requires { self.old.gone ≡ false }
        ensures { Steps reasons.OutOfMemory (delivered self.old (message_from from bodies.Leave)) self.old self.new result }
    {
        self.facts = self.facts.with_left(from)?;
        Ok(self.sends(Body::LeaveEcho { about: from }))
    }

    pub(super) fn on_leave_echo(&mut self, from: u64, about: u64) -> Result<Delivered, NodeFault>
        requires { self.old.gone ≡ false }
        ensures { Steps reasons.OutOfMemory (delivered self.old (message_from from (bodies.LeaveEcho about))) self.old self.new result }
    {
        self.facts = self.facts.with_left(about)?;
        Ok(self.silent())
    }

    /// Learns the view, and acknowledges it.
    pub(super) fn on_store(&mut self, from: u64, store: &Store) -> Result<Delivered, NodeFault>
        requires { self.old.gone ≡ false }
        ensures { Steps reasons.OutOfMemory (delivered self.old (message_from from (bodies.Store store.now))) self.old self.new result }
    {
        let learned = self.held.view.merged(&store.view)?;
        if !self.joined {
            self.held.view = learned;
            return Ok(self.silent());
        }
        let told = learned.clone()?;
        self.held.view = learned;
        let ack = self.says(Body::StoreAck(StoreAck {
            to: from,
            tag: store.tag,
        }));
        let echo = self.says(Body::StoreEcho { view: told });
        Ok(Delivered::sending(Outs::two(self.alloc, ack, echo)))
    }

    pub(super) fn on_store_echo(&mut self, from: u64, view: &View) -> Result<Delivered, NodeFault>
        requires { self.old.gone ≡ false }
        ensures { Steps reasons.OutOfMemory (delivered self.old (message_from from (bodies.StoreEcho view.now))) self.old self.new result }
    {
        self.held.view = self.held.view.merged(view)?;
        Ok(self.silent())
    }

    /// Tells what it knows.
    pub(super) fn on_collect_query(&mut self, from: u64, tag: u64) -> Result<Delivered, NodeFault>
        requires { self.old.gone ≡ false }
        ensures { Steps reasons.OutOfMemory (delivered self.old (message_from from (bodies.CollectQuery tag))) self.old self.new result }
    {
        if self.joined {
            let view = self.held.view.clone()?;
            return Ok(self.sends(Body::CollectReply(CollectReply {
                to: from,
                tag,
                view,
            })));
        }
        Ok(self.silent())
    }

    pub(super) fn on_enter_echo(
        &mut self,
        from: u64,
        echo: &EnterEcho,
    ) -> Result<Delivered, NodeFault>
        requires { self.old.gone ≡ false }
        ensures { Steps reasons.OutOfMemory (delivered self.old (message_from from (bodies.EnterEcho echo.now))) self.old self.new result }
    {
        if echo.to == self.id && !self.joined {
            return self.on_own_enter_echo(from, echo);
        }
        self.learn(&echo.facts, &echo.view)?;
        Ok(self.silent())
    }

    // Learns facts and a view.
    fn learn(&mut self, facts: &Facts, view: &View) -> Result<(), NodeFault>
        ensures { Steps reasons.OutOfMemory (learned self.old facts.now view.now) self.old self.new result }
    {
        let both = self.held.view.merged(view)?;
        self.facts = self.facts.united(facts)?;
        self.held.view = both;
        Ok(())
    }

    // The echo is for this node, which has not joined. At enough echoes it joins.
    fn on_own_enter_echo(&mut self, from: u64, echo: &EnterEcho) -> Result<Delivered, NodeFault>
        requires own { echo.now.to ≡ self.old.id }
        requires here { self.old.gone ≡ false }
        requires waits { self.old.joined ≡ false }
        ensures { Steps reasons.OutOfMemory (delivered self.old (message_from from (bodies.EnterEcho echo.now))) self.old self.new result }
    {
        let learned = self.held.view.merged(&echo.view)?;
        let heard = self.facts.united(&echo.facts)?;
        let threshold = self.join_threshold_with(echo.joined, &heard);
        if self.is_met_with(threshold, from) {
            return self.join(from, threshold, &heard, learned);
        }
        self.count_echo(from, threshold, heard, learned)?;
        Ok(self.silent())
    }

    // This sender's echo is the last that the node waited for: it joins, and tells it.
    fn join(
        &mut self,
        from: u64,
        threshold: Option<u64>,
        heard: &Facts,
        view: View,
    ) -> Result<Delivered, NodeFault>
        ensures { Steps reasons.OutOfMemory (joining self.old from threshold heard.now view) self.old self.new result }
    {
        let known = heard.with_joined(self.id)?;
        self.count_echo(from, threshold, known, view)?;
        self.joined = true;
        Ok(self.sends(Body::Join))
    }

    // This sender's echo is counted, and the node knows what is said. At Err it is as it was.
    fn count_echo(
        &mut self,
        from: u64,
        threshold: Option<u64>,
        facts: Facts,
        view: View,
    ) -> Result<(), AllocError>
        ensures ok { OnOk result (self.new ≡ echo_counted self.old from threshold facts view) }
        ensures err { OnErr result (self.new ≡ self.old) }
    {
        self.echoes.insert(from)?;
        self.facts = facts;
        self.held.view = view;
        self.join_threshold = threshold;
        Ok(())
    }

    // How many echoes the node waits for once it has this one: the first of a joined node sets it.
    fn join_threshold_with(&self, joined: bool, heard: &Facts) -> Option<u64>
        ensures { result ≡ (if joined && is_none self.now.join_threshold then Some (gamma_threshold self.now heard.now) else self.now.join_threshold) }
    {
        if joined && self.join_threshold.is_none() {
            return Some(self.config.gamma_threshold(heard.present()));
        }
        self.join_threshold
    }

    // Whether enough echoes came once this sender is counted.
    fn is_met_with(&self, threshold: Option<u64>, sender: u64) -> bool
        ensures { result ≡ is_met threshold (set.insert self.now.echoes sender) }
    {
        match threshold {
            Some(threshold) => threshold <= self.echoes.len_with(sender) as u64,
            None => false,
        }
    }

    // The node sends this alone.
    fn sends(&self, body: Body) -> Delivered
        ensures { result ≡ saying self.now.id body }
    {
        Delivered::sending(Outs::one(self.alloc, self.says(body)))
    }

    // The node sends nothing.
    fn silent(&self) -> Delivered
        ensures { result ≡ record { outs = []; progress = None; ended = None } }
    {
        Delivered::sending(Outs::none(self.alloc))
    }

    /// Counts the acknowledgement. At enough of them the operation ends.
    pub(super) fn on_store_ack(&mut self, from: u64, ack: StoreAck) -> Result<Delivered, NodeFault>
        requires { self.old.gone ≡ false }
        ensures { Steps reasons.OutOfMemory (delivered self.old (message_from from (bodies.StoreAck ack))) self.old self.new result }
    {
        if ack.to != self.id {
            return Ok(self.silent());
        }
        let told = self.held.acknowledge(self.alloc, ack.tag, from)?;
        Ok(Delivered {
            outs: Outs::none(self.alloc),
            progress: told.progress,
            ended: told.ended,
        })
    }

    /// Counts the reply, and learns its view. At enough of them the view is stored back.
    pub(super) fn on_collect_reply(
        &mut self,
        from: u64,
        reply: &CollectReply,
    ) -> Result<Delivered, NodeFault>
        requires { self.old.gone ≡ false }
        ensures { Steps reasons.OutOfMemory (delivered self.old (message_from from (bodies.CollectReply reply.now))) self.old self.new result }
    {
        if reply.to != self.id {
            return Ok(self.silent());
        }
        let tag = reply.tag;
        let Some(phase) = self.held.sessions.querying(tag) else {
            return Ok(self.silent());
        };
        let learned = self.held.view.merged(&reply.view)?;
        if phase.is_reached_with(from) {
            return self.store_back(from, tag, learned);
        }
        self.held.count_reply(self.alloc, tag, from, learned)?;
        Ok(Delivered::moving(Outs::none(self.alloc), tag, from, Advance::Counted))
    }

    // Stores back the view, which is the node's from now on: the query phase ends with this sender's reply.
    fn store_back(&mut self, from: u64, tag: u64, view: View) -> Result<Delivered, NodeFault>
        ensures { Steps reasons.OutOfMemory (Ok (query_ended self.old from tag view)) self.old self.new result }
    {
        let threshold = self.beta_threshold();
        let copies = Copies::of(&view)?;
        self.held.turn(self.alloc, tag, from, threshold, view)?;
        let Copies { shown, told } = copies;
        let store = self.says(Body::Store(Store { tag, view: told }));
        let turned = Advance::Turned {
            threshold,
            view: shown,
        };
        Ok(Delivered::moving(Outs::one(self.alloc, store), tag, from, turned))
    }
}
