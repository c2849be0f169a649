ghost use Rattle.std.specs.Prelude.{◌≡◌, ◌↔◌, true, IsTrue, option_copied};
ghost use Rattle.sc_view.specs.Views.{HasValuesWithin, has_values_within};
ghost use Rattle.sc_msg.specs.Lengths.{view_of, fits, Fits};
ghost use Rattle.sc_msg.specs.Values.{value_lengths};

use crate::version::Version;
use sc_members::Facts;
use sc_view::{VALUE_LENGTH, View};
use std::alloc::AllocError;

/// The most bytes of a message that are read. No message is written with more than 57,629.
pub const MOST_MESSAGE_BYTES: usize = 60_000;

/// What the sender of a [`Body::EnterEcho`] knows.
#[derive(Drop)]
pub struct EnterEcho {
    /// The node that enters.
    pub to: u64,
    /// Whether the sender has joined.
    pub joined: bool,
    /// Who entered, joined and left, as the sender knows.
    pub facts: Facts,
    /// The sender's view.
    pub view: View,
}

/// What the sender of a [`Body::Store`] stores.
#[derive(Drop)]
pub struct Store {
    /// Its operation.
    pub tag: u64,
    /// The view that it stores.
    pub view: View,
}

/// What the sender of a [`Body::StoreAck`] has learned.
#[derive(Drop, Clone, Copy)]
pub struct StoreAck {
    /// The node whose store it is.
    pub to: u64,
    /// The operation of that node.
    pub tag: u64,
}

/// What the sender of a [`Body::CollectReply`] knows.
#[derive(Drop)]
pub struct CollectReply {
    /// The node that collects.
    pub to: u64,
    /// The operation of that node.
    pub tag: u64,
    /// The sender's view.
    pub view: View,
}

/// What a message says.
#[derive(Drop)]
pub enum Body {
    /// The sender enters.
    Enter,
    /// Tells an entering node what the sender knows, and whether the sender has joined.
    EnterEcho(EnterEcho),
    /// The sender has joined.
    Join,
    /// A node has joined, as the sender heard.
    JoinEcho { about: u64 },
    /// The sender leaves.
    Leave,
    /// A node leaves, as the sender heard.
    LeaveEcho { about: u64 },
    /// The view that an operation of the sender stores, or stores back.
    Store(Store),
    /// The sender has learned what that operation of the node stores.
    StoreAck(StoreAck),
    /// What the sender knows after a store.
    StoreEcho { view: View },
    /// An operation of the sender asks for views.
    CollectQuery { tag: u64 },
    /// The sender's view, for that operation of the node.
    CollectReply(CollectReply),
}

/// A message, which is sent to all.
pub struct Message {
    /// The id of the sender.
    pub from: u64,
    /// What it says.
    pub body: Body,
}

impl Drop for Message {
    // By hand, so that it is proved here alone, and not in each crate that drops one.
    fn drop(self) {
        let Message { from: _, body: _ } = self;
    }
}

impl Body {
    /// The view that the message tells, if it tells one.
    pub fn view(&self) -> Option<&View>
        ensures { option_copied result ≡ view_of self.now }
    {
        match self {
            Body::EnterEcho(echo) => Some(&echo.view),
            Body::Store(store) => Some(&store.view),
            Body::StoreEcho { view } => Some(view),
            Body::CollectReply(reply) => Some(&reply.view),
            _ => None,
        }
    }
}

impl Message {
    /// Whether the message can be written in that version: each value has 48 bytes in the first, 0 to 112 in the
    /// second, where every message can. Takes no memory.
    pub fn fits(&self, version: Version) -> bool
        ensures told { result ≡ fits version self.now }
        ensures each { IsTrue result ↔ Fits version self.now }
    {
        match self.body.view() {
            Some(view) => view_fits(view, version),
            None => true,
        }
    }

    /// A law of every message: it can be written in the second version, and the test finds so.
    pub fn fits_second(&self)
        ensures told { fits Version.Second self.now ≡ true }
        ensures each { Fits Version.Second self.now }
    {
        let Some(view) = self.body.view() else {
            return;
        };
        view.values_are_short();
    }
}

// Whether each value of a view has a length of that version.
fn view_fits(view: &View, version: Version) -> bool
    ensures told { result ≡ has_values_within (value_lengths version) view.now }
    ensures each { IsTrue result ↔ HasValuesWithin (value_lengths version) view.now }
{
    match version {
        Version::First => view.has_values_within(VALUE_LENGTH, VALUE_LENGTH),
        Version::Second => {
            view.values_are_short();
            true
        }
    }
}

impl Clone for EnterEcho {
    ghost is_clone = { λ echo copy. copy ≡ echo };

    fn clone(&self) -> Result<EnterEcho, AllocError> {
        Ok(EnterEcho {
            to: self.to,
            joined: self.joined,
            facts: self.facts.clone()?,
            view: self.view.clone()?,
        })
    }
}

impl Clone for Store {
    ghost is_clone = { λ store copy. copy ≡ store };

    fn clone(&self) -> Result<Store, AllocError> {
        Ok(Store {
            tag: self.tag,
            view: self.view.clone()?,
        })
    }
}

impl Clone for CollectReply {
    ghost is_clone = { λ reply copy. copy ≡ reply };

    fn clone(&self) -> Result<CollectReply, AllocError> {
        Ok(CollectReply {
            to: self.to,
            tag: self.tag,
            view: self.view.clone()?,
        })
    }
}

impl Clone for Body {
    ghost is_clone = { λ body copy. copy ≡ body };

    fn clone(&self) -> Result<Body, AllocError> {
        Ok(match self {
            Body::Enter => Body::Enter,
            Body::EnterEcho(echo) => Body::EnterEcho(echo.clone()?),
            Body::Join => Body::Join,
            Body::JoinEcho { about } => Body::JoinEcho { about: *about },
            Body::Leave => Body::Leave,
            Body::LeaveEcho { about } => Body::LeaveEcho { about: *about },
            Body::Store(store) => Body::Store(store.clone()?),
            Body::StoreAck(ack) => Body::StoreAck(*ack),
            Body::StoreEcho { view } => Body::StoreEcho {
                view: view.clone()?,
            },
            Body::CollectQuery { tag } => Body::CollectQuery { tag: *tag },
            Body::CollectReply(reply) => Body::CollectReply(reply.clone()?),
        })
    }
}

impl Clone for Message {
    ghost is_clone = { λ message copy. copy ≡ message };

    fn clone(&self) -> Result<Message, AllocError> {
        Ok(Message {
            from: self.from,
            body: self.body.clone()?,
        })
    }
}
