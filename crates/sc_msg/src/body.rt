//! The body of each kind of message, read field by field.

ghost use Rattle.std.specs.Prelude.{◌≡◌, ◌≤◌, ◌<◌, ◌^◌, ◌++◌, length, Some, IfOk, IfErr, OnOk};
ghost use Rattle.sc_msg.specs.Fields.{slots, IsFieldsFault, OrMemory};
ghost use Rattle.sc_msg.specs.Messages.{head_bytes, ReadsBody};
ghost use Rattle.sc_msg.specs.Fault.{head_fault, most_bytes};

use crate::fault::MessageFault;
use crate::kind::MessageKind;
use crate::message::{Body, CollectReply, EnterEcho, MOST_MESSAGE_BYTES, Store, StoreAck};
use crate::reader::Reader;
use crate::version::Version;
use std::alloc::Global;

impl<'a> Reader<'a> {
    /// The kind of the message, and its sender.
    pub(crate) fn head(&mut self, version: Version) -> Result<(MessageKind, u64), MessageFault>
        ensures small { OnOk result (length self.old.rest.now ≤ most_bytes) }
        ensures fits { IfOk result (λ x. x.1 < 2 ^ 64) }
        ensures parts { IfOk result (λ x. self.old.rest.now ≡ head_bytes version x.0 x.1 ++ self.new.rest.now) }
        ensures fault { IfErr result (λ e. head_fault version self.old.rest.now ≡ Some e) }
    {
        if self.rest.len() > MOST_MESSAGE_BYTES {
            return Err(MessageFault::TooLong);
        }
        if self.rest.len() < 12 {
            return Err(MessageFault::Short);
        }
        let [0x42, 0x51, third, code, rest @ ..] = self.rest else {
            return Err(MessageFault::BadHead);
        };
        if *third != version.byte() {
            return Err(MessageFault::BadHead);
        }
        let Some(kind) = MessageKind::of_byte(*code) else {
            return Err(MessageFault::BadKind);
        };
        self.rest = rest;
        let from = self.number()?;
        Ok((kind, from))
    }

    fn enter_echo(&mut self, alloc: Global, version: Version) -> Result<Body, MessageFault>
        ensures body { IfOk result (ReadsBody version MessageKind.EnterEcho self.old.rest.now self.new.rest.now) }
        ensures fault { IfErr result (OrMemory (IsFieldsFault (slots version MessageKind.EnterEcho) self.old.rest.now)) }
    {
        let to = self.number()?;
        let joined = self.flag()?;
        let facts = self.facts(alloc)?;
        let view = self.view(alloc, version)?;
        Ok(Body::EnterEcho(EnterEcho {
            to,
            joined,
            facts,
            view,
        }))
    }

    fn store(&mut self, alloc: Global, version: Version) -> Result<Body, MessageFault>
        ensures body { IfOk result (ReadsBody version MessageKind.Store self.old.rest.now self.new.rest.now) }
        ensures fault { IfErr result (OrMemory (IsFieldsFault (slots version MessageKind.Store) self.old.rest.now)) }
    {
        let tag = self.number()?;
        let view = self.view(alloc, version)?;
        Ok(Body::Store(Store { tag, view }))
    }

    fn store_ack(&mut self, version: Version) -> Result<Body, MessageFault>
        ensures body { IfOk result (ReadsBody version MessageKind.StoreAck self.old.rest.now self.new.rest.now) }
        ensures fault { IfErr result (OrMemory (IsFieldsFault (slots version MessageKind.StoreAck) self.old.rest.now)) }
    {
        let to = self.number()?;
        let tag = self.number()?;
        Ok(Body::StoreAck(StoreAck { to, tag }))
    }

    fn collect_reply(&mut self, alloc: Global, version: Version) -> Result<Body, MessageFault>
        ensures body { IfOk result (ReadsBody version MessageKind.CollectReply self.old.rest.now self.new.rest.now) }
        ensures fault { IfErr result (OrMemory (IsFieldsFault (slots version MessageKind.CollectReply) self.old.rest.now)) }
    {
        let to = self.number()?;
        let tag = self.number()?;
        let view = self.view(alloc, version)?;
        Ok(Body::CollectReply(CollectReply { to, tag, view }))
    }

    /// The body of a message of this kind.
    pub(crate) fn body(
        &mut self,
        alloc: Global,
        version: Version,
        kind: MessageKind,
    ) -> Result<Body, MessageFault>
        ensures body { IfOk result (ReadsBody version kind self.old.rest.now self.new.rest.now) }
        ensures fault { IfErr result (OrMemory (IsFieldsFault (slots version kind) self.old.rest.now)) }
    {
        match kind {
            MessageKind::Enter => Ok(Body::Enter),
            MessageKind::EnterEcho => self.enter_echo(alloc, version),
            MessageKind::Join => Ok(Body::Join),
            MessageKind::JoinEcho => {
                let about = self.number()?;
                Ok(Body::JoinEcho { about })
            }
            MessageKind::Leave => Ok(Body::Leave),
            MessageKind::LeaveEcho => {
                let about = self.number()?;
                Ok(Body::LeaveEcho { about })
            }
            MessageKind::Store => self.store(alloc, version),
            MessageKind::StoreAck => self.store_ack(version),
            MessageKind::StoreEcho => {
                let view = self.view(alloc, version)?;
                Ok(Body::StoreEcho { view })
            }
            MessageKind::CollectQuery => {
                let tag = self.number()?;
                Ok(Body::CollectQuery { tag })
            }
            MessageKind::CollectReply => self.collect_reply(alloc, version),
        }
    }
}
