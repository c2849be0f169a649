//! Messages to bytes.

ghost use Rattle.std.specs.Prelude.{◌≡◌, ◌≤◌, ◌<◌, ◌^◌, ◌++◌, ◌↔◌, length, All, IfOk, OnOk, IsErrOf};
ghost use Rattle.std.specs.List.{AllByRecursion};
ghost use Rattle.std.specs.FinSet as set;
ghost use Rattle.sc_members.specs.Members.{most_facts};
ghost use Rattle.sc_view.specs.Values.{most_bytes as longest_value};
ghost use Rattle.sc_view.specs.Views.{HasValuesWithin};
ghost use Rattle.spelling.specs.Numbers.{number_bytes};
ghost use Rattle.sc_msg.specs.Values.{length_bytes, value_bytes, value_lengths, IsLength};
ghost use Rattle.sc_msg.specs.Entries.{ids_bytes, stored_bytes, view_bytes, AreIds, AreRecords, IsStored};
ghost use Rattle.sc_msg.specs.Fields.{fields, fields_bytes, facts_fields, IsField};
ghost use Rattle.sc_msg.specs.Messages.{message_bytes, IsMessage};
ghost use Rattle.sc_msg.specs.Fault.{most_bytes, encode_reason};
ghost use Rattle.sc_msg.specs.Lengths.{BodyFits, Fits};

use crate::message::{Body, Message};
use crate::version::Version;
use reasons::{Reason, told};
use sc_members::{Facts, IdSet};
use sc_view::{Stored, Value, View};
use spelling::{put_u16, put_u64};
use std::alloc::{AllocError, Global};

/// Why a message has no bytes.
#[derive(Clone, Copy, Debug, PartialEq, Eq)]
pub enum EncodeFault {
    /// 50: a value of the message has another length than 48.
    BadValue,
    /// 99: memory ran out.
    OutOfMemory,
}

impl EncodeFault {
    /// The reason by which the fault is told, 50 or 99.
    pub fn reason(self) -> Reason
        ensures { result ≡ encode_reason self }
    {
        told!(self, EncodeFault: BadValue, OutOfMemory)
    }
}

impl From<AllocError> for EncodeFault {
    ghost use Rattle.std.specs.Prelude.{◌≡◌};
    ghost use Rattle.sc_msg.specs.declared.encoder.EncodeFault.TheVariants.{OutOfMemory};

    ghost from_gives = { λ _ e. e ≡ OutOfMemory };

    fn from(_error: AllocError) -> Self {
        EncodeFault::OutOfMemory
    }
}

// After an error the vector may hold a part of what was to be written.

fn push_count(out: &mut Vec<u8>, count: usize) -> Result<(), AllocError>
    requires { count < 2 ^ 16 }
    ensures { OnOk result (out.new.items ≡ out.old.items ++ number_bytes 2 count) }
{
    put_u16(out, count as u16)
}

fn push_ids(out: &mut Vec<u8>, ids: &IdSet) -> Result<(), AllocError>
    requires { set.len ids.now ≤ most_facts }
    ensures legal { OnOk result (AreIds ids.now) }
    ensures spelled { OnOk result (out.new.items ≡ out.old.items ++ ids_bytes ids.now) }
{
    push_count(out, ids.len())?;
    for id in ids.iter() {
        put_u64(out, id)?;
    }
    Ok(())
}

fn push_length(out: &mut Vec<u8>, version: Version, count: usize) -> Result<(), AllocError>
    requires { count ≤ longest_value }
    ensures { OnOk result (out.new.items ≡ out.old.items ++ length_bytes version count) }
{
    match version {
        Version::First => Ok(()),
        Version::Second => Ok(out.push(count as u8)?),
    }
}

fn push_value(out: &mut Vec<u8>, version: Version, value: &Value) -> Result<(), AllocError>
    requires { IsLength version (length value.now) }
    ensures bytes { All (λ b. b < 256) value.now }
    ensures spelled { OnOk result (out.new.items ≡ out.old.items ++ value_bytes version value.now) }
{
    let bytes = value.bytes();
    push_length(out, version, bytes.len())?;
    out.extend_from_slice(bytes)
}

fn push_stored(out: &mut Vec<u8>, version: Version, stored: &Stored) -> Result<(), AllocError>
    requires { IsLength version (length stored.now.value) }
    ensures legal { OnOk result (IsStored version stored.now) }
    ensures spelled { OnOk result (out.new.items ≡ out.old.items ++ stored_bytes version stored.now) }
{
    put_u64(out, stored.number())?;
    push_value(out, version, stored.value())
}

fn push_view(out: &mut Vec<u8>, version: Version, view: &View) -> Result<(), AllocError>
    requires { HasValuesWithin (value_lengths version) view.now }
    ensures legal { OnOk result (AreRecords version view.now) }
    ensures spelled { OnOk result (out.new.items ≡ out.old.items ++ view_bytes version view.now) }
{
    push_count(out, view.len())?;
    for (id, stored) in view.records() {
        put_u64(out, id)?;
        push_stored(out, version, stored)?;
    }
    Ok(())
}

fn push_facts(out: &mut Vec<u8>, facts: &Facts) -> Result<(), AllocError>
    ensures legal { OnOk result (AllByRecursion IsField (facts_fields facts.now)) }
    ensures spelled { OnOk result (out.new.items ≡ out.old.items ++ fields_bytes (facts_fields facts.now)) }
{
    push_ids(out, facts.entered())?;
    push_ids(out, facts.joined())?;
    push_ids(out, facts.left())
}

fn push_body(out: &mut Vec<u8>, version: Version, body: &Body) -> Result<(), AllocError>
    requires { BodyFits version body.now }
    ensures legal { OnOk result (AllByRecursion IsField (fields version body.now)) }
    ensures spelled { OnOk result (out.new.items ≡ out.old.items ++ fields_bytes (fields version body.now)) }
{
    match body {
        Body::Enter | Body::Join | Body::Leave => Ok(()),
        Body::EnterEcho(echo) => {
            put_u64(out, echo.to)?;
            out.push(u8::from(echo.joined))?;
            push_facts(out, &echo.facts)?;
            push_view(out, version, &echo.view)
        }
        Body::JoinEcho { about } => put_u64(out, *about),
        Body::LeaveEcho { about } => put_u64(out, *about),
        Body::Store(store) => {
            put_u64(out, store.tag)?;
            push_view(out, version, &store.view)
        }
        Body::StoreAck(ack) => {
            put_u64(out, ack.to)?;
            put_u64(out, ack.tag)
        }
        Body::StoreEcho { view } => push_view(out, version, view),
        Body::CollectQuery { tag } => put_u64(out, *tag),
        Body::CollectReply(reply) => {
            put_u64(out, reply.to)?;
            put_u64(out, reply.tag)?;
            push_view(out, version, &reply.view)
        }
    }
}

/// The bytes of a message in a version that it is known to fit, at most 60,000. They are the only bytes that
/// `decode_as` of `sc_decode` reads in that version as this message. The one error is that memory ran out (99
/// OutOfMemory).
pub fn encode_fitting(
    alloc: Global,
    version: Version,
    message: &Message,
) -> Result<Vec<u8>, AllocError>
    requires { Fits version message.now }
    ensures message { IfOk result (λ bytes. IsMessage version message.now) }
    ensures spelled { IfOk result (λ bytes. bytes.items ≡ message_bytes version message.now) }
    ensures small { IfOk result (λ bytes. length bytes.items ≤ most_bytes) }
{
    let mut out = Vec::new(alloc);
    out.extend_from_slice(&[0x42, 0x51, version.byte(), message.kind().byte()])?;
    put_u64(&mut out, message.from)?;
    push_body(&mut out, version, &message.body)?;
    Ok(out)
}

/// The bytes of a message in version 2, as [`encode_fitting`]: each message has some. The one error is that memory ran
/// out (99 OutOfMemory).
pub fn encode(alloc: Global, message: &Message) -> Result<Vec<u8>, AllocError>
    ensures message { IfOk result (λ bytes. IsMessage Version.Second message.now) }
    ensures spelled { IfOk result (λ bytes. bytes.items ≡ message_bytes Version.Second message.now) }
    ensures small { IfOk result (λ bytes. length bytes.items ≤ most_bytes) }
{
    message.fits_second();
    encode_fitting(alloc, Version::Second, message)
}

/// The bytes of a message in version 1, as [`encode_fitting`].
///
/// Refused with 50 BadValue where a value has another length than 48, and else with 99 OutOfMemory.
pub fn encode_v1(alloc: Global, message: &Message) -> Result<Vec<u8>, EncodeFault>
    ensures message { IfOk result (λ bytes. IsMessage Version.First message.now) }
    ensures spelled { IfOk result (λ bytes. bytes.items ≡ message_bytes Version.First message.now) }
    ensures small { IfOk result (λ bytes. length bytes.items ≤ most_bytes) }
    ensures value { IsErrOf result EncodeFault.BadValue ↔ (Fits Version.First message.now → ⊥) }
{
    if !message.fits(Version::First) {
        return Err(EncodeFault::BadValue);
    }
    Ok(encode_fitting(alloc, Version::First, message)?)
}
