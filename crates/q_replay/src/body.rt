//! The bodies of events by their kinds.

ghost use Rattle.std.specs.Prelude.{◌≡◌, ◌⊎◌, length, IfOk, IfErr, OnErr};
ghost use Rattle.q_replay.specs.Reading.{IsBody, IsNoBody};

use crate::raw_entry::RawEntry;
use crate::read::ReadFault;
use crate::reader::Reader;
use q_book::read_notes;
use sc_decode::decode_as;
use sc_msg::Version;
use sc_view::{Value, ValueFault};
use std::alloc::Global;

/// An event with an empty body: a leave or a hand-out.
fn bare(kind: u8, reader: &Reader<'_>) -> Result<RawEntry, ReadFault>
    requires { (kind ≡ 1) ⊎ (kind ≡ 6) }
    ensures body { (version : Version) → IfOk result (IsBody version kind reader.now.rest.now) }
    ensures none { OnErr result (length reader.now.rest.now ≡ 0 → ⊥) }
{
    reader.end()?;
    if kind == 1 {
        Ok(RawEntry::Leave)
    } else {
        Ok(RawEntry::HandOut)
    }
}

fn register(alloc: Global, version: Version, reader: &mut Reader<'_>) -> Result<RawEntry, ReadFault>
    ensures body { IfOk result (IsBody version 2 reader.old.rest.now) }
    ensures none { IfErr result (λ e. e ≡ ReadFault.Form → IsNoBody version 2 reader.old.rest.now) }
{
    let length = reader.word()?;
    let spelling = reader.take(length as usize)?;
    let text = bq_insn::decode(alloc, spelling)?;
    let notes = read_notes(alloc, version, reader.rest)?;
    Ok(RawEntry::Register { text, notes })
}

fn ask(reader: &mut Reader<'_>) -> Result<RawEntry, ReadFault>
    ensures body { (version : Version) → IfOk result (IsBody version 3 reader.old.rest.now) }
    ensures none { OnErr result (length reader.old.rest.now ≡ 12 → ⊥) }
{
    let program = reader.word()?;
    let start = reader.last_number()?;
    Ok(RawEntry::Ask { program, start })
}

fn store(version: Version, body: &[u8]) -> Result<RawEntry, ReadFault>
    ensures body { IfOk result (IsBody version 4 body.now) }
    ensures none { IfErr result (λ e. e ≡ ReadFault.Form → IsNoBody version 4 body.now) }
{
    if !version.has_length(body.len()) {
        return Err(ReadFault::Form);
    }
    match Value::new(body) {
        Ok(value) => Ok(RawEntry::Store(value)),
        Err(ValueFault::BadValue) => Err(ReadFault::Form),
    }
}

fn deliver(alloc: Global, version: Version, body: &[u8]) -> Result<RawEntry, ReadFault>
    ensures body { IfOk result (IsBody version 5 body.now) }
    ensures none { IfErr result (λ e. e ≡ ReadFault.Form → IsNoBody version 5 body.now) }
{
    let message = decode_as(alloc, version, body)?;
    Ok(RawEntry::Deliver(message))
}

fn post(reader: &mut Reader<'_>) -> Result<RawEntry, ReadFault>
    ensures body { (version : Version) → IfOk result (IsBody version 7 reader.old.rest.now) }
    ensures none { OnErr result (length reader.old.rest.now ≡ 24 → ⊥) }
{
    let query = reader.number()?;
    let acc = reader.number()?;
    let steps = reader.last_number()?;
    Ok(RawEntry::Post { query, acc, steps })
}

/// The event of this kind that has the body in that version.
#[tactic(auto, using(crate::proofs::Sizes::lengths))]
pub(crate) fn body_of(
    alloc: Global,
    version: Version,
    kind: u8,
    body: &[u8],
) -> Result<RawEntry, ReadFault>
    ensures body { IfOk result (IsBody version kind body.now) }
    ensures none { IfErr result (λ e. e ≡ ReadFault.Form → IsNoBody version kind body.now) }
{
    let mut reader = Reader { rest: body };
    match kind {
        1 | 6 => bare(kind, &reader),
        2 => register(alloc, version, &mut reader),
        3 => ask(&mut reader),
        4 => store(version, body),
        5 => deliver(alloc, version, body),
        7 => post(&mut reader),
        _ => Err(ReadFault::Form),
    }
}
