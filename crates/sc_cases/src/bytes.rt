//! Lines about messages as bytes.

use crate::views::first_byte;
use crate::words::{BytesLine, Question};
use crate::{changed, laws};
use sc_decode::decode_as;
use sc_members::Facts;
use sc_msg::{Body, Message, MessageFault, Version, encode, encode_v1};
use sc_view::View;
use std::alloc::Global;
use std::io;

fn tell_view(rt: &impl Print, view: &View) -> io::Result<()> {
    for (id, stored) in view.records() {
        let byte = first_byte(stored);
        print!(rt; " value {id} {} {byte}", stored.number())?;
    }
    Ok(())
}

fn tell_facts(rt: &impl Print, facts: &Facts) -> io::Result<()> {
    print!(rt;
        " entered {} joined {} left {}",
        facts.entered().len(),
        facts.joined().len(),
        facts.left().len()
    )
}

fn tell_body(rt: &impl Print, body: &Body) -> io::Result<()> {
    match body {
        Body::Enter | Body::Join | Body::Leave => Ok(()),
        Body::EnterEcho(echo) => {
            print!(rt;
                " to {}{}",
                echo.to,
                if echo.joined { " joined" } else { "" }
            )?;
            tell_facts(rt, &echo.facts)?;
            tell_view(rt, &echo.view)
        }
        Body::JoinEcho { about } | Body::LeaveEcho { about } => print!(rt; " about {about}"),
        Body::Store(store) => {
            print!(rt; " tag {}", store.tag)?;
            tell_view(rt, &store.view)
        }
        Body::StoreAck(ack) => print!(rt; " to {} tag {}", ack.to, ack.tag),
        Body::StoreEcho { view } => tell_view(rt, view),
        Body::CollectQuery { tag } => print!(rt; " tag {tag}"),
        Body::CollectReply(reply) => {
            print!(rt; " to {} tag {}", reply.to, reply.tag)?;
            tell_view(rt, &reply.view)
        }
    }
}

/// The bytes of the message in that version.
fn written(alloc: Global, version: Version, message: &Message) -> Option<Vec<u8>> {
    match version {
        Version::First => encode_v1(alloc, message).ok(),
        Version::Second => encode(alloc, message).ok(),
    }
}

/// Whether the message is written as these bytes.
pub(crate) fn is_written(alloc: Global, version: Version, message: &Message, bytes: &[u8]) -> bool {
    match written(alloc, version, message) {
        Some(written) => written.as_slice() == bytes,
        None => false,
    }
}

/// Whether a copy of the message is written as these bytes.
fn is_kept(alloc: Global, version: Version, message: &Message, bytes: &[u8]) -> bool {
    match message.clone() {
        Ok(copy) => is_written(alloc, version, &copy, bytes),
        Err(_) => false,
    }
}

fn tell_message(rt: &impl Print, message: &Message, is_kept: bool) -> io::Result<()> {
    print!(rt; " {} from {}", message.kind().name(), message.from)?;
    tell_body(rt, &message.body)?;
    println!(rt; "{}", if is_kept { "" } else { " written otherwise" })
}

fn refuse(rt: &impl Print, fault: MessageFault) -> io::Result<()> {
    println!(rt; " refused {}", fault.reason())
}

/// The bytes of these hexadecimal digits.
pub(crate) fn bytes_of(alloc: Global, digits: &str) -> Option<Vec<u8>> {
    hex::decode(alloc, digits).ok()
}

/// What the message of these bytes says in that version, or why they are none.
fn tell_bytes(rt: &impl Print, alloc: Global, version: Version, bytes: &[u8]) -> io::Result<()> {
    match decode_as(alloc, version, bytes) {
        Ok(message) => {
            let is_kept = is_kept(alloc, version, &message, bytes);
            tell_message(rt, &message, is_kept)
        }
        Err(fault) => refuse(rt, fault),
    }
}

/// What is asked about the bytes that these digits spell, if they do.
pub(crate) fn tell(rt: &impl Print, alloc: Global, line: BytesLine<'_>) -> io::Result<()> {
    let BytesLine {
        question,
        version,
        digits,
    } = line;
    let Some(mut bytes) = bytes_of(alloc, digits) else {
        return println!(rt; " no digits");
    };
    let bytes = bytes.as_mut_slice();
    match question {
        Question::Message => tell_bytes(rt, alloc, version, bytes),
        Question::Beginnings => changed::tell_beginnings(rt, alloc, version, bytes),
        Question::Changed(count) => changed::tell_changed(rt, alloc, version, count, bytes),
        Question::Again => laws::tell_again(rt, alloc, version, bytes),
    }
}
