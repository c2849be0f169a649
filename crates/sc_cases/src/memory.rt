//! Runs in which each call that is refused for want of memory is made once more: one for each line that begins with
//! `memory`, or that which the program's first word names. Whichever one request for memory is refused, each prints the
//! same.
//!
//! - `memory view`: see [`grown`].
//! - `memory world`: see [`churn`].
//! - `memory node`: the tag of the first store of a founder.
//! - `memory messages`: two messages that are read, copied and written.
//!
//! [`grown`]: crate::grown
//! [`churn`]: crate::churn

use crate::bytes::bytes_of;
use crate::{churn, grown};
use sc_decode::decode_v1;
use sc_members::Config;
use sc_msg::{EncodeFault, Message, MessageFault, encode_v1};
use sc_node::{Node, NodeFault};
use sc_view::{VALUE_LENGTH, Value};
use std::alloc::Global;
use std::io;

/// The tag under which the node begins its next store.
fn next_store(node: &mut Node) -> Result<u64, NodeFault> {
    let begun = node.begin_store(&Value::from(&[7; VALUE_LENGTH]))?;
    Ok(begun.tag)
}

/// The tag under which node 1 of three founders begins its first store.
fn first_store(alloc: Global) -> Result<u64, NodeFault> {
    let mut node = Node::founder(alloc, Config::default(), 1, &[1, 2, 3])?;
    next_store(&mut node)
}

fn first_store_again(alloc: Global) -> Result<u64, NodeFault> {
    match first_store(alloc) {
        Err(NodeFault::OutOfMemory) => first_store(alloc),
        other => other,
    }
}

fn tell_node(rt: &impl Print, alloc: Global) -> io::Result<()> {
    match first_store_again(alloc) {
        Ok(tag) => println!(rt; " tag {tag}"),
        Err(reason) => println!(rt; " refused {reason}"),
    }
}

/// What founder 1 sends for its first store, of a value of the byte 05 and 47 zeros.
const STORE: &str =
    "42510107010000000000000000000000000000000100010000000000000001000000000000000500000000\
    00000000000000000000000000000000000000000000000000000000000000000000000000000000000000";

/// Founder 1 has joined, and tells node 3 that 1 and 3 have entered and 1 has joined, with no view.
const ENTER_ECHO: &str =
    "425101020100000000000000030000000000000001020001000000000000000300000000000000010001\
    0000000000000000000000";

/// Whether the message is written as these bytes.
fn is_written(alloc: Global, message: &Message, bytes: &[u8]) -> Result<bool, MessageFault> {
    match encode_v1(alloc, message) {
        Ok(written) => Ok(written.as_slice() == bytes),
        Err(EncodeFault::OutOfMemory) => Err(MessageFault::OutOfMemory),
        Err(EncodeFault::BadValue) => Ok(false),
    }
}

/// Whether a copy of the message is written as these bytes.
fn is_copied(alloc: Global, message: &Message, bytes: &[u8]) -> Result<bool, MessageFault> {
    match message.clone() {
        Ok(copy) => is_written(alloc, &copy, bytes),
        Err(_) => Err(MessageFault::OutOfMemory),
    }
}

/// Whether the message that bytes spell is copied, and the copy written as them.
fn is_kept(alloc: Global, bytes: &[u8]) -> Result<bool, MessageFault> {
    match decode_v1(alloc, bytes) {
        Ok(message) => is_copied(alloc, &message, bytes),
        Err(fault) => Err(fault),
    }
}

/// The same of bytes in hexadecimal digits.
fn are_kept(alloc: Global, digits: &str) -> Result<bool, MessageFault> {
    match bytes_of(alloc, digits) {
        Some(bytes) => is_kept(alloc, bytes.as_slice()),
        None => Err(MessageFault::OutOfMemory),
    }
}

fn are_kept_again(alloc: Global, digits: &str) -> Result<bool, MessageFault> {
    match are_kept(alloc, digits) {
        Err(MessageFault::OutOfMemory) => are_kept(alloc, digits),
        other => other,
    }
}

fn tell_kept(rt: &impl Print, alloc: Global, digits: &str) -> io::Result<()> {
    match are_kept_again(alloc, digits) {
        Ok(is_kept) => println!(rt;
            "{}",
            if is_kept {
                " kept"
            } else {
                " written otherwise"
            }
        ),
        Err(fault) => println!(rt; " refused {}", fault.reason()),
    }
}

/// The run of this name.
pub(crate) fn tell(rt: &impl Print, alloc: Global, name: &str) -> io::Result<()> {
    match name {
        "view" => grown::tell(rt, alloc),
        "world" => churn::tell(rt, alloc),
        "node" => tell_node(rt, alloc),
        "messages" => {
            tell_kept(rt, alloc, STORE)?;
            tell_kept(rt, alloc, ENTER_ECHO)
        }
        _ => println!(rt; " no run {name}"),
    }
}
