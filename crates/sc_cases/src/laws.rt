//! Laws, and calls that go both ways.
//!
//! - `laws`: each law is called.
//! - `again VERSION HEX`, of which [`crate::bytes`] reads the bytes: what is written of the message that they spell in
//!   that version, and its sender once it was written and read again.
//! - `forms`: what a view and a sorted map reply to the same commands.

use crate::{lengths, memory};
use sc_decode::decode_as;
use sc_decode::laws::{read_and_written, written_and_read};
use sc_msg::laws::{
    first_fits_second, one_fault, one_spelling, spelled_has_no_fault, spelled_is_small,
};
use sc_msg::{EncodeFault, Message, MessageFault, Version};
use sc_node::laws::{
    collect_keeps_lengths, delivery_keeps_lengths, leave_keeps_lengths, new_nodes_have_no_value,
    store_keeps_lengths,
};
use sc_view::form::{Command, Reply, ViewForm, run};
use sc_view::laws::{
    merge_has_the_newest, merge_is_idempotent, merge_is_least_upper_bound,
    merge_takes_the_larger_number, order_is_partial,
};
use sc_view::{SortedView, Stored, VALUE_LENGTH, Value, View};
use sc_world::laws::regular;
use std::alloc::{AllocError, Global};
use std::io;

fn laws_of_views() {
    merge_has_the_newest();
    merge_takes_the_larger_number();
    order_is_partial();
    merge_is_least_upper_bound();
    merge_is_idempotent();
}

fn laws_of_messages() {
    one_spelling();
    one_fault();
    spelled_has_no_fault();
    spelled_is_small();
    first_fits_second();
}

fn laws_of_lengths() {
    new_nodes_have_no_value();
    store_keeps_lengths();
    collect_keeps_lengths();
    leave_keeps_lengths();
    delivery_keeps_lengths();
}

fn laws(rt: &impl Print) -> io::Result<()> {
    laws_of_views();
    laws_of_messages();
    laws_of_lengths();
    regular();
    println!(rt; " called")
}

/// The sender of a message that was written in that version and read again.
fn sender_after(alloc: Global, version: Version, message: &Message) -> Result<u64, EncodeFault> {
    let again = written_and_read(alloc, version, message)?;
    Ok(again.from)
}

fn tell_sender(rt: &impl Print, sender: Result<u64, EncodeFault>) -> io::Result<()> {
    match sender {
        Ok(id) => println!(rt; " from {id}"),
        Err(fault) => println!(rt; " refused {}", fault.reason()),
    }
}

fn refuse(rt: &impl Print, fault: MessageFault) -> io::Result<()> {
    println!(rt; " refused {}", fault.reason())
}

fn tell_written(rt: &impl Print, alloc: Global, version: Version, bytes: &[u8]) -> io::Result<()> {
    match read_and_written(alloc, version, bytes) {
        Ok(written) => println!(rt; " {}", hex::encode(alloc, written.as_slice())?),
        Err(fault) => refuse(rt, fault),
    }
}

fn tell_read(rt: &impl Print, alloc: Global, version: Version, bytes: &[u8]) -> io::Result<()> {
    match decode_as(alloc, version, bytes) {
        Ok(message) => tell_sender(rt, sender_after(alloc, version, &message)),
        Err(fault) => refuse(rt, fault),
    }
}

/// What is written of the message that these bytes spell in that version, and its sender once it was read again.
pub(crate) fn tell_again(
    rt: &impl Print,
    alloc: Global,
    version: Version,
    bytes: &[u8],
) -> io::Result<()> {
    tell_written(rt, alloc, version, bytes)?;
    tell_read(rt, alloc, version, bytes)
}

fn stored(number: u64) -> Option<Stored> {
    Stored::new(number, Value::from(&[7; VALUE_LENGTH]))
}

/// What the other view is told first.
fn told(newest: Stored, first: Stored) -> [Command; 2] {
    [Command::Put(1, newest), Command::Put(2, first)]
}

fn asked(newer: Stored, first: Stored) -> [Command; 7] {
    [
        Command::Put(1, newer),
        Command::Get(1),
        Command::Merge,
        Command::Get(1),
        Command::Get(2),
        Command::Get(3),
        Command::Put(2, first),
    ]
}

/// What a form replies.
fn replies_of<V: ViewForm + Drop>(
    alloc: Global,
    mut view: V,
    mut other: V,
    told: &[Command],
    asked: &[Command],
) -> Result<Vec<Reply>, AllocError> {
    let _told = run(alloc, &mut other, &mut view, told)?;
    run(alloc, &mut view, &mut other, asked)
}

/// The number of what is known, where it is what was put under that number.
fn tell_known(rt: &impl Print, known: &Stored) -> io::Result<()> {
    match stored(known.number()) {
        Some(put) if put == *known => print!(rt; " {}", known.number()),
        _ => print!(rt; " changed"),
    }
}

fn tell_reply(rt: &impl Print, reply: &Reply) -> io::Result<()> {
    match reply {
        Reply::Known(Some(known)) => tell_known(rt, known),
        Reply::Known(None) => print!(rt; " none"),
        Reply::Learned(Ok(())) => print!(rt; " learned"),
        Reply::Learned(Err(fault)) => print!(rt; " refused {}", fault.reason()),
    }
}

fn tell_replies(rt: &impl Print, replies: &[Reply]) -> io::Result<()> {
    for reply in replies {
        tell_reply(rt, reply)?;
    }
    println!(rt; "")
}

fn tell_alike(rt: &impl Print, replies: &[Reply], others: &[Reply]) -> io::Result<()> {
    tell_replies(rt, replies)?;
    println!(rt;
        "{}",
        if replies == others {
            " alike"
        } else {
            " not alike"
        }
    )
}

fn tell_forms(
    rt: &impl Print,
    alloc: Global,
    told: &[Command],
    asked: &[Command],
) -> io::Result<()> {
    let replies = replies_of(alloc, View::new(alloc), View::new(alloc), told, asked)?;
    let others = replies_of(
        alloc,
        SortedView::new(alloc),
        SortedView::new(alloc),
        told,
        asked,
    )?;
    tell_alike(rt, replies.as_slice(), others.as_slice())
}

fn forms(rt: &impl Print, alloc: Global) -> io::Result<()> {
    match (stored(1), stored(2), stored(3)) {
        (Some(first), Some(newer), Some(newest)) => {
            tell_forms(rt, alloc, &told(newest, first), &asked(newer, first))
        }
        _ => println!(rt; " no number"),
    }
}

/// What a line about these asks for, or about lengths of values. Another line is left as it is.
pub(crate) fn tell(rt: &impl Print, alloc: Global, words: &[&str]) -> io::Result<()> {
    match words {
        ["laws"] => laws(rt),
        ["forms"] => forms(rt, alloc),
        ["memory", name] => memory::tell(rt, alloc, name),
        ["fits", count] => lengths::tell_fits(rt, alloc, count),
        ["lengths", least, most, counts @ ..] => lengths::tell(rt, alloc, (least, most), counts),
        _ => Ok(()),
    }
}
