//! The thread of a node.

ghost use Rattle.std.specs.Prelude.{◌≡◌, ◌≤◌, length, IfSome};

use crate::asked::Asked;
use crate::bell::Bell;
use crate::clock::has_passed;
use crate::script::is_node;
use q_desk::Completed;
use q_held::{LiveNode, Unsent, addressee};
use q_outside::Transport;
use sc_msg::{MOST_MESSAGE_BYTES, Message, Version, encode_fitting};
use std::alloc::{AllocError, Global};
use std::sync::atomic::{AtomicBool, Ordering};
use std::sync::{Mutex, Wait};
use std::thread;
use std::time::{Clock, Duration, Instant};

/// The most bytes of a datagram that are looked at: one more than the longest message has, so that none is taken for
/// the start of a longer datagram.
const LOOKED_AT: usize = MOST_MESSAGE_BYTES + 1;

/// A node looks at what its open operations asked this often, since datagrams are lost.
const AGAIN_MILLIS: u64 = 50;

/// How long a thread sleeps whose transport does not wait for a datagram, or fails.
const NAP_MILLIS: u64 = 1;

/// What the thread of a node owns: its transport, and the buffer into which it receives.
#[derive(Drop)]
pub(crate) struct Wire<T> {
    transport: T,
    buffer: Vec<u8>,
}

/// A buffer for each transport. The one error is that memory ran out.
pub(crate) fn wires<T: Transport + Drop>(
    alloc: Global,
    transports: Vec<T>,
) -> Result<Vec<Wire<T>>, AllocError> {
    let mut wires = Vec::new(alloc);
    for transport in transports {
        let buffer = vec![in alloc; 0u8; LOOKED_AT]?;
        wires.push(Wire { transport, buffer })?;
    }
    Ok(wires)
}

/// Sends a datagram to a node. What is not sent is lost.
fn send<T: Transport>(transport: &mut T, to: u64, bytes: &[u8]) -> Unsent {
    match transport.send(to, bytes) {
        Ok(()) => Unsent::none(),
        Err(_) => Unsent::send(),
    }
}

/// Sends a datagram to each of so many nodes, itself among them.
fn send_all<T: Transport>(nodes: u64, transport: &mut T, bytes: &[u8]) -> Unsent {
    let mut unsent = Unsent::none();
    for known in 0..nodes {
        unsent = unsent.and(send(transport, known + 1, bytes));
    }
    unsent
}

/// Sends a datagram to its addressee, if it has one that is a node, and else to all nodes.
fn send_to<T: Transport>(
    nodes: u64,
    transport: &mut T,
    addressee: Option<u64>,
    bytes: &[u8],
) -> Unsent {
    match addressee {
        Some(to) if is_node(nodes, to) => send(transport, to, bytes),
        Some(_) => Unsent::none(),
        None => send_all(nodes, transport, bytes),
    }
}

/// Sends a message to those for whom it is meant, in the version of their books.
fn tell<T: Transport>(
    alloc: Global,
    nodes: u64,
    version: Version,
    transport: &mut T,
    message: &Message,
) -> Unsent {
    if !message.fits(version) {
        return Unsent::message();
    }
    match encode_fitting(alloc, version, message) {
        Ok(bytes) => send_to(nodes, transport, addressee(message), bytes.as_slice()),
        Err(_) => Unsent::message(),
    }
}

/// How many bytes the datagram has that was received, if one was.
fn receive<T: Transport>(transport: &mut T, buffer: &mut [u8]) -> Option<usize>
    ensures fits { IfSome result (λ len. len ≤ length buffer.new) }
    ensures len { length buffer.new ≡ length buffer.old }
{
    transport.receive(buffer).unwrap_or(None)
}

/// The same; a thread whose transport does not wait sleeps for a moment where there is none.
fn await_datagram<R: Clock, T: Transport>(
    rt: &R,
    transport: &mut T,
    buffer: &mut [u8],
) -> Option<usize>
    ensures fits { IfSome result (λ len. len ≤ length buffer.new) }
    ensures len { length buffer.new ≡ length buffer.old }
{
    let start = Instant::now(rt).ok();
    let received = receive(transport, buffer);
    if received.is_none() {
        nap_unless_late(rt, start);
    }
    received
}

/// Sleeps for a moment, unless one has passed.
fn nap_unless_late<R: Clock>(rt: &R, since: Option<Instant>) {
    let moment = Duration::from_millis(NAP_MILLIS);
    let has_waited = since.is_some_and(|since| has_passed(rt, since, moment));
    if !has_waited {
        thread::sleep(rt, moment);
    }
}

/// What came of a datagram: the messages that wait, and whether a store has ended.
#[derive(Drop)]
struct Heard {
    messages: Vec<Message>,
    has_stored: bool,
}

/// Takes a datagram, and then the messages that wait, under the lock. Where a collect has ended its query's job goes to
/// the board.
fn hear<R: Wait>(
    rt: &R,
    alloc: Global,
    held: &Mutex<LiveNode<'_>>,
    asked: &mut Asked,
    datagram: &[u8],
) -> Heard {
    let mut held = held.lock(rt);
    let ended = held.receive(alloc, datagram);
    if ended.is_some() {
        asked.forget_ended(&held.book);
    }
    if let Some(Completed::Returned(_)) = ended {
        let _ = held.pump();
    }
    Heard {
        messages: held.take(alloc),
        has_stored: matches!(ended, Some(Completed::Stored(_))),
    }
}

/// The version of the book, read under the lock.
fn version<R: Wait>(rt: &R, held: &Mutex<LiveNode<'_>>) -> Version {
    held.lock(rt).book.version()
}

/// Counts what was not sent, under the lock.
fn count_unsent<R: Wait>(rt: &R, held: &Mutex<LiveNode<'_>>, unsent: Unsent) {
    if !unsent.is_none() {
        held.lock(rt).count_unsent(unsent);
    }
}

/// Sends the messages, and keeps those that ask for answers.
fn tell_all<T: Transport>(
    alloc: Global,
    nodes: u64,
    version: Version,
    transport: &mut T,
    asked: &mut Asked,
    messages: Vec<Message>,
) -> Unsent {
    let mut unsent = Unsent::none();
    for message in messages {
        unsent = unsent.and(tell(alloc, nodes, version, transport, &message));
        asked.keep(message);
    }
    unsent
}

/// One turn of a node: it waits for a datagram, takes it, and sends what waits. The bell is rung where a store has
/// ended.
fn take_turn<R: Wait + Clock, T: Transport>(
    rt: &R,
    alloc: Global,
    nodes: u64,
    version: Version,
    held: &Mutex<LiveNode<'_>>,
    bell: &Bell,
    asked: &mut Asked,
    wire: &mut Wire<T>,
) {
    let received = await_datagram(rt, &mut wire.transport, wire.buffer.as_mut_slice());
    let len = received.unwrap_or(0);
    let heard = hear(rt, alloc, held, asked, &wire.buffer.as_slice()[..len]);
    if heard.has_stored {
        bell.ring();
    }
    let unsent = tell_all(
        alloc,
        nodes,
        version,
        &mut wire.transport,
        asked,
        heard.messages,
    );
    count_unsent(rt, held, unsent);
}

/// Takes results and hands out jobs, and forgets what was asked by operations that have ended, under the lock.
fn look_through<R: Wait>(rt: &R, held: &Mutex<LiveNode<'_>>, asked: &mut Asked) {
    let mut held = held.lock(rt);
    let _ = held.pump();
    asked.forget_ended(&held.book);
}

/// Sends again what operations that are open asked, where that is due. That it is not sent counts nowhere.
fn ask_again<T: Transport>(
    alloc: Global,
    nodes: u64,
    version: Version,
    transport: &mut T,
    asked: &mut Asked,
) {
    for question in &mut asked.questions {
        if question.is_due() {
            let _ = tell(alloc, nodes, version, transport, &question.message);
        }
    }
}

/// Runs a node until the cluster is over: its thread hears and sends, and sleeps where there is nothing to do.
pub(crate) fn tend<R: Wait + Clock, T: Transport + Drop>(
    rt: &R,
    alloc: Global,
    nodes: u64,
    held: &Mutex<LiveNode<'_>>,
    bell: &Bell,
    over: &AtomicBool,
    mut wire: Wire<T>,
) {
    let version = version(rt, held);
    let mut asked = Asked::none(alloc);
    let mut since = Instant::now(rt).ok();
    for _ in rt.forever() {
        if over.load(Ordering::SeqCst) {
            break;
        }
        take_turn(rt, alloc, nodes, version, held, bell, &mut asked, &mut wire);
        if is_due(rt, since) {
            look_through(rt, held, &mut asked);
            ask_again(alloc, nodes, version, &mut wire.transport, &mut asked);
            since = Instant::now(rt).ok();
        }
    }
}

/// Whether it is time to look.
fn is_due<R: Clock>(rt: &R, since: Option<Instant>) -> bool {
    since.is_none_or(|since| has_passed(rt, since, Duration::from_millis(AGAIN_MILLIS)))
}
