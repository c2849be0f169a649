//! Lines about the lengths of values.

use sc_msg::{Body, Message, encode, encode_v1};
use sc_view::{Stored, Value, View};
use std::alloc::Global;
use std::io;

/// A message that tells this value of its sender.
pub(crate) fn echo_of(alloc: Global, value: Value) -> Option<Message> {
    let mut view = View::new(alloc);
    view.put(1, Stored::new(1, value)?).ok()?;
    Some(Message {
        from: 1,
        body: Body::StoreEcho { view },
    })
}

fn tell_bytes(rt: &impl Print, alloc: Global, message: &Message) -> io::Result<()> {
    print!(rt;
        ", message {}",
        encode(alloc, message).map_or(0, |bytes| bytes.len())
    )?;
    match encode_v1(alloc, message) {
        Ok(bytes) => println!(rt; ", in version 1 {}", bytes.len()),
        Err(fault) => println!(rt; ", in version 1 refused {}", fault.reason()),
    }
}

fn tell_value(rt: &impl Print, alloc: Global, value: Value) -> io::Result<()> {
    print!(rt; " {} bytes", value.bytes().len())?;
    match echo_of(alloc, value) {
        Some(message) => tell_bytes(rt, alloc, &message),
        None => println!(rt; ", no message"),
    }
}

/// The length of a value of so many bytes, 128 at most, and that of a message that tells it.
pub(crate) fn tell(rt: &impl Print, alloc: Global, count: usize) -> io::Result<()> {
    let bytes = [5; 128];
    match Value::new(bytes.get(..count).unwrap_or(&bytes)) {
        Ok(value) => tell_value(rt, alloc, value),
        Err(fault) => println!(rt; " refused {}", fault.reason()),
    }
}
