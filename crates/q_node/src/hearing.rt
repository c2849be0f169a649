//! The thread that hears.

ghost use Rattle.std.specs.Prelude.{◌≡◌, length};

use crate::process::Process;
use crate::start::Start;
use q_doors::{FRONT, Post, Received};
use q_kept::JournalFile;
use sc_msg::MOST_MESSAGE_BYTES;
use std::alloc::{AllocError, Global};
use std::sync::Wait;
use std::thread;
use std::time::{Clock, Duration};

/// The most bytes of a datagram that are looked at: one more than the longest has, so that none is taken for the start
/// of a longer one.
const LOOKED_AT: usize = FRONT + MOST_MESSAGE_BYTES + 1;

/// For how many milliseconds the thread sleeps where its socket fails.
const PAUSE: u64 = 10;

/// Room for a datagram.
pub(crate) fn new_buffer(alloc: Global) -> Result<Vec<u8>, AllocError> {
    vec![in alloc; 0u8; LOOKED_AT]
}

/// Waits for a datagram, and takes it.
fn hear_one<R: Wait + Clock, P: Post, J: JournalFile, S: Start>(
    process: &Process<'_, '_, R, P, J, S>,
    alloc: Global,
    buffer: &mut [u8],
) {
    match process.post.receive(buffer) {
        Ok(Received::Message(len)) => process.hear(alloc, &buffer[..len]),
        Ok(Received::Stranger) => process.count_stranger(),
        Ok(Received::Nothing) => {}
        Err(_) => thread::sleep(process.rt, Duration::from_millis(PAUSE)),
    }
}

/// Takes datagrams until the threads are to end.
pub(crate) fn hear_all<R: Wait + Clock, P: Post, J: JournalFile, S: Start>(
    process: &Process<'_, '_, R, P, J, S>,
    alloc: Global,
    buffer: &mut [u8],
) {
    for _ in process.rt.forever() {
        if process.is_over() {
            break;
        }
        hear_one(process, alloc, buffer);
    }
}
