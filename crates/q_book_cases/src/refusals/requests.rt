//! Client requests, each of which is made once more where it is answered 99.

use crate::founder::{Founder, Served};
use crate::refusals::again::{again, tell};
use crate::refusals::alone::{found, run_job, settle};
use crate::requests::{REGISTER, STORE};
use std::alloc::{AllocError, Global};
use std::io;
use std::sync::Wait;

/// Stores a value of one byte, whose length is told; asks for query 9.
const SHORT: &str = "\
    050105\
    040900000000000000";

/// Asks program 0 from 7; asks for query 9.
const ASK: &str = "\
    02000000000700000000000000\
    040900000000000000";

/// Asks for the answer of query 0, and of query 9.
const ANSWER: &str = "\
    040000000000000000\
    040900000000000000";

/// The replies where memory was refused for the first request: the question behind it is answered all the same.
const NO_MEMORY: [u8; 2] = [99, 54];

/// The bytes of a stream.
fn stream(alloc: Global, digits: &str) -> Result<Vec<u8>, AllocError> {
    match hex::decode(alloc, digits) {
        Ok(bytes) => Ok(bytes),
        Err(_) => Err(AllocError),
    }
}

/// Serves a stream, and once more where its first request is answered 99; prints `changed` where that did anything.
fn serve_again<W: Wait>(
    rt: &HostRuntime,
    wait: &W,
    founder: &mut Founder,
    stream: &[u8],
) -> io::Result<Result<Served, AllocError>> {
    let events = founder.book.events();
    let first = again!(rt, founder.serve(wait, stream, None, None));
    let messages = match &first {
        Ok(served) if served.replies.as_slice() == NO_MEMORY.as_slice() => served.messages,
        _ => return Ok(first),
    };
    tell(rt);
    if founder.book.events() != events || messages != 0 {
        rt.println("changed")?;
    }
    Ok(again!(rt, founder.serve(wait, stream, None, None)))
}

/// Prints the replies to a stream.
fn print(rt: &HostRuntime, name: &str, replies: &[u8]) -> io::Result<()> {
    print!(rt; "{name} ")?;
    for byte in replies {
        print!(rt; "{byte:02x}")?;
    }
    rt.println("")
}

/// Makes a request, behind which stands a question for a query that there is not, and prints the replies.
fn request<W: Wait>(
    rt: &HostRuntime,
    wait: &W,
    founder: &mut Founder,
    name: &str,
    digits: &str,
) -> io::Result<()> {
    let Ok(bytes) = again!(rt, stream(rt.alloc(), digits)) else {
        return rt.println("no stream");
    };
    match serve_again(rt, wait, founder, bytes.as_slice())? {
        Ok(
            Served {
                replies,
                has_ended: true,
                ..
            },
        ) => print(rt, name, replies.as_slice()),
        Ok(_) | Err(_) => rt.println("no replies"),
    }
}

/// Registers a program, stores a value, asks and is answered, and stores another.
fn request_all<W: Wait>(rt: &HostRuntime, wait: &W, founder: &mut Founder) -> io::Result<()> {
    request(rt, wait, founder, "register", REGISTER)?;
    request(rt, wait, founder, "store", STORE)?;
    settle(rt, founder)?;
    request(rt, wait, founder, "ask", ASK)?;
    request(rt, wait, founder, "answer", ANSWER)?;
    settle(rt, founder)?;
    run_job(rt, founder)?;
    request(rt, wait, founder, "answer", ANSWER)?;
    request(rt, wait, founder, "short store", SHORT)
}

/// Serves requests to a founder.
pub fn run_requests<W: Wait>(rt: &HostRuntime, wait: &W) -> io::Result<()> {
    rt.println("-- client requests")?;
    match found(rt) {
        Some(mut founder) => request_all(rt, wait, &mut founder),
        None => rt.println("no book"),
    }
}
