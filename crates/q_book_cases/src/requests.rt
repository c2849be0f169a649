//! Client requests to a founder that is alone, and a founder that took some.

use crate::founder::Founder;
use std::alloc::Global;
use std::sync::Wait;

/// Registers `mov64 r0, r3 / add64 r0, 1 / exit`, with the notes of its three units; asks for query 9.
pub const REGISTER: &str = "\
    0118000000bf3000000000000007000000010000009500000000000000\
    ae0000000300000001108000\
    030000000000000000040100000000000000\
    00ffffffffffffffff000000000000020002000000020000\
    011080010000000000000000ffffffffffffffff\
    030000000000000000040100000000000000\
    00ffffffffffffffff000000000000020002000000020000\
    011080010000000000000000ffffffffffffffff\
    030000000000000000040100000000000000\
    00ffffffffffffffff000000000000020002000000020000\
    040900000000000000";

/// Stores a value of 48 bytes of which the first is 5; asks for query 9.
pub const STORE: &str = "\
    03050000000000000000000000000000000000000000000000\
    000000000000000000000000000000000000000000000000\
    040900000000000000";

/// The replies to these requests; that to the question for query 9 is 54 NoSuchQuery.
const REGISTERED: [u8; 6] = [0, 0, 0, 0, 0, 54];

const BEGUN: [u8; 10] = [0, 0, 0, 0, 0, 0, 0, 0, 0, 54];

/// Serves the stream that these digits spell, to its end. Whether the replies are right then.
fn takes<R: Wait>(rt: &R, founder: &mut Founder, digits: &str, right: &[u8]) -> bool {
    let Ok(stream) = hex::decode(founder.alloc, digits) else {
        return false;
    };
    match founder.serve(rt, stream.as_slice(), None, None) {
        Ok(served) => served.has_ended && served.replies.as_slice() == right,
        Err(_) => false,
    }
}

/// Has the program that counts, and stores a value. Whether both was done.
fn furnish<R: Wait>(rt: &R, founder: &mut Founder) -> bool {
    takes(rt, founder, REGISTER, &REGISTERED)
        && takes(rt, founder, STORE, &BEGUN)
        && founder.settle()
}

/// A founder that has the program that counts, and that stored a value; none where there is none.
pub fn furnished<R: Wait>(rt: &R, alloc: Global) -> Option<Box<Founder>> {
    let mut founder = Founder::new(alloc).ok()?;
    if furnish(rt, &mut founder) {
        Some(founder)
    } else {
        None
    }
}
