//! How long something takes.

use std::time::{Clock, Duration, Instant};

/// Whether so long has passed. Where the clock cannot be read, it has not.
pub fn has_passed<T: Clock>(rt: &T, since: Option<Instant>, long: Duration) -> bool {
    let Some(since) = since else {
        return false;
    };
    match since.elapsed(rt) {
        Ok(passed) => passed >= long,
        Err(_) => false,
    }
}
