//! How long something takes.

use std::time::{Clock, Duration, Instant};

/// Whether so long has passed. Where the clock cannot be read it has not.
pub(crate) fn has_passed<R: Clock>(rt: &R, since: Instant, long: Duration) -> bool {
    match since.elapsed(rt) {
        Ok(passed) => passed >= long,
        Err(_) => false,
    }
}
