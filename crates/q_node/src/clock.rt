//! How long something takes.

use std::time::{Clock, Duration, Instant};

/// Whether so long has passed. Where the clock cannot be read, it has.
pub(crate) fn has_passed<R: Clock>(rt: &R, since: Option<Instant>, long: Duration) -> bool {
    match since.map(|since| since.elapsed(rt)) {
        Some(Ok(passed)) => passed >= long,
        Some(Err(_)) | None => true,
    }
}
