//! Where the events of a journal are, by the lengths that are written in it.

use std::alloc::{AllocError, Global};

/// How many bytes a head has before it says how the node began.
const FIXED: usize = 20;

/// An event of a journal.
#[derive(Clone, Copy)]
pub struct Event {
    /// Its kind.
    pub kind: u8,
    /// Where its first byte is.
    pub start: usize,
    /// Where the byte after it is.
    pub end: usize,
}

/// The byte at this place, or 0.
fn byte_at(bytes: &[u8], at: usize) -> usize {
    *bytes.get(at).unwrap_or(&0) as usize
}

/// The number of this many bytes from this place on, with its lowest byte first.
fn number_at(bytes: &[u8], at: usize, count: usize) -> usize {
    let mut number = 0usize;
    for done in 1..=count {
        let place = at.saturating_add(count.saturating_sub(done));
        number = number
            .saturating_mul(256)
            .saturating_add(byte_at(bytes, place));
    }
    number
}

/// How many bytes the head of a journal has.
pub fn head_length(bytes: &[u8]) -> usize {
    if byte_at(bytes, FIXED) != 0 {
        return FIXED.saturating_add(1);
    }
    let founders = number_at(bytes, FIXED.saturating_add(1), 2);
    FIXED
        .saturating_add(3)
        .saturating_add(founders.saturating_mul(8))
}

/// The event that begins here, if it is whole.
fn event_at(bytes: &[u8], start: usize) -> Option<Event> {
    let kind = *bytes.get(start)?;
    let length = number_at(bytes, start.saturating_add(1), 4);
    let end = start.saturating_add(5).saturating_add(length);
    if end > bytes.len() {
        return None;
    }
    Some(Event { kind, start, end })
}

/// The whole events of a journal, in their order.
pub fn events_of(alloc: Global, bytes: &[u8]) -> Result<Vec<Event>, AllocError> {
    let mut events = Vec::new(alloc);
    let mut at = head_length(bytes);
    for _ in 0..bytes.len() {
        let Some(event) = event_at(bytes, at) else {
            break;
        };
        at = event.end;
        events.push(event)?;
    }
    Ok(events)
}
