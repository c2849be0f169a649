//! The longest beginning of bytes that is a journal.

ghost use Rattle.std.specs.Prelude.{◌≡◌, ◌<◌, ◌≤◌, ◌-◌, ◌^◌, ◌∷◌, ◌++◌, [], ℕ, List, length, take, IfOk, IfErr, IfSome, IfNone, MatchBool, MatchOption};
ghost use Rattle.spelling.specs.Numbers.{number_bytes};
ghost use Rattle.q_replay.specs.Spelling.{event_bytes, IsWritten};
ghost use Rattle.q_replay.specs.declared.raw_entry.RawEntry.{RawEntry};
ghost use Rattle.q_replay.specs.Replayed.{IsFault};
ghost use Rattle.q_beginning.specs.Beginning.{IsBeginning, IsAfter, IsCut, IsRefused};

use q_book::Book;
use q_replay::laws::{one_event, one_fault, one_head};
use q_replay::{ReplayFault, read_event, read_head, replay};
use sc_msg::Version;
use spelling::{take_byte, take_u32};
use std::alloc::{AllocError, Global};

/// The journal with which some bytes begin.
#[derive(Drop)]
pub struct Journal {
    /// The book of which it is the journal.
    pub book: Book,
    /// How many bytes it has.
    pub kept: usize,
}

/// The longest beginning of the bytes that is a journal. What is left is nothing, or too little for an event.
///
/// Refused with what is wrong first: 57 with event 0 if the bytes do not begin with a whole head; 57 with the number of
/// an event that is whole and of no form; 58 with the number of an event that does not follow, or with 0 if the head is
/// refused. 99 OutOfMemory may come in place of any answer.
pub fn beginning(alloc: Global, bytes: &[u8]) -> Result<Journal, ReplayFault>
    ensures begins { IfOk result (λ j. IsBeginning bytes.now (take j.kept bytes.now) j.book) }
    ensures within { IfOk result (λ j. j.kept ≤ length bytes.now) }

    // Bytes that have such a beginning are refused only where memory runs out.
    ensures refused { IfErr result (IsRefused bytes.now) }
{
    let fault = match replay(alloc, bytes) {
        Ok(book) => {
            return Ok(Journal {
                book,
                kept: bytes.len(),
            });
        }
        Err(fault) => fault,
    };
    one_head();
    one_event();
    one_fault();
    match unread_event(fault) {
        Some(event) => beginning_before(alloc, bytes, event),
        None => Err(fault),
    }
}

/// The event of which bytes with this fault have no form, if it is one.
fn unread_event(fault: ReplayFault) -> Option<usize>
    ensures { MatchOption result
        ((event : ℕ) → 0 < event → fault ≡ ReplayFault.Form event → ⊥)
        (λ event. (0 < event) × (fault ≡ ReplayFault.Form event)) }
{
    match fault {
        ReplayFault::Form { event: 0 } => None,
        ReplayFault::Form { event } => Some(event),
        ReplayFault::Mismatch { .. } | ReplayFault::OutOfMemory => None,
    }
}

/// The same of bytes in which this event is the first of which they have no form.
fn beginning_before(alloc: Global, bytes: &[u8], event: usize) -> Result<Journal, ReplayFault>
    requires some { 0 < event }
    requires is_fault { IsFault bytes.now (ReplayFault.Form event) }
    ensures begins { IfOk result (λ j. IsBeginning bytes.now (take j.kept bytes.now) j.book) }
    ensures within { IfOk result (λ j. j.kept ≤ length bytes.now) }
    ensures refused { IfErr result (IsRefused bytes.now) }
{
    one_head();
    one_event();
    one_fault();
    let Ok(left) = after_events(alloc, bytes, event - 1) else {
        return Err(ReplayFault::OutOfMemory);
    };
    if !is_cut(left) {
        return Err(ReplayFault::Form { event });
    }
    let kept = bytes.len() - left.len();
    // These are a journal: memory alone may be short.
    match replay(alloc, &bytes[..kept]) {
        Ok(book) => Ok(Journal { book, kept }),
        Err(_) => Err(ReplayFault::OutOfMemory),
    }
}

/// The bytes after a head and this many events, if the bytes begin with them. The one error is then that memory ran
/// out.
fn after_events(alloc: Global, bytes: &[u8], count: usize) -> Result<&[u8], AllocError>
    ensures rest { (version : Version) (rest : List ℕ) → IsAfter version bytes.now count rest → IfOk result (λ r. r.now ≡ rest) }
    ensures within { IfOk result (λ r. length r.now ≤ length bytes.now) }
{
    one_head();
    one_event();
    let (version, mut rest) = after_head(alloc, bytes)?;
    for _ in 0..count {
        rest = after_event(alloc, version, rest)?;
    }
    Ok(rest)
}

/// The version of a head, and the bytes after it. The bytes begin with a head, so the one error is that memory ran out.
fn after_head(alloc: Global, bytes: &[u8]) -> Result<(Version, &[u8]), AllocError>
    ensures { IfOk result (λ r. IsAfter r.0 bytes.now 0 r.1.now) }
{
    match read_head(alloc, bytes) {
        Ok((head, rest)) => Ok((head.version, rest)),
        Err(_) => Err(AllocError),
    }
}

/// The bytes after an event of that version. They begin with one, so the one error is that memory ran out.
fn after_event(alloc: Global, version: Version, bytes: &[u8]) -> Result<&[u8], AllocError>
    ensures { IfOk result (λ r. (w : RawEntry) × IsWritten version w × (bytes.now ≡ event_bytes version w ++ r.now)) }
{
    match read_event(alloc, version, bytes) {
        Ok((_event, rest)) => Ok(rest),
        Err(_) => Err(AllocError),
    }
}

/// Whether the bytes are too few for an event.
fn is_cut(bytes: &[u8]) -> bool
    ensures { MatchBool result (IsCut bytes.now) (IsCut bytes.now → ⊥) }
{
    let mut rest = bytes;
    let Some(_kind) = take_byte(&mut rest) else {
        return true;
    };
    match take_u32(&mut rest) {
        Some(told) => rest.len() < told as usize,
        None => true,
    }
}
