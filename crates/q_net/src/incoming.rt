//! The next request of an input.

ghost use Rattle.std.specs.Prelude.{◌≡◌, ◌≤◌, ℕ, List, [], ◌∷◌, ◌++◌, length, IfSome};
ghost use Rattle.spelling.specs.Numbers.{number_bytes};
ghost use Rattle.sc_msg.specs.declared.version.Version.{Version as BookVersion};
ghost use Rattle.q_outside.specs.Counts.{count_after};
ghost use Rattle.q_net.specs.Requests.{GetsNext, most_text, most_notes};

use crate::pieces::{ReadBlob, read_blob, read_byte, read_long, read_short, read_some, read_value};
use crate::request::{Blob, Request, StreamEnd};
use q_outside::{Counted, TransportFailed};
use sc_msg::Version;
use std::alloc::Global;
use std::io::Read;

// The greatest length of a text, in bytes.
const MOST_TEXT: u32 = 32_768;

// The greatest length of notes for a book of that version, in bytes.
fn most_notes(version: Version) -> u32
    ensures { result ≡ most_notes version }
{
    match version {
        Version::First => 770_052,
        Version::Second => 778_244,
    }
}

/// What comes next.
#[derive(Drop)]
pub enum Incoming {
    /// Nothing: the input ends.
    End,
    /// This request.
    Whole(Request),
    /// A registration for whose bytes there was no memory.
    Lost,
    /// None, though the input goes on or ends within one.
    Ended(StreamEnd),
}

/// A length of at most so many bytes, these bytes, and then what is done with them, or where there was no memory for
/// them.
macro_rules! blob {
    ($alloc:expr, $input:expr, $most:expr, $long:expr; $lost:expr, $whole:ident => $then:expr) => {{
        let Some(len) = read_short($input)? else {
            return Ok(Incoming::Ended(StreamEnd::Cut));
        };
        if len > $most {
            return Ok(Incoming::Ended($long));
        }
        match read_blob($alloc, $input, len as usize)? {
            ReadBlob::Cut => Ok(Incoming::Ended(StreamEnd::Cut)),
            ReadBlob::Lost => $lost,
            ReadBlob::Whole($whole) => $then,
        }
    }};
}

/// The request that the next part completes, where the input does not end within it.
macro_rules! completed {
    ($read:expr, $part:ident => $request:expr) => {
        match $read {
            Some($part) => Ok(Incoming::Whole($request)),
            None => Ok(Incoming::Ended(StreamEnd::Cut)),
        }
    };
}

/// The notes behind a text, which is none where there was no memory for it.
fn notes<R: Read>(
    alloc: Global,
    version: Version,
    text: Option<Blob>,
    input: &mut Counted<R>,
) -> Result<Incoming, TransportFailed>
    ensures read { (whole : List ℕ) → length whole ≤ most_text → IfSome text (λ t. t ≡ whole)
        → GetsNext version (1 ∷ number_bytes 4 (length whole) ++ whole) (R.remaining input.old.inner) (R.remaining input.new.inner) result }
    ensures counted { input.new.failures ≡ count_after result input.old.failures }
{
    let most = most_notes(version);
    blob!(alloc, input, most, StreamEnd::LongNotes; Ok(Incoming::Lost), notes => match text {
        Some(text) => Ok(Incoming::Whole(Request::Register { text, notes })),
        None => Ok(Incoming::Lost),
    })
}

/// A registration, behind its kind.
fn register<R: Read>(
    alloc: Global,
    version: Version,
    input: &mut Counted<R>,
) -> Result<Incoming, TransportFailed>
    ensures read { GetsNext version (1 ∷ []) (R.remaining input.old.inner) (R.remaining input.new.inner) result }
    ensures counted { input.new.failures ≡ count_after result input.old.failures }
{
    blob!(alloc, input, MOST_TEXT, StreamEnd::LongText;
        notes(alloc, version, None, input), text => notes(alloc, version, Some(text), input))
}

/// A query, behind its kind.
fn ask<R: Read>(input: &mut Counted<R>) -> Result<Incoming, TransportFailed>
    ensures read { (version : BookVersion) → GetsNext version (2 ∷ []) (R.remaining input.old.inner) (R.remaining input.new.inner) result }
    ensures counted { input.new.failures ≡ count_after result input.old.failures }
{
    let Some(program) = read_short(input)? else {
        return Ok(Incoming::Ended(StreamEnd::Cut));
    };
    let Some(start) = read_long(input)? else {
        return Ok(Incoming::Ended(StreamEnd::Cut));
    };
    Ok(Incoming::Whole(Request::Ask { program, start }))
}

/// A store, behind its kind.
fn store<R: Read>(input: &mut Counted<R>) -> Result<Incoming, TransportFailed>
    ensures read { (version : BookVersion) → GetsNext version (3 ∷ []) (R.remaining input.old.inner) (R.remaining input.new.inner) result }
    ensures counted { input.new.failures ≡ count_after result input.old.failures }
{
    completed!(read_value(input)?, value => Request::Store(value))
}

/// A question for an answer, behind its kind.
fn answer<R: Read>(input: &mut Counted<R>) -> Result<Incoming, TransportFailed>
    ensures read { (version : BookVersion) → GetsNext version (4 ∷ []) (R.remaining input.old.inner) (R.remaining input.new.inner) result }
    ensures counted { input.new.failures ≡ count_after result input.old.failures }
{
    completed!(read_long(input)?, query => Request::Answer(query))
}

/// A store of so many bytes, behind its kind.
fn store_of<R: Read>(input: &mut Counted<R>) -> Result<Incoming, TransportFailed>
    ensures read { (version : BookVersion) → GetsNext version (5 ∷ []) (R.remaining input.old.inner) (R.remaining input.new.inner) result }
    ensures counted { input.new.failures ≡ count_after result input.old.failures }
{
    let Some(len) = read_byte(input)? else {
        return Ok(Incoming::Ended(StreamEnd::Cut));
    };
    completed!(read_some(input, len)?, value => Request::StoreOf(value))
}

/// The next request of an input to a book of that version, or how its requests end.
pub fn read_next<R: Read>(
    alloc: Global,
    version: Version,
    input: &mut Counted<R>,
) -> Result<Incoming, TransportFailed>
    ensures read { GetsNext version [] (R.remaining input.old.inner) (R.remaining input.new.inner) result }
    ensures counted { input.new.failures ≡ count_after result input.old.failures }
{
    let Some(kind) = read_byte(input)? else {
        return Ok(Incoming::End);
    };
    match kind {
        1 => register(alloc, version, input),
        2 => ask(input),
        3 => store(input),
        4 => answer(input),
        5 => store_of(input),
        _ => Ok(Incoming::Ended(StreamEnd::Unknown)),
    }
}
