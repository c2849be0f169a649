//! Requests to bytes.

ghost use Rattle.std.specs.Prelude.{◌≡◌, ◌∷◌, ◌++◌, length, IfOk, OnOk};
ghost use Rattle.spelling.specs.Numbers.{number_bytes};
ghost use Rattle.q_net.specs.Requests.{spelling};

use q_net::Request;
use spelling::{put_u32, put_u64};
use std::alloc::{AllocError, Global};

// After an error the vector may hold a part of what was to be written.

/// The length of a text or of notes in four bytes, and its bytes.
fn push_blob(out: &mut Vec<u8>, bytes: &[u8]) -> Result<(), AllocError>
    ensures { OnOk result (out.new.items ≡ out.old.items ++ (number_bytes 4 (length bytes.now) ++ bytes.now)) }
{
    let Ok(len) = u32::try_from(bytes.len()) else {
        return Err(AllocError);
    };
    put_u32(out, len)?;
    out.extend_from_slice(bytes)
}

/// A kind, and bytes behind it.
fn push_behind(out: &mut Vec<u8>, kind: u8, bytes: &[u8]) -> Result<(), AllocError>
    ensures { OnOk result (out.new.items ≡ out.old.items ++ (kind ∷ bytes.now)) }
{
    out.push(kind)?;
    out.extend_from_slice(bytes)
}

fn push_register(out: &mut Vec<u8>, text: &[u8], notes: &[u8]) -> Result<(), AllocError>
    ensures { OnOk result (out.new.items ≡ out.old.items
        ++ (1 ∷ number_bytes 4 (length text.now) ++ (text.now ++ (number_bytes 4 (length notes.now) ++ notes.now)))) }
{
    out.push(1)?;
    push_blob(out, text)?;
    push_blob(out, notes)
}

fn push_ask(out: &mut Vec<u8>, program: u32, start: u64) -> Result<(), AllocError>
    ensures { OnOk result (out.new.items ≡ out.old.items ++ (2 ∷ number_bytes 4 program ++ number_bytes 8 start)) }
{
    out.push(2)?;
    put_u32(out, program)?;
    put_u64(out, start)
}

fn push_answer(out: &mut Vec<u8>, query: u64) -> Result<(), AllocError>
    ensures { OnOk result (out.new.items ≡ out.old.items ++ (4 ∷ number_bytes 8 query)) }
{
    out.push(4)?;
    put_u64(out, query)
}

fn push_store_of(out: &mut Vec<u8>, value: &[u8]) -> Result<(), AllocError>
    ensures { OnOk result (out.new.items ≡ out.old.items ++ (5 ∷ length value.now ∷ value.now)) }
{
    let Ok(len) = u8::try_from(value.len()) else {
        return Err(AllocError);
    };
    out.push(5)?;
    push_behind(out, len, value)
}

fn push_request(out: &mut Vec<u8>, request: &Request) -> Result<(), AllocError>
    ensures { OnOk result (out.new.items ≡ out.old.items ++ spelling request.now) }
{
    match request {
        Request::Register { text, notes } => {
            push_register(out, text.as_slice(), notes.as_slice())
        }
        Request::Ask { program, start } => push_ask(out, *program, *start),
        Request::Store(value) => push_behind(out, 3, value.bytes()),
        Request::Answer(query) => push_answer(out, *query),
        Request::StoreOf(value) => push_store_of(out, value.as_slice()),
    }
}

/// The bytes of a request. The one error is that memory ran out (99 OutOfMemory); the bytes of 4,294,967,296 and more
/// of a text or of notes, which no node takes, count as too many for the memory.
pub fn request_bytes(alloc: Global, request: &Request) -> Result<Vec<u8>, AllocError>
    ensures { IfOk result (λ bytes. bytes.items ≡ spelling request.now) }
{
    let mut out = Vec::new(alloc);
    push_request(&mut out, request)?;
    Ok(out)
}
