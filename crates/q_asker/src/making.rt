//! The requests that lines make.

ghost use Rattle.std.specs.Prelude.{◌≡◌, ◌<◌, length, IfErr, IfOk, MatchOption};
ghost use Rattle.q_told.specs.Programs.{IsRefusal};
ghost use Rattle.q_asker.specs.Makes.{IsRegistration, most_value};
ghost use Rattle.q_net.specs.declared.request.Request.TheVariants as request;

use q_net::{Blob, Request, Short};
use q_told::{Refusal, certified_code};
use std::alloc::Global;

/// The request that registers the program of these bytes, with the notes that the verifier finds for records of 16 to
/// 128 bytes. Refused is what decoding and then verifying refuse, or 99.
pub fn registration(alloc: Global, code: &[u8]) -> Result<Request, Refusal>
    ensures made { IfOk result (IsRegistration code.now) }
    ensures refused { IfErr result (IsRefusal code.now) }
{
    let program = certified_code(alloc, code)?;
    let notes = program.certified().notes().bytes(alloc)?;
    let text = Vec::from_slice(alloc, code)?;
    Ok(Request::Register {
        text: Blob::new(text),
        notes: Blob::new(notes),
    })
}

/// The request that stores a value of these bytes; none of more than 255, which no request has.
pub fn storing(value: &[u8]) -> Option<Request>
    ensures { MatchOption result (most_value < length value.now) (λ r. r ≡ request.StoreOf value.now) }
{
    let Ok(len) = u8::try_from(value.len()) else {
        return None;
    };
    let mut bytes = [0u8; 255];
    bytes[..value.len()].copy_from_slice(value);
    Some(Request::StoreOf(Short::new(bytes, len)))
}
