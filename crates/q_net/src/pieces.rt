//! The parts of a request, read from left to right. A reply has numbers of the same forms.

ghost use Rattle.std.specs.Prelude.{◌≡◌, [], ◌∷◌, length, IfOk, IfSome};
ghost use Rattle.spelling.specs.Numbers.{number_bytes};
ghost use Rattle.q_net.specs.Requests.{Gets, GetsBlob};
ghost use Rattle.q_outside.specs.Counts.{count_after};

use crate::request::{Blob, Short};
use q_outside::{Counted, TransportFailed};
use sc_view::{VALUE_LENGTH, Value};
use std::alloc::Global;
use std::io::Read;

/// What came of reading so many bytes of a request.
#[derive(Drop)]
pub enum ReadBlob {
    /// These bytes.
    Whole(Blob),
    /// There was no memory for them.
    Lost,
    /// The input ended before.
    Cut,
}

/// The number of these four bytes.
fn short_of(bytes: [u8; 4]) -> u32
    ensures { number_bytes 4 result ≡ bytes }
{
    u32::from_le_bytes(bytes)
}

/// The number of these eight bytes.
fn long_of(bytes: [u8; 8]) -> u64
    ensures { number_bytes 8 result ≡ bytes }
{
    u64::from_le_bytes(bytes)
}

/// What the next bytes come to, so many of them; none where the input ends before them.
macro_rules! next {
    ($input:expr, $len:expr, $bytes:ident => $whole:expr) => {{
        let mut $bytes = [0u8; $len];
        if $input.fill(&mut $bytes)? < $len {
            return Ok(None);
        }
        Ok(Some($whole))
    }};
}

/// The next byte; none where the input ends before it.
pub fn read_byte<R: Read>(input: &mut Counted<R>) -> Result<Option<u8>, TransportFailed>
    ensures read { Gets (λ b. b ∷ []) 1 (R.remaining input.old.inner) (R.remaining input.new.inner) result }
    ensures counted { input.new.failures ≡ count_after result input.old.failures }
{
    next!(input, 1, bytes => bytes[0])
}

/// The number of the next four bytes; none where the input ends before them.
pub fn read_short<R: Read>(input: &mut Counted<R>) -> Result<Option<u32>, TransportFailed>
    ensures read { Gets (number_bytes 4) 4 (R.remaining input.old.inner) (R.remaining input.new.inner) result }
    ensures counted { input.new.failures ≡ count_after result input.old.failures }
{
    next!(input, 4, bytes => short_of(bytes))
}

/// The number of the next eight bytes; none where the input ends before them.
pub fn read_long<R: Read>(input: &mut Counted<R>) -> Result<Option<u64>, TransportFailed>
    ensures read { Gets (number_bytes 8) 8 (R.remaining input.old.inner) (R.remaining input.new.inner) result }
    ensures counted { input.new.failures ≡ count_after result input.old.failures }
{
    next!(input, 8, bytes => long_of(bytes))
}

/// The value of the next 48 bytes; none where the input ends before them.
pub fn read_value<R: Read>(input: &mut Counted<R>) -> Result<Option<Value>, TransportFailed>
    ensures read { Gets (λ v. v) 48 (R.remaining input.old.inner) (R.remaining input.new.inner) result }
    ensures length { IfOk result (λ got. IfSome got (λ v. length v ≡ 48)) }
    ensures counted { input.new.failures ≡ count_after result input.old.failures }
{
    next!(input, VALUE_LENGTH, bytes => Value::from(&bytes))
}

/// The next bytes, so many; none where the input ends before them.
pub fn read_some<R: Read>(input: &mut Counted<R>, len: u8) -> Result<Option<Short>, TransportFailed>
    ensures read { Gets (λ v. v) len (R.remaining input.old.inner) (R.remaining input.new.inner) result }
    ensures length { IfOk result (λ got. IfSome got (λ v. length v ≡ len)) }
    ensures counted { input.new.failures ≡ count_after result input.old.failures }
{
    let mut bytes = [0u8; 255];
    let wanted = usize::from(len);
    let read = input.fill(&mut bytes[..wanted])?;
    if read < wanted {
        return Ok(None);
    }
    Ok(Some(Short::new(bytes, len)))
}

/// So many bytes, passed over.
fn pass_over<R: Read>(input: &mut Counted<R>, len: usize) -> Result<ReadBlob, TransportFailed>
    ensures read { GetsBlob len (R.remaining input.old.inner) (R.remaining input.new.inner) result }
    ensures counted { input.new.failures ≡ count_after result input.old.failures }
{
    for _at in 0..len {
        if read_byte(input)?.is_none() {
            return Ok(ReadBlob::Cut);
        }
    }
    Ok(ReadBlob::Lost)
}

/// So many bytes. Where there is no memory for them they are passed over.
pub fn read_blob<R: Read>(
    alloc: Global,
    input: &mut Counted<R>,
    len: usize,
) -> Result<ReadBlob, TransportFailed>
    ensures read { GetsBlob len (R.remaining input.old.inner) (R.remaining input.new.inner) result }
    ensures counted { input.new.failures ≡ count_after result input.old.failures }
{
    let Ok(mut bytes) = vec![in alloc; 0u8; len] else {
        return pass_over(input, len);
    };
    if input.fill(bytes.as_mut_slice())? < len {
        return Ok(ReadBlob::Cut);
    }
    Ok(ReadBlob::Whole(Blob::new(bytes)))
}
