//! Bytes to heads and events.

ghost use Rattle.std.specs.Prelude.{◌≡◌, ◌++◌, IfOk, IfErr};
ghost use Rattle.spelling.specs.Codes.{BeginsNone};
ghost use Rattle.q_replay.specs.Spelling.{head_bytes, event_bytes, IsHead, IsWritten};
ghost use Rattle.q_replay.specs.Reading.{of_text, of_notes, of_message};

use crate::body::body_of;
use crate::head::Head;
use crate::raw_entry::RawEntry;
use crate::reader::Reader;
use bq_check::NotesFault;
use bq_insn::DecodeFault;
use reasons::passed_on;
use sc_msg::{MessageFault, Version};
use std::alloc::{AllocError, AllocFailed, Global};

/// Why nothing is read.
#[derive(Clone, Copy, Debug, PartialEq, Eq)]
pub enum ReadFault {
    /// The bytes do not begin with what is to be read.
    Form,
    /// 99: memory ran out. It may stand in place of any answer.
    OutOfMemory,
}

impl From<DecodeFault> for ReadFault {
    ghost from_gives = { λ fault e. e ≡ of_text fault };

    fn from(fault: DecodeFault) -> Self {
        passed_on!(fault, DecodeFault as ReadFault: OutOfMemory; else Form)
    }
}

impl From<NotesFault> for ReadFault {
    ghost from_gives = { λ fault e. e ≡ of_notes fault };

    fn from(fault: NotesFault) -> Self {
        passed_on!(fault, NotesFault as ReadFault: OutOfMemory, NoteForm => Form)
    }
}

impl From<MessageFault> for ReadFault {
    ghost from_gives = { λ fault e. e ≡ of_message fault };

    fn from(fault: MessageFault) -> Self {
        passed_on!(fault, MessageFault as ReadFault: OutOfMemory; else Form)
    }
}

impl<T: Drop> From<AllocFailed<T>> for ReadFault {
    ghost use Rattle.q_replay.specs.declared.read.ReadFault.TheVariants.{OutOfMemory};

    ghost from_gives = { λ _ e. e ≡ OutOfMemory };

    fn from(_error: AllocFailed<T>) -> Self {
        ReadFault::OutOfMemory
    }
}

/// The head with which the bytes begin, which tells the version of what stands behind it, and the bytes behind it.
pub fn read_head<'a>(alloc: Global, bytes: &'a [u8]) -> Result<(Head, &'a [u8]), ReadFault>
    ensures legal { IfOk result (λ r. IsHead r.0) }
    ensures parts { IfOk result (λ r. bytes.now ≡ head_bytes r.0 ++ r.1.now) }
    ensures none { IfErr result (λ e. e ≡ ReadFault.Form → BeginsNone head_bytes IsHead bytes.now) }
{
    let mut reader = Reader { rest: bytes };
    let version = reader.format()?;
    let id = reader.number()?;
    let (beta, gamma) = reader.fractions()?;
    let founders = reader.start(alloc)?;
    let head = Head {
        version,
        id,
        beta,
        gamma,
        founders,
    };
    Ok((head, reader.rest))
}

/// The event of that version with which the bytes begin, and what stands behind it.
pub fn read_event<'a>(
    alloc: Global,
    version: Version,
    bytes: &'a [u8],
) -> Result<(RawEntry, &'a [u8]), ReadFault>
    ensures legal { IfOk result (λ r. IsWritten version r.0) }
    ensures parts { IfOk result (λ r. bytes.now ≡ event_bytes version r.0 ++ r.1.now) }
    ensures none { IfErr result (λ e. e ≡ ReadFault.Form → BeginsNone (event_bytes version) (IsWritten version) bytes.now) }
{
    let mut reader = Reader { rest: bytes };
    let kind = reader.byte()?;
    let length = reader.word()?;
    let body = reader.take(length as usize)?;
    let event = body_of(alloc, version, kind, body)?;
    Ok((event, reader.rest))
}
