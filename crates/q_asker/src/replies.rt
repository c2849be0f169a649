//! The reply to a request, read.

ghost use Rattle.std.specs.Prelude.{◌≡◌, ◌∷◌, ◌++◌, [], ℕ, List, Some, IfOk, MatchOption};
ghost use Rattle.reasons.specs.Table as table;
ghost use Rattle.reasons.specs.declared.Reason.{Reason as Why};
ghost use Rattle.q_net.specs.Replies.{reply_bytes};
ghost use Rattle.q_net.specs.declared.replies.Reply.{Reply as Said};
ghost use Rattle.q_outside.specs.Counts.{count_after};
ghost use Rattle.q_asker.specs.Replies.{CanBe, Hears, HearsBehind, IsRefusal, expected};
ghost use Rattle.q_asker.specs.declared.replies.ReplyKind.TheVariants as kind;

use q_net::{Reply, Request, read_byte, read_long, read_short};
use q_outside::{Counted, TransportFailed};
use reasons::Reason;
use std::io::Read;

/// What a reply may be, if it is no refusal. The bytes of a reply do not tell.
#[derive(Clone, Copy)]
pub enum ReplyKind {
    /// A program's number.
    Program,
    /// A query's number, or a store's tag.
    Number,
    /// An answer, or that there is none yet.
    Answer,
}

/// What the reply to a request may be.
pub fn expected(request: &Request) -> ReplyKind
    ensures { result ≡ expected request.now }
{
    match request {
        Request::Register { .. } => ReplyKind::Program,
        Request::Ask { .. } | Request::Store(_) | Request::StoreOf(_) => ReplyKind::Number,
        Request::Answer(_) => ReplyKind::Answer,
    }
}

/// The reason of this number, if there is one.
pub fn reason_of(number: u8) -> Option<Reason>
    ensures { MatchOption result ((why : Why) → table.number why ≡ number → ⊥) (λ why. table.number why ≡ number) }
{
    for reason in Reason::all() {
        if reason.number() == number {
            return Some(reason);
        }
    }
    None
}

/// The refusal of this number, if there is one.
fn refusal(number: u8) -> Option<Reply>
    ensures { MatchOption result (IsRefusal number → ⊥) (λ said. IsRefusal number × (said ≡ Reply.Refused number)) }
{
    match reason_of(number) {
        Some(_) => Some(Reply::Refused(number)),
        None => None,
    }
}

/// A program's number, behind a 0.
fn read_program<R: Read>(input: &mut Counted<R>) -> Result<Option<Reply>, TransportFailed>
    ensures read { HearsBehind kind.Program (0 ∷ [])
        (R.remaining input.old.inner) (R.remaining input.new.inner) result }
    ensures counted { input.new.failures ≡ count_after result input.old.failures }
{
    match read_short(input)? {
        Some(program) => Ok(Some(Reply::Program(program))),
        None => Ok(None),
    }
}

/// A query's number, or a store's tag, behind a 0.
fn read_number<R: Read>(input: &mut Counted<R>) -> Result<Option<Reply>, TransportFailed>
    ensures read { HearsBehind kind.Number (0 ∷ []) (R.remaining input.old.inner) (R.remaining input.new.inner) result }
    ensures counted { input.new.failures ≡ count_after result input.old.failures }
{
    match read_long(input)? {
        Some(number) => Ok(Some(Reply::Number(number))),
        None => Ok(None),
    }
}

/// The accumulator and the steps, behind a 0 and a 1.
fn read_answer<R: Read>(input: &mut Counted<R>) -> Result<Option<Reply>, TransportFailed>
    ensures read { HearsBehind kind.Answer (0 ∷ 1 ∷ [])
        (R.remaining input.old.inner) (R.remaining input.new.inner) result }
    ensures counted { input.new.failures ≡ count_after result input.old.failures }
{
    let Some(acc) = read_long(input)? else {
        return Ok(None);
    };
    match read_long(input)? {
        Some(steps) => Ok(Some(Reply::Answer { acc, steps })),
        None => Ok(None),
    }
}

/// An answer, or that there is none yet, behind a 0.
fn read_look<R: Read>(input: &mut Counted<R>) -> Result<Option<Reply>, TransportFailed>
    ensures read { HearsBehind kind.Answer (0 ∷ []) (R.remaining input.old.inner) (R.remaining input.new.inner) result }
    ensures counted { input.new.failures ≡ count_after result input.old.failures }
{
    let Some(first) = read_byte(input)? else {
        return Ok(None);
    };
    match first {
        0 => Ok(Some(Reply::Open)),
        1 => read_answer(input),
        _ => Ok(None),
    }
}

/// What stands behind a 0, with which each reply begins that is no refusal.
fn read_accepted<R: Read>(
    kind: ReplyKind,
    input: &mut Counted<R>,
) -> Result<Option<Reply>, TransportFailed>
    ensures read { HearsBehind kind (0 ∷ []) (R.remaining input.old.inner) (R.remaining input.new.inner) result }
    ensures counted { input.new.failures ≡ count_after result input.old.failures }
{
    match kind {
        ReplyKind::Program => read_program(input),
        ReplyKind::Number => read_number(input),
        ReplyKind::Answer => read_look(input),
    }
}

/// The same with the first byte, which is read before.
fn read_first<R: Read>(
    kind: ReplyKind,
    input: &mut Counted<R>,
) -> Result<Option<Reply>, TransportFailed>
    ensures read { HearsBehind kind [] (R.remaining input.old.inner) (R.remaining input.new.inner) result }
    ensures counted { input.new.failures ≡ count_after result input.old.failures }
{
    let Some(first) = read_byte(input)? else {
        return Ok(None);
    };
    if first == 0 {
        return read_accepted(kind, input);
    }
    Ok(refusal(first))
}

/// The reply that stands at the front of an input, one of this kind or a refusal; none where the bytes there begin with
/// none, or end within one. A refusal is the number of a [`Reason`]. Refused with 86 where a read fails.
///
/// An input is not read beyond a reply. Where there is none, some bytes may have been read.
pub fn read_reply<R: Read>(
    kind: ReplyKind,
    input: &mut Counted<R>,
) -> Result<Option<Reply>, TransportFailed>
    // What is answered was read, and may be.
    ensures read { Hears kind (R.remaining input.old.inner) (R.remaining input.new.inner) result }

    // What may be and stands there is answered, unless a read fails.
    ensures exact { (said : Said) (rest : List ℕ) → CanBe kind said
        → R.remaining input.old.inner ≡ Some (reply_bytes said ++ rest) → IfOk result (λ heard. heard ≡ Some said) }
    ensures counted { input.new.failures ≡ count_after result input.old.failures }
{
    read_first(kind, input)
}
