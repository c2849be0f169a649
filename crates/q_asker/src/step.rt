//! The steps of a run: what was sent, heard and printed.

ghost use Rattle.std.specs.Prelude.{◌≡◌, IfOk, false};
ghost use Rattle.q_told.specs.Line.{line_of, unanswered_line};
ghost use Rattle.q_asker.specs.Runs.{Prints, Takes, count_after, is_done_end};
ghost use Rattle.q_asker.specs.Steps.{is_done_reply, streams};

use crate::connection::{Connection, ExchangeFault, exchange};
use crate::printing::put_told;
use q_net::{Reply, Request};
use q_outside::{Counted, TransportFailed};
use q_told::{Refusal, RefusalPlace, put_line};
use reasons::Reason;
use std::alloc::Global;
use std::io::{Read, Write};

/// Why a script is not run to its end.
#[derive(Clone, Copy)]
pub enum Halt {
    /// The connection failed so.
    Lost(ExchangeFault),
    /// The output failed.
    Unwritten,
}

impl From<TransportFailed> for Halt {
    ghost use Rattle.q_asker.specs.declared.step.Halt.TheVariants.{Unwritten};

    ghost from_gives = { λ _ halt. halt ≡ Unwritten };

    fn from(_failed: TransportFailed) -> Self {
        Halt::Unwritten
    }
}

/// Why a line was refused, as far as it can be explained.
#[derive(Clone, Copy)]
pub enum Cause {
    /// Its bytes are no program, or one that the verifier refuses.
    Program(Refusal),
    /// For this reason no request was made.
    Unmade(Reason),
    /// The node refused it with this number.
    Node(u8),
}

/// How a line ended.
#[derive(Clone, Copy)]
pub enum LineEnd {
    /// It was done.
    Done,
    /// It was refused.
    Refused(Cause),
    /// Its query had no answer in time.
    Unanswered,
}

/// Makes a request, and tells its reply. None where there was no memory for the request, which is told as 99.
pub fn tell_exchange<R: Read, W: Write, O: Write>(
    alloc: Global,
    request: &Request,
    connection: &mut Connection<R, W>,
    out: &mut Counted<O>,
) -> Result<Option<Reply>, Halt>
    ensures steps { Takes request.now
        (streams R.remaining W.contents O.contents connection.old out.old)
        (streams R.remaining W.contents O.contents connection.new out.new) result }
    ensures counted { out.new.failures ≡ count_after result out.old.failures }
{
    let said = match exchange(alloc, request, connection) {
        Ok(said) => said,
        Err(ExchangeFault::OutOfMemory) => {
            refuse(out, Reason::OutOfMemory, RefusalPlace::Untold)?;
            return Ok(None);
        }
        Err(fault) => return Err(Halt::Lost(fault)),
    };
    put_told(out, request, said)?;
    Ok(Some(said))
}

/// Tells that no request was made of a line, and why.
pub fn refuse<O: Write>(
    out: &mut Counted<O>,
    reason: Reason,
    place: RefusalPlace,
) -> Result<(), Halt>
    ensures told { Prints (line_of reason place) (O.contents out.old.inner) (O.contents out.new.inner) result }
    ensures counted { out.new.failures ≡ count_after result out.old.failures }
{
    put_line(out, reason, place)?;
    Ok(())
}

/// The same, with which the line ends.
pub fn refuse_line<O: Write>(
    out: &mut Counted<O>,
    reason: Reason,
    place: RefusalPlace,
    cause: Cause,
) -> Result<LineEnd, Halt>
    ensures told { Prints (line_of reason place) (O.contents out.old.inner) (O.contents out.new.inner) result }
    ensures refused { IfOk result (λ end. is_done_end end ≡ false) }
    ensures counted { out.new.failures ≡ count_after result out.old.failures }
{
    put_line(out, reason, place)?;
    Ok(LineEnd::Refused(cause))
}

/// Tells that a query had no answer in time.
pub fn give_up<O: Write>(out: &mut Counted<O>) -> Result<LineEnd, Halt>
    ensures told { Prints unanswered_line (O.contents out.old.inner) (O.contents out.new.inner) result }
    ensures unanswered { IfOk result (λ end. is_done_end end ≡ false) }
    ensures counted { out.new.failures ≡ count_after result out.old.failures }
{
    out.put(b"unanswered\n")?;
    Ok(LineEnd::Unanswered)
}

/// How a line ended to whose last request this was said.
pub fn end_of(said: Reply) -> LineEnd
    ensures { is_done_end result ≡ is_done_reply said }
{
    match said {
        Reply::Refused(number) => LineEnd::Refused(Cause::Node(number)),
        _ => LineEnd::Done,
    }
}
