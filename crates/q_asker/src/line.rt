//! The lines of a script, run.

ghost use Rattle.std.specs.Prelude.{◌≡◌, ℕ, MatchOption};
ghost use Rattle.q_asker.specs.Runs.{RunsLine, RunsRequest, count_after};
ghost use Rattle.q_asker.specs.Steps.{streams};
ghost use Rattle.q_asker.specs.declared.script.ClientLine.TheVariants as line;

use crate::connection::Connection;
use crate::looks::look;
use crate::making::{registration, storing};
use crate::script::ClientLine;
use crate::step::{Cause, Halt, LineEnd, end_of, refuse_line, tell_exchange};
use q_net::{Reply, Request};
use q_outside::Counted;
use q_table::ProgramId;
use q_told::RefusalPlace;
use reasons::Reason;
use std::alloc::Global;
use std::io::{Read, Write};
use std::time::Clock;

/// Makes the only request of a line, and tells its reply.
fn run_request<R: Read, W: Write, O: Write>(
    alloc: Global,
    request: &Request,
    connection: &mut Connection<R, W>,
    out: &mut Counted<O>,
) -> Result<LineEnd, Halt>
    ensures steps { RunsRequest request.now
        (streams R.remaining W.contents O.contents connection.old out.old)
        (streams R.remaining W.contents O.contents connection.new out.new) result }
    ensures counted { out.new.failures ≡ count_after result out.old.failures }
{
    match tell_exchange(alloc, request, connection, out)? {
        Some(said) => Ok(end_of(said)),
        None => Ok(LineEnd::Refused(Cause::Unmade(Reason::OutOfMemory))),
    }
}

/// The number that a reply has, if it has one.
fn number_in(said: Reply) -> Option<u64>
    ensures { MatchOption result ((n : ℕ) → said ≡ Reply.Number n → ⊥) (λ n. said ≡ Reply.Number n) }
{
    match said {
        Reply::Number(number) => Some(number),
        Reply::Program(_) | Reply::Open | Reply::Answer { .. } | Reply::Refused(_) => None,
    }
}

/// `ask PROGRAM START`: where the node takes the query, its answer is asked for.
fn run_ask<T: Clock, R: Read, W: Write, O: Write>(
    rt: &T,
    alloc: Global,
    program: u64,
    start: u64,
    connection: &mut Connection<R, W>,
    out: &mut Counted<O>,
) -> Result<LineEnd, Halt>
    ensures steps { RunsLine (line.Ask program start)
        (streams R.remaining W.contents O.contents connection.old out.old)
        (streams R.remaining W.contents O.contents connection.new out.new) result }
    ensures counted { out.new.failures ≡ count_after result out.old.failures }
{
    let request = Request::Ask {
        program: ProgramId::of_number(program).number(),
        start,
    };
    let Some(said) = tell_exchange(alloc, &request, connection, out)? else {
        return Ok(LineEnd::Refused(Cause::Unmade(Reason::OutOfMemory)));
    };
    match number_in(said) {
        Some(query) => look(rt, alloc, query, connection, out),
        None => Ok(end_of(said)),
    }
}

/// Makes the requests of a line, and tells their replies. A program is decoded and verified before its request is made.
pub fn run_line<T: Clock, R: Read, W: Write, O: Write>(
    rt: &T,
    alloc: Global,
    line: &ClientLine,
    connection: &mut Connection<R, W>,
    out: &mut Counted<O>,
) -> Result<LineEnd, Halt>
    ensures steps { RunsLine line.now
        (streams R.remaining W.contents O.contents connection.old out.old)
        (streams R.remaining W.contents O.contents connection.new out.new) result }
    ensures counted { out.new.failures ≡ count_after result out.old.failures }
{
    match line {
        ClientLine::Program { code } => match registration(alloc, code.as_slice()) {
            Ok(request) => run_request(alloc, &request, connection, out),
            Err(refusal) => {
                let cause = Cause::Program(refusal);
                refuse_line(out, refusal.reason(), refusal.place(), cause)
            }
        },
        ClientLine::Store { value } => match storing(value.as_slice()) {
            Some(request) => run_request(alloc, &request, connection, out),
            None => {
                let cause = Cause::Unmade(Reason::BadValue);
                refuse_line(out, Reason::BadValue, RefusalPlace::Untold, cause)
            }
        },
        ClientLine::Ask { program, start } => {
            run_ask(rt, alloc, *program, *start, connection, out)
        }
    }
}
