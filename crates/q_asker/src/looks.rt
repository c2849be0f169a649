//! The answer of a query, which is asked for until it stands.

ghost use Rattle.std.specs.Prelude.{◌≡◌, MatchBool};
ghost use Rattle.q_asker.specs.Runs.{Looks, count_after};
ghost use Rattle.q_asker.specs.Steps.{streams};

use crate::clock::has_passed;
use crate::connection::Connection;
use crate::step::{Cause, Halt, LineEnd, end_of, give_up, tell_exchange};
use q_net::{Reply, Request};
use q_outside::Counted;
use reasons::Reason;
use std::alloc::Global;
use std::io::{Read, Write};
use std::time::{Clock, Duration, Instant};

/// How often an answer is asked for at most. A node waits for a second before it says that there is none.
const MOST_LOOKS: u64 = 1_000;

/// For how many seconds an answer is asked for.
const PATIENCE: u64 = 30;

/// Whether a query has no answer yet.
fn is_open(said: Reply) -> bool
    ensures { MatchBool result (said ≡ Reply.Open) (said ≡ Reply.Open → ⊥) }
{
    match said {
        Reply::Open => true,
        Reply::Program(_) | Reply::Number(_) | Reply::Answer { .. } | Reply::Refused(_) => false,
    }
}

/// Asks for the answer of a query until it stands, or for so often and so long, and tells what comes of it.
pub fn look<T: Clock, R: Read, W: Write, O: Write>(
    rt: &T,
    alloc: Global,
    query: u64,
    connection: &mut Connection<R, W>,
    out: &mut Counted<O>,
) -> Result<LineEnd, Halt>
    ensures steps { Looks query
        (streams R.remaining W.contents O.contents connection.old out.old)
        (streams R.remaining W.contents O.contents connection.new out.new) result }
    ensures counted { out.new.failures ≡ count_after result out.old.failures }
{
    let since = Instant::now(rt).ok();
    for _look in 0..MOST_LOOKS {
        let request = Request::Answer(query);
        let Some(said) = tell_exchange(alloc, &request, connection, out)? else {
            return Ok(LineEnd::Refused(Cause::Unmade(Reason::OutOfMemory)));
        };
        if !is_open(said) {
            return Ok(end_of(said));
        }
        if has_passed(rt, since, Duration::from_secs(PATIENCE)) {
            return give_up(out);
        }
    }
    give_up(out)
}
