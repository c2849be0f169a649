//! The job that is next.

ghost use Rattle.std.specs.Prelude.{◌≡◌, IfOk, position};
ghost use Rattle.q_desk.specs.Queries.{is_ready, next_of, MayAllRun};

use q_session::{Job, Phase, Query};
use q_table::Programs;
use std::alloc::{AllocError, Global};

/// The job of the ready query with the least number, of this node; none where no query is ready. Each query that is to
/// run has a program that was checked for the records of its view. The one error is that memory ran out (99
/// OutOfMemory).
pub(crate) fn next_job(
    alloc: Global,
    programs: &Programs,
    queries: &[Query],
    node: u64,
) -> Result<Option<Job>, AllocError>
    requires { MayAllRun programs.now queries.now }
    ensures { IfOk result (λ job. job ≡ next_of programs.now queries.now node) }
{
    let Some(number) = first_ready(queries) else {
        return Ok(None);
    };
    let Some(query) = queries.get(number) else {
        return Ok(None);
    };
    let Some(program) = programs.get(query.program) else {
        return Ok(None);
    };
    Job::of(alloc, node, number, query, program)
}

// The number of the first query that is ready.
fn first_ready(queries: &[Query]) -> Option<usize>
    ensures { result ≡ position (λ q. is_ready q.phase) queries.now }
{
    queries
        .iter()
        .position(|q| matches!(q.phase, Phase::Ready(_)))
}
