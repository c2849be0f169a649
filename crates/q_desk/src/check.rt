//! Whether a result may be recorded.

ghost use Rattle.std.specs.Prelude.{◌≡◌, IfOk};
ghost use Rattle.q_desk.specs.Queries.{checked, IsOfRunning};

use crate::answer::answer_in;
use crate::desk::DeskFault;
use q_session::{Job, Phase, Query, is_job_of};
use q_table::Programs;

/// Whether the result of this job may be recorded at this node, which has these programs and queries. Then the job is
/// that of a query which runs. Takes no memory.
pub(crate) fn check_result(
    programs: &Programs,
    queries: &[Query],
    node: u64,
    job: &Job,
) -> Result<(), DeskFault>
    ensures told { result ≡ checked programs.now queries.now node job.now }
    ensures runs { IfOk result (λ _. IsOfRunning programs.now queries.now job.now) }
{
    if job.node() != node {
        return Err(DeskFault::Stranger);
    }
    let Some(query) = queries.get(job.query()) else {
        return Err(DeskFault::Stranger);
    };
    if answer_in(&query.phase).is_some() {
        return Err(DeskFault::AlreadyAnswered);
    }
    let Phase::Running(view) = &query.phase else {
        return Err(DeskFault::Stranger);
    };
    if !is_job_of(programs, job, query, view) {
        return Err(DeskFault::Stranger);
    }
    Ok(())
}
