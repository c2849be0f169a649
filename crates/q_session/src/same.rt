//! Whether a job is that of a query.

ghost use Rattle.std.specs.Prelude.{◌≡◌, ◌↔◌, IsTrue, Some};
ghost use Rattle.bq_check.specs.Certified.{IsCertified};
ghost use Rattle.q_table.specs.Programs.{is_same_text};
ghost use Rattle.q_session.specs.Same.{is_same_entry, is_same_view, is_same_program, is_job_of, Serves};

use crate::job::Job;
use crate::query::Query;
use bq_check::Certified;
use bq_insn::laws::one_spelling;
use bq_insn::{Insn, Text};
use q_table::Programs;
use sc_view::{Stored, View};

/// Whether the job is that of a query which runs over this view: its program, its start value and its view are the
/// query's. Then a right answer of the job is a right answer of the query. Takes no memory.
pub fn is_job_of(programs: &Programs, job: &Job, query: &Query, view: &View) -> bool
    ensures told { result ≡ is_job_of programs.now job.now query.now view.now }
    ensures serves { IsTrue result → Serves programs.now job.now query.now view.now }
{
    let Some(program) = programs.get(query.program) else {
        return false;
    };
    job.program() == query.program
        && job.start() == query.start
        && is_same_view(job.view(), view)
        && is_same_program(job.certified().certified(), program.certified())
}

fn is_same_program(program: &Certified, other: &Certified) -> bool
    ensures told { result ≡ is_same_program program.now (Some other.now) }
    ensures text { IsTrue result → program.now.text ≡ other.now.text }
    ensures longest { IsTrue result → program.now.longest ≡ other.now.longest }
    ensures certified { IsCertified other.now }
{
    other.is_certified();
    is_same_text(program.text(), other.text()) && program.longest() == other.longest()
}

fn is_same_text(text: &Text, other: &Text) -> bool
    ensures told { result ≡ is_same_text text.now other.now }
    ensures same { IsTrue result → text.now ≡ other.now }
{
    one_spelling();
    let units = text.units();
    if units != other.units() {
        return false;
    }
    for unit in 0..units {
        if !is_same_insn(text.at(unit), other.at(unit)) {
            return false;
        }
    }
    true
}

fn is_same_insn(insn: Option<Insn>, other: Option<Insn>) -> bool
    ensures { IsTrue result ↔ (insn ≡ other) }
{
    match (insn, other) {
        (None, None) => true,
        (Some(insn), Some(other)) => insn.is_same(&other),
        (None, Some(_)) | (Some(_), None) => false,
    }
}

fn is_same_view(view: &View, other: &View) -> bool
    ensures { result ≡ is_same_view view.now other.now }
{
    let mut others = other.records();
    for (id, stored) in view.records() {
        let Some((other_id, other)) = others.next() else {
            return false;
        };
        if !is_same_entry((id, *stored), (other_id, *other)) {
            return false;
        }
    }
    others.next().is_none()
}

fn is_same_entry(entry: (u64, Stored), other: (u64, Stored)) -> bool
    ensures { result ≡ is_same_entry entry other }
{
    entry == other
}
