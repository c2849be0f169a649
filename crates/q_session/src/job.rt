//! Jobs.

ghost use Rattle.std.specs.Prelude.{◌≡◌, IfOk, option_copied};
ghost use Rattle.std.specs.Coded.{codes};
ghost use Rattle.sc_view.specs.Views.{view_code};
ghost use Rattle.q_session.specs.Jobs.{JobValue, job_of, view_in, IsJob, MayRun};

use crate::query::{Phase, Query};
use crate::shared_view::SharedView;
use q_table::{Program, ProgramId};
use sc_view::View;
use std::alloc::{AllocError, Global};
use std::marker::Model;

/// What is run to answer a query: its program over the view that its collect returned, from its start value. Contracts
/// see it as the record of these. [`Job::of`] alone makes one, so it is that of a query with a returned view. Its
/// program was checked for records of the lengths that its view has.
pub struct Job {
    node: u64,
    query: usize,
    program: ProgramId,
    start: u64,
    certified: Program,
    view: SharedView,
}

impl Drop for Job {
    // By hand, so that it is proved here alone, and not in each crate that drops one.
    fn drop(self) {
        let Job {
            node: _,
            query: _,
            program: _,
            start: _,
            certified: _,
            view: _,
        } = self;
    }
}

impl Model for Job {
    ghost Value = { JobValue };

    ghost coded = { Prim.hlevel (codes, view_code) };

    ghost view = { λ j. record { node = j.node; query = j.query; program = j.program; start = j.start; certified = j.certified; view = j.view } };

    ghost invariant = { λ j. IsJob (record { node = j.node; query = j.query; program = j.program; start = j.start; certified = j.certified; view = j.view }) };
}

impl Job {
    /// The job of the query of this number at this node, which names this program: there is one where the query is
    /// ready or runs, and then the program was checked for records of the lengths that its view has. The one error is
    /// that memory ran out (99 OutOfMemory).
    pub fn of(
        alloc: Global,
        node: u64,
        number: usize,
        query: &Query,
        program: &Program,
    ) -> Result<Option<Job>, AllocError>
        requires { MayRun query.now program.now }
        ensures { IfOk result (λ job. job ≡ job_of node number query.now program.now) }
    {
        let Some(view) = view_in(&query.phase) else {
            return Ok(None);
        };
        Ok(Some(Job {
            node,
            query: number,
            program: query.program,
            start: query.start,
            certified: program.clone()?,
            view: SharedView::of(alloc, view.clone()?)?,
        }))
    }

    /// The id of the node that asked.
    pub fn node(&self) -> u64
        ensures { result ≡ self.now.node }
    {
        self.node
    }

    /// The query's number, from 0.
    pub fn query(&self) -> usize
        ensures { result ≡ self.now.query }
    {
        self.query
    }

    /// The program's number at that node.
    pub fn program(&self) -> ProgramId
        ensures { result ≡ self.now.program }
    {
        self.program
    }

    /// The accumulator before the first record.
    pub fn start(&self) -> u64
        ensures { result ≡ self.now.start }
    {
        self.start
    }

    /// The program itself.
    pub fn certified(&self) -> &Program
        ensures { result.now ≡ self.now.certified }
    {
        &self.certified
    }

    /// The view that the query's collect returned.
    pub fn view(&self) -> &View
        ensures view { result.now ≡ self.now.view }
        ensures lengths { IsJob self.now }
    {
        self.view.view()
    }
}

impl Clone for Job {
    ghost is_clone = { λ job copy. copy ≡ job };

    fn clone(&self) -> Result<Job, AllocError> {
        Ok(Job {
            node: self.node,
            query: self.query,
            program: self.program,
            start: self.start,
            certified: self.certified.clone()?,
            view: self.view.clone()?,
        })
    }
}

// The view over which a query is to run.
fn view_in(phase: &Phase) -> Option<&View>
    ensures { option_copied result ≡ view_in phase.now }
{
    match phase {
        Phase::Ready(view) | Phase::Running(view) => Some(view),
        Phase::Collecting | Phase::Answered(..) => None,
    }
}
