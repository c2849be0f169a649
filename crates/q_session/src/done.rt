//! Jobs that were run.

ghost use Rattle.std.specs.Prelude.{◌≡◌};
ghost use Rattle.q_session.specs.Done.{Finished, IsFinished, finished_code};
ghost use Rattle.q_session.specs.Right.{IsRight};

use crate::job::Job;
use crate::ran::Ran;
use crate::run::run_fold;
use bq_frame::Block;
use std::marker::Model;

/// A job that was run, with its right answer.
#[derive(Drop)]
pub struct Done {
    job: Job,
    ran: Ran,
}

impl Model for Done {
    ghost Value = { Finished };

    ghost coded = { finished_code };

    ghost view = { λ d. record { job = d.job; ran = d.ran } };

    ghost invariant = { λ d. IsFinished (record { job = d.job; ran = d.ran }) };
}

impl Done {
    /// Runs a job over a block: its program over its view from its start value. Takes no memory.
    pub fn run(job: Job, block: &mut Block) -> Done
        ensures { result.job ≡ job }
    {
        let ran = run_fold(job.certified().certified(), job.view(), job.start(), block);
        Done::of(job, ran)
    }

    /// A job that was run elsewhere, with its right answer. Takes no memory.
    pub fn of(job: Job, ran: Ran) -> Done
        requires { IsRight job.certified job.view job.start ran }
        ensures job { result.job ≡ job }
        ensures ran { result.ran ≡ ran }
    {
        Done { job, ran }
    }

    /// The job. The answer is right.
    pub fn job(&self) -> &Job
        ensures job { result.now ≡ self.now.job }
        ensures right { IsFinished self.now }
    {
        &self.job
    }

    /// The job's answer.
    pub fn ran(&self) -> Ran
        ensures { result ≡ self.now.ran }
    {
        self.ran
    }
}
