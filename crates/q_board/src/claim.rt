//! The right to a job.

ghost use Rattle.std.specs.Prelude.{◌≡◌};

use q_session::Job;

/// The right to a slot's job, and the duty to finish it or to give it back: a claim that is dropped does not compile.
/// Contracts see it as the record of the slot and the job.
pub struct Claim {
    pub(crate) slot: usize,
    pub(crate) job: Job,
}

impl Claim {
    /// The job.
    pub fn job(&self) -> &Job
        ensures { result.now ≡ self.now.job }
    {
        &self.job
    }
}
