//! What is done after a runner ran a job.

ghost use Rattle.std.specs.Prelude.{ℕ};

use crate::process::Process;
use crate::start::Start;
use q_board::Gate;
use q_doors::Post;
use q_kept::JournalFile;
use std::alloc::Global;
use std::sync::Wait;

/// After a job the node takes its result, in the runner's thread.
#[derive(Drop)]
pub(crate) struct AfterJob<'p, 'a, 'b, R: Wait, P, J: JournalFile, S: Start> {
    pub(crate) process: &'p Process<'a, 'b, R, P, J, S>,
    pub(crate) alloc: Global,
}

impl<R: Wait, P: Post, J: JournalFile, S: Start> Gate for AfterJob<'_, '_, '_, R, P, J, S> {
    ghost entered = { λ _ _. Unit {0} };

    ghost left = { λ _ _. Unit {0} };

    fn before(&self, _query: usize) {}

    fn after(&self, _query: usize) {
        let _ = self.process.settle(self.alloc);
    }
}
