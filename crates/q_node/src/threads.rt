//! The threads of a node.

ghost use Rattle.std.specs.Prelude.{◌≡◌, All};
ghost use Rattle.q_board.specs.BoardId.{board_id};

use crate::again::look_again;
use crate::doorway::NodeDoors;
use crate::hearing::{hear_all, new_buffer};
use crate::job::AfterJob;
use crate::process::Process;
use crate::start::Start;
use q_board::{Board, RunnerSeat, with_runners};
use q_doors::{Door, Post};
use q_kept::JournalFile;
use std::alloc::Global;
use std::io::Eprint;
use std::sync::Wait;
use std::thread;
use std::thread::{Scope, Threads};
use std::time::Clock;

/// Those who run jobs: their board, and their seats at it.
#[derive(Drop)]
pub(crate) struct Crew<'b> {
    pub(crate) board: &'b Board,
    pub(crate) seats: Vec<RunnerSeat>,
    ghost seated: { All (λ s. s.table ≡ board_id board.now) seats.items },
}

impl<'a, 'b, R, P, J, S> Process<'a, 'b, R, P, J, S>
where
    R: Wait + Threads + Clock + Eprint + Sync,
    P: Post + Sync,
    J: JournalFile + Send,
    S: Start + Send,
{
    /// Starts the thread that asks again. Whether it runs.
    fn start_again<'s, E>(&'s self, scope: &Scope<'s, E>, alloc: Global) -> bool {
        scope.spawn(move || look_again(self, alloc)).is_ok()
    }

    /// Starts the other threads, and hears in this one until the threads are to end.
    fn tend<D>(&self, alloc: Global, doors: &NodeDoors<'_, D>)
    where
        D: Door + Sync,
        D::Stream: Send + Drop,
    {
        let Ok(mut buffer) = new_buffer(alloc) else {
            return;
        };
        let buffer = buffer.as_mut_slice();
        thread::scope(thread::scope_env(), self.rt, |scope| {
            if self.start_again(scope, alloc) && self.start_doors(scope, alloc, doors) {
                self.begin();
                hear_all(self, alloc, buffer);
            }
            self.end();
        });
    }

    /// Runs all threads of a node until they are to end. Where one cannot be started they end at once.
    pub(crate) fn run_threads<D>(&self, alloc: Global, doors: &NodeDoors<'_, D>, crew: Crew<'_>)
    where
        D: Door + Sync,
        D::Stream: Send + Drop,
    {
        let after = AfterJob {
            process: self,
            alloc,
        };
        let Crew { board, seats } = crew;
        let work = move || self.tend(alloc, doors);
        let _ = with_runners(self.rt, alloc, board, seats, &after, work);
        self.end();
    }
}
