//! What a thread needs to use a board.

ghost use Rattle.std.specs.Prelude.{◌≡◌, ◌+◌, ◌*◌, ◌%◌, ◌<◌, length, MatchOption, Some, None};
ghost use Rattle.std.specs.VecDeque.{deque_len, deque_capacity};
ghost use Rattle.std.specs.Coded.{codes};
ghost use Rattle.q_session.specs.declared.job.Job.{Job};
ghost use Rattle.q_session.specs.contracts.job.Job as job;
ghost use Rattle.q_session.specs.contracts.done.Done as done;
ghost use Rattle.q_board.specs.Places.{jobs};
ghost use Rattle.q_board.specs.Calls.{is_at};
ghost use Rattle.q_board.specs.AskerModel.{AskerModel, asker_model, IsAsker};
ghost use Rattle.q_board.specs.RunnerModel.{RunnerModel, runner_model, IsRunner};

use crate::cell::Content;
use crate::view::Holder;
use atomic_table::Seat;
use std::collections::VecDeque;
use std::marker::Model;

/// How many slots an asker has.
pub const ROW: usize = 8;

/// One slot of a board. Contracts see its index, from 0.
#[derive(Clone, Copy)]
pub struct Slot {
    pub(crate) index: usize,
}

/// Offers jobs and receives their results, in a row of eight slots of its own. Contracts see it as the record of its
/// board, its number and what it has done.
pub struct AskerSeat {
    pub(crate) seat: Seat<Content, Holder>,
    pub(crate) number: usize,
    // The places in the row with no open job. The one that the seat took last is first.
    pub(crate) free: VecDeque<usize>,
}

impl Drop for AskerSeat {
    // By hand, so that it is proved here alone, and not in each crate that drops one.
    fn drop(self) {
        let AskerSeat {
            seat: _,
            number: _,
            free: _,
        } = self;
    }
}

impl Model for AskerSeat {
    ghost Value = { AskerModel };

    ghost coded = { Prim.hlevel (codes, job.the_row.coded, done.the_row.coded) };

    ghost view = { λ s. asker_model s.seat.table_id s.seat.me.0 };

    ghost invariant = { λ s. IsAsker s.seat.table_id s.seat.me s.number s.free.items (deque_len s.free) (deque_capacity s.free) };
}

impl AskerSeat {
    /// The slot at a place of the row, where a job is open there.
    pub fn held(&self, place: usize) -> Option<Slot>
        requires { place < 8 }
        ensures { MatchOption result (is_at self.now.row place None) (λ slot. (slot.index ≡ 8 * self.now.number + place) × ((j : Job) × is_at self.now.row place (Some j))) }
    {
        if self.free.contains(&place) {
            return None;
        }
        Some(Slot {
            index: ROW * self.number + place,
        })
    }

    /// How many more jobs can be offered.
    pub fn room(&self) -> usize
        ensures room { result + jobs self.now.row ≡ 8 }
        ensures row { length self.now.row ≡ 8 }
    {
        self.free.len()
    }
}

/// Claims jobs in any slot, and finishes them or gives them back. Contracts see it as the record of its board, its
/// number, what it has done and the slot whose turn it is.
pub struct RunnerSeat {
    pub(crate) seat: Seat<Content, Holder>,
    pub(crate) number: u32,
    // The slots that it has claimed. The one that it took last is first.
    pub(crate) claims: VecDeque<usize>,
    pub(crate) lanes: usize,
    pub(crate) next: usize,
}

impl Drop for RunnerSeat {
    // By hand, so that it is proved here alone, and not in each crate that drops one.
    fn drop(self) {
        let RunnerSeat {
            seat: _,
            number: _,
            claims: _,
            lanes: _,
            next: _,
        } = self;
    }
}

impl Model for RunnerSeat {
    ghost Value = { RunnerModel };

    ghost coded = { Prim.hlevel (codes, job.the_row.coded, done.the_row.coded) };

    ghost view = { λ s. runner_model s.seat.table_id s.seat.me.0 s.lanes s.next };

    ghost invariant = { λ s. IsRunner s.seat.table_id s.seat.me s.number s.claims.items (deque_len s.claims) (deque_capacity s.claims) s.lanes s.next };
}

impl RunnerSeat {
    /// The board's slots in turn: after the last comes the first.
    pub fn next(&mut self) -> Slot
        ensures slot { (result.index ≡ self.old.next) × (result.index < self.old.lanes) }
        ensures seat { self.new ≡ record self.old { next = (self.old.next + 1) % self.old.lanes } }
    {
        let index = self.next;
        self.next = (index + 1) % self.lanes;
        Slot { index }
    }
}
