//! The seat of an asker at its board.

ghost use Rattle.std.specs.Prelude.{◌≡◌, All};
ghost use Rattle.q_board.specs.BoardId.{board_id};

use crate::step::StepOutcome;
use q_board::{AskerSeat, Board, ROW, pump_once};
use q_book::{Book, BookFault};
use q_session::{Done, Job};
use std::alloc::Global;

/// An asker's seat, and the board where it is.
#[derive(Drop)]
pub struct Asker<'b> {
    board: &'b Board,
    seat: AskerSeat,
    ghost seated: { seat.table ≡ board_id board.now },
}

/// A seat of the board.
fn at(board: &Board, seat: AskerSeat) -> Asker<'_>
    requires { seat.table ≡ board_id board.now }
{
    Asker { board, seat }
}

/// The last of these seats of a board; none where there is none.
pub fn last_asker(board: &Board, mut seats: Vec<AskerSeat>) -> Option<Asker<'_>>
    requires { All (λ s. s.table ≡ board_id board.now) seats.items }
{
    match seats.pop() {
        Some(seat) => Some(at(board, seat)),
        None => None,
    }
}

/// These seats of a board; none where there is no memory.
pub fn askers(alloc: Global, board: &Board, seats: Vec<AskerSeat>) -> Option<Vec<Asker<'_>>>
    requires { All (λ s. s.table ≡ board_id board.now) seats.items }
{
    let mut askers = Vec::new(alloc);
    for seat in seats {
        if askers.push(at(board, seat)).is_err() {
            return None;
        }
    }
    Some(askers)
}

/// Records a result: its query.
fn post(book: &mut Book, done: &Done) -> StepOutcome {
    match book.post(done) {
        Ok(()) => StepOutcome::Query(done.job().query()),
        Err(reason) => StepOutcome::Refused(reason.number()),
    }
}

impl Asker<'_> {
    /// Carries results into the book, and jobs out of it: how many results were posted.
    pub fn pump(&mut self, book: &mut Book) -> Result<u32, BookFault> {
        pump_once(self.board, &mut self.seat, book)
    }

    /// The same as a step.
    fn pump_step(&mut self, book: &mut Book) -> StepOutcome {
        match self.pump(book) {
            Ok(posted) => StepOutcome::Count(posted.into()),
            Err(reason) => StepOutcome::Refused(reason.number()),
        }
    }

    /// Offers a job: its query.
    fn offer_job(&mut self, job: Job) -> StepOutcome {
        let query = job.query();
        let offered = self.board.offer(&mut self.seat, job);
        match &offered {
            Ok(_) => StepOutcome::Query(query),
            Err((fault, job)) => StepOutcome::Back(fault.reason().number(), job.query()),
        }
    }

    /// Hands out the next job and offers it: its query.
    fn offer(&mut self, book: &mut Book) -> StepOutcome {
        match book.hand_out() {
            Ok(Some(job)) => self.offer_job(job),
            Ok(None) => StepOutcome::Nothing,
            Err(reason) => StepOutcome::Refused(reason.number()),
        }
    }

    /// The result at a place of the row.
    fn poll(&mut self, place: usize) -> Option<Done> {
        if place >= ROW {
            return None;
        }
        match self.seat.held(place) {
            Some(slot) => self.board.poll(&mut self.seat, slot),
            None => None,
        }
    }

    /// Records the result at a place of the row: its query.
    fn receive(&mut self, book: &mut Book, place: usize) -> StepOutcome {
        let polled = self.poll(place);
        match &polled {
            Some(done) => post(book, done),
            None => StepOutcome::Nothing,
        }
    }

    /// Does a step of the asker.
    pub fn step(&mut self, book: &mut Book, word: &str, place: usize) -> StepOutcome {
        match word {
            "pump" => self.pump_step(book),
            "offer" => self.offer(book),
            _ => self.receive(book, place),
        }
    }
}
