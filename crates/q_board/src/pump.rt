//! The pump between an asker's row and a book.

ghost use Rattle.std.specs.Prelude.{◌≡◌, ◌<◌, Err, MatchResult};
ghost use Rattle.q_board.specs.BoardId.{board_id};
ghost use Rattle.q_board.specs.Places.{jobs};
ghost use Rattle.q_board.specs.Calls.{SameAsker};
ghost use Rattle.q_book.specs.Books.{room_for_post};
ghost use Rattle.q_board.specs.Pumped.{Pumped, Stopped};
ghost use Rattle.q_board.specs.Turns.{Polls, IsOpenAt, Receiving, NoRoomPast, OffersNext, RefusesNext, OfferedAll, StopsOffering};

use crate::board::Board;
use crate::seats::{AskerSeat, ROW};
use q_book::laws::{hand_outs_are_noted, posts_are_noted};
use q_book::{Book, BookFault};

/// Looks once at each slot that is open, in turn, and posts each result that waits there. Then hands out jobs and
/// offers them, until the row is full or no query is ready. Answers how many posts were accepted; a result that the
/// book refuses with 55 or 56 is dropped.
///
/// Stops at the first refusal of `Book::room_for_post`, which is asked before each look (42 or 53), or of
/// `Book::hand_out` (42, 53 or 99). What was posted and handed out before stands, and no result or job is lost.
pub fn pump_once(board: &Board, seat: &mut AskerSeat, book: &mut Book) -> Result<u32, BookFault>
    requires { seat.old.table ≡ board_id board.now }
    ensures { MatchResult result (λ posted. Pumped seat.old book.old posted seat.new book.new) (λ fault. Stopped seat.old book.old fault seat.new book.new) }
{
    let _room = seat.room();
    let posted = match receive_all(board, seat, book) {
        Ok(posted) => posted,
        Err(fault) => return Err(fault),
    };
    match offer_all(board, seat, book) {
        Ok(()) => Ok(posted),
        Err(fault) => Err(fault),
    }
}

// Looks once at each slot that is open, and posts what it receives.
fn receive_all(board: &Board, seat: &mut AskerSeat, book: &mut Book) -> Result<u32, BookFault>
    requires { seat.old.table ≡ board_id board.now }
    ensures { MatchResult result (λ posted. Receiving seat.old book.old 8 posted seat.new book.new) (λ fault. NoRoomPast seat.old book.old fault seat.new book.new) }
{
    posts_are_noted();
    let mut posted = 0;
    for place in 0..ROW {
        match poll_place(board, seat, place, book) {
            Ok(accepted) => posted += u32::from(accepted),
            Err(fault) => return Err(fault),
        }
    }
    Ok(posted)
}

// Looks at the slot at a place of the row, if it is open, and posts its result. Answers whether a post was accepted.
fn poll_place(
    board: &Board,
    seat: &mut AskerSeat,
    place: usize,
    book: &mut Book,
) -> Result<bool, BookFault>
    requires board { seat.old.table ≡ board_id board.now }
    requires place { place < 8 }
    ensures polled { MatchResult result
        (λ accepted. Polls seat.old book.old place accepted seat.new book.new)
        (λ fault. (seat.new ≡ seat.old) × (book.new ≡ book.old) × IsOpenAt seat.old place × (room_for_post book.old ≡ Err fault)) }
    ensures same { SameAsker seat.old seat.new }
{
    posts_are_noted();
    let Some(slot) = seat.held(place) else {
        return Ok(false);
    };
    match book.room_for_post() {
        Ok(()) => {}
        Err(fault) => return Err(fault),
    }
    let Some(done) = board.poll(seat, slot) else {
        return Ok(false);
    };
    match book.post(&done) {
        Ok(()) => Ok(true),
        Err(_) => Ok(false),
    }
}

// Hands out jobs and offers them, until the row is full or no query is ready.
fn offer_all(board: &Board, seat: &mut AskerSeat, book: &mut Book) -> Result<(), BookFault>
    requires { seat.old.table ≡ board_id board.now }
    ensures { MatchResult result (λ _. OfferedAll seat.old book.old seat.new book.new) (λ fault. StopsOffering seat.old book.old fault seat.new book.new) }
{
    hand_outs_are_noted();
    for _ in 0..seat.room() {
        match offer_next(board, seat, book) {
            Ok(true) => {}
            Ok(false) => return Ok(()),
            Err(fault) => return Err(fault),
        }
    }
    Ok(())
}

// Hands out the next job and offers it. Answers whether there was one.
fn offer_next(board: &Board, seat: &mut AskerSeat, book: &mut Book) -> Result<bool, BookFault>
    requires board { seat.old.table ≡ board_id board.now }
    requires room { jobs seat.old.row < 8 }
    ensures offered { MatchResult result
        (λ offered. OffersNext seat.old book.old offered seat.new book.new)
        (λ fault. RefusesNext seat.old book.old fault seat.new book.new) }
    ensures same { SameAsker seat.old seat.new }
{
    hand_outs_are_noted();
    match book.hand_out() {
        Ok(Some(job)) => match board.offer(seat, job) {
            Ok(_) => Ok(true),
            Err(_) => unreachable!(),
        },
        Ok(None) => Ok(false),
        Err(fault) => Err(fault),
    }
}
