//! The seats of those who are served at a door: who waits in one, for how long, and who has to give it up.

use std::alloc::{AllocError, Global};

/// A seat.
#[derive(Clone, Copy, Debug, PartialEq, Eq)]
enum Seat {
    /// Nobody has it.
    Free,
    /// A request of its holder has begun.
    Busy,
    /// Its holder has waited for the first byte of a request since this turn.
    Idle(u64),
    /// Its holder has to give it up.
    Evicted,
}

/// The seats of a door. Turns are counted whenever a holder begins to wait, so the least one has waited longest.
#[derive(Drop)]
pub(crate) struct Seats {
    turns: u64,
    seats: Vec<Seat>,
}

impl Seats {
    /// This many seats, all of them free.
    pub(crate) fn new(alloc: Global, count: usize) -> Result<Seats, AllocError> {
        let seats = vec![in alloc; Seat::Free; count]?;
        Ok(Seats { turns: 0, seats })
    }

    /// Gives a seat a new state.
    fn set(&mut self, place: usize, seat: Seat) {
        if let Some(old) = self.seats.get_mut(place) {
            *old = seat;
        }
    }

    /// The state of a seat.
    fn at(&self, place: usize) -> Seat {
        self.seats.get(place).copied().unwrap_or(Seat::Evicted)
    }

    /// Takes a free seat, if there is one.
    pub(crate) fn take(&mut self) -> Option<usize> {
        let place = self.seats.iter().position(|seat| *seat == Seat::Free)?;
        self.set(place, Seat::Busy);
        Some(place)
    }

    /// The holder of a seat begins to wait for a request.
    pub(crate) fn rest(&mut self, place: usize) {
        if self.at(place) == Seat::Busy {
            self.turns = self.turns.saturating_add(1);
            self.set(place, Seat::Idle(self.turns));
        }
    }

    /// A request of the holder begins. Whether the seat is its own still.
    pub(crate) fn rouse(&mut self, place: usize) -> bool {
        if self.is_lost(place) {
            return false;
        }
        self.set(place, Seat::Busy);
        true
    }

    /// Whether the holder has to give its seat up.
    pub(crate) fn is_lost(&self, place: usize) -> bool {
        self.at(place) == Seat::Evicted
    }

    /// Gives a seat back.
    pub(crate) fn leave(&mut self, place: usize) {
        self.set(place, Seat::Free);
    }

    /// The seat whose holder has waited longest, if one waits.
    fn longest_idle(&self) -> Option<usize> {
        let mut longest = None;
        for (place, seat) in self.seats.iter().enumerate() {
            longest = longer_idle(longest, place, *seat);
        }
        longest.map(|(place, _)| place)
    }

    /// Has the holder that has waited longest give its seat up, unless one already has to. Whether a seat becomes free
    /// soon.
    pub(crate) fn make_room(&mut self) -> bool {
        if self.seats.iter().any(|seat| *seat == Seat::Evicted) {
            return true;
        }
        match self.longest_idle() {
            Some(place) => {
                self.set(place, Seat::Evicted);
                true
            }
            None => false,
        }
    }
}

/// Of a seat that has waited since a turn, and another, the one that has waited longer.
fn longer_idle(longest: Option<(usize, u64)>, place: usize, seat: Seat) -> Option<(usize, u64)> {
    match (longest, seat) {
        (None, Seat::Idle(turn)) => Some((place, turn)),
        (Some((_, since)), Seat::Idle(turn)) if turn < since => Some((place, turn)),
        _ => longest,
    }
}
