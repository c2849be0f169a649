//! A door's seats, and whether somebody waits at the door.

use crate::seats::Seats;
use std::alloc::{AllocError, Global};
use std::sync::atomic::{AtomicBool, Ordering};
use std::sync::{Mutex, Wait};

/// The seats of a door, which its threads share, and whether no thread waits at the door.
#[derive(Drop)]
pub(crate) struct Entrance {
    seats: Mutex<Seats>,
    shut: AtomicBool,
}

impl Entrance {
    /// A door with this many seats, at which no thread waits.
    pub(crate) fn new(alloc: Global, seats: usize) -> Result<Entrance, AllocError> {
        Ok(Entrance {
            seats: Mutex::new(Seats::new(alloc, seats)?),
            shut: AtomicBool::new(true),
        })
    }

    /// Whether no thread waits at the door.
    pub(crate) fn is_shut(&self) -> bool {
        self.shut.load(Ordering::SeqCst)
    }

    /// A thread waits at the door from now on, or no thread does.
    pub(crate) fn set_shut(&self, shut: bool) {
        self.shut.store(shut, Ordering::SeqCst);
    }

    /// Takes a free seat, if there is one.
    pub(crate) fn take<R: Wait>(&self, rt: &R) -> Option<usize> {
        self.seats.lock(rt).take()
    }

    /// Has the one that has waited longest for a request give its seat up. Whether a seat becomes free soon.
    pub(crate) fn make_room<R: Wait>(&self, rt: &R) -> bool {
        self.seats.lock(rt).make_room()
    }

    /// The holder of a seat begins to wait for a request.
    pub(crate) fn rest<R: Wait>(&self, rt: &R, place: usize) {
        self.seats.lock(rt).rest(place);
    }

    /// A request of the holder begins. Whether the seat is its own still.
    pub(crate) fn rouse<R: Wait>(&self, rt: &R, place: usize) -> bool {
        self.seats.lock(rt).rouse(place)
    }

    /// Whether the holder has to give its seat up.
    pub(crate) fn is_lost<R: Wait>(&self, rt: &R, place: usize) -> bool {
        self.seats.lock(rt).is_lost(place)
    }

    /// Gives a seat back.
    pub(crate) fn leave<R: Wait>(&self, rt: &R, place: usize) {
        self.seats.lock(rt).leave(place);
    }
}
