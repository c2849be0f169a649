//! What the holder of a seat has done. No value of these types is made: they stand in contracts and in the rule.

use crate::found::Look;
use q_session::{Done, Job};
use std::collections::LinkedList;

/// What an asker has done.
pub struct Asking {
    /// Its number, from 0. Its eight slots are those from eight times the number.
    pub number: u64,
    /// The jobs that it offered, in turn.
    pub offered: LinkedList<Job>,
    /// The results that it received, in turn.
    pub received: LinkedList<Done>,
    /// The open job of each of its eight slots.
    pub row: LinkedList<Option<Job>>,
    /// Its looks, in turn.
    pub looks: LinkedList<Look>,
    /// How many of its slots it took as the board opened.
    pub opened: u64,
    /// The slot that its last look showed finished.
    pub shown: Option<u64>,
}

/// What a runner has done.
pub struct Running {
    /// Its number, as a claimed slot's word names it: its place among all seats.
    pub number: u64,
    /// The claimed job of each slot of the board.
    pub held: LinkedList<Option<Job>>,
    /// The results that it finished, in turn.
    pub finished: LinkedList<Done>,
    /// Its looks, in turn. A try to claim is one.
    pub looks: LinkedList<Look>,
}

/// How far the first seat, which is cut into all others, has come as the board opens.
pub struct Making {
    /// How many slots the board has.
    pub lanes: u64,
    /// How many seats were cut off.
    pub made: u64,
}

/// What a seat's holder has done.
pub enum Holder {
    /// The first seat.
    Maker(Making),
    /// An asker's seat.
    Asker(Asking),
    /// A runner's seat.
    Runner(Running),
}
