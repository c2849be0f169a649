//! What a slot's word shows.

ghost use Rattle.std.specs.Prelude.{◌≡◌};
ghost use Rattle.q_board.specs.Words.{word_of, found_of};

/// The states of a slot that its word shows.
#[derive(Clone, Copy)]
pub enum Found {
    /// Its asker has no open job there.
    Empty,
    /// A job waits there for a runner.
    Ready,
    /// A result waits there for the asker.
    Finished,
    /// The runner whose seat has this number has the job.
    Claimed(u32),
}

impl Found {
    /// The word that shows this state; each state has its own.
    pub fn word(self) -> u64
        ensures word { result ≡ word_of self }
        ensures read { found_of result ≡ self }
    {
        match self {
            Found::Empty => 0,
            Found::Ready => 1,
            Found::Finished => 2,
            Found::Claimed(number) => 3 + u64::from(number),
        }
    }
}

/// One look at a slot's word. No value of it is made: it stands in what a seat has done.
#[derive(Clone, Copy)]
pub struct Look {
    /// The slot, from 0.
    pub slot: u64,
    /// What its word showed.
    pub found: Found,
}
