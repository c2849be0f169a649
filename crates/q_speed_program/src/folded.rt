//! Folds to be made, and what they come to.

/// How a program is folded over records.
#[repr(C)]
#[derive(Clone, Copy)]
pub struct Way {
    /// What each fold begins with.
    pub start: u64,
    /// How many folds are made, one behind the other.
    pub folds: u64,
    /// Whether the machine that tests every access makes them, in place of the loop without tests.
    pub is_tested: bool,
}

/// What the folds came to.
#[repr(C)]
#[derive(Clone, Copy)]
pub struct Folded {
    /// The accumulator behind the last record of the last fold.
    pub acc: u64,
    /// How many instructions all folds executed.
    pub steps: u64,
    /// False where the program was refused, or memory ran out.
    pub is_done: bool,
}

impl Folded {
    ghost use Rattle.std.specs.Prelude.{◌≡◌, IsTrue};

    /// Before the first step of a fold from this value.
    pub fn from_start(start: u64) -> Folded
        ensures acc { result.acc ≡ start }
        ensures steps { result.steps ≡ 0 }
        ensures done { IsTrue result.is_done }
    {
        Folded {
            acc: start,
            steps: 0,
            is_done: true,
        }
    }
}

/// Where nothing was folded.
pub const REFUSED: Folded = Folded {
    acc: 0,
    steps: 0,
    is_done: false,
};
