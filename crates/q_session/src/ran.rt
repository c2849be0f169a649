//! What a program comes to.

ghost use Rattle.std.specs.Prelude.{◌≡◌};

/// What the runs of a program over the records of a view come to.
#[derive(Clone, Copy, Debug, PartialEq, Eq)]
pub struct Ran {
    /// The accumulator after the last record.
    pub acc: u64,
    /// How many instructions were executed.
    pub steps: u64,
}

impl Ran {
    /// Nothing was run yet: the accumulator is still the start value.
    pub(crate) fn begun(start: u64) -> Ran
        ensures acc { result.acc ≡ start }
        ensures steps { result.steps ≡ 0 }
    {
        Ran {
            acc: start,
            steps: 0,
        }
    }
}
