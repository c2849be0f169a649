//! What is told of each run.

ghost use Rattle.std.specs.Prelude.{ℕ};

/// Is called before and after each job that a runner runs, in the runner's thread. Its two ghost members are facts that
/// only its calls give to code that does not know which gate it is: what holds them made the calls.
pub trait Gate {
    // A job of the query with this number was let in.
    ghost entered: { Self → ℕ → Type 0 };

    // A job of the query with this number was let out.
    ghost left: { Self → ℕ → Type 0 };

    /// The job of the query with this number was claimed, and is run next.
    fn before(&self, query: usize)
        ensures { entered self.now query };

    /// The job of the query with this number was run and finished.
    fn after(&self, query: usize)
        ensures { left self.now query };
}

/// The gate through which every job passes at once.
pub struct Open;

impl Gate for Open {
    ghost entered = { λ _ _. Unit {0} };

    ghost left = { λ _ _. Unit {0} };

    fn before(&self, _query: usize) {}

    fn after(&self, _query: usize) {}
}
