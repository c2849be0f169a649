//! Recorded answers.

ghost use Rattle.std.specs.Prelude.{◌≡◌};
ghost use Rattle.q_desk.specs.Queries.{answer_in};

use q_session::{Phase, Ran};

/// The recorded answer of a query in this phase, if there is one yet. Takes no memory.
pub(crate) fn answer_in(phase: &Phase) -> Option<Ran>
    ensures { result ≡ answer_in phase.now }
{
    match phase {
        Phase::Answered(_, ran) => Some(*ran),
        _ => None,
    }
}
