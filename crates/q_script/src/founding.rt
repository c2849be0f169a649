//! The line that founds a cluster.

ghost use Rattle.std.specs.Prelude.{◌≡◌};
ghost use Rattle.q_script.specs.Words.{Lacks, Reads};
ghost use Rattle.q_script.specs.Founding.{SpellsFirst, SpellsFraction, SpellsFounding};

use crate::numeral::{leading, pair};
use crate::text::cut;
use sc_members::Fraction;

/// A fraction as `4/5`.
fn fraction(text: &str) -> Option<Fraction>
    ensures { Reads SpellsFraction text.now result }
{
    let (numerator, denominator) = pair(text, '/')?;
    Some(Fraction {
        numerator,
        denominator,
    })
}

/// The number and the fractions beta and gamma of a line that begins with this word, with one space between.
pub(crate) fn first_line(text: &str, word: &str) -> Option<(u64, Fraction, Fraction)>
    requires { Lacks 32 word.now }
    ensures { Reads (SpellsFirst word.now) text.now result }
{
    let (first, rest) = cut(text, ' ')?;
    if first != word {
        return None;
    }
    let (number, fractions) = leading(rest, ' ')?;
    let (beta, gamma) = cut(fractions, ' ')?;
    let beta = fraction(beta)?;
    let gamma = fraction(gamma)?;
    Some((number, beta, gamma))
}

/// How a cluster is founded.
#[derive(Clone, Copy)]
pub struct Founding {
    /// The founders are 1 to this number.
    pub count: u64,
    /// The fraction for the phases of operations.
    pub beta: Fraction,
    /// The fraction for joining.
    pub gamma: Fraction,
}

impl Founding {
    /// A line as `nodes 3 4/5 4/5`, with beta before gamma.
    pub fn read(text: &str) -> Option<Founding>
        ensures { Reads SpellsFounding text.now result }
    {
        let (count, beta, gamma) = first_line(text, "nodes")?;
        Some(Founding { count, beta, gamma })
    }
}
