//! What is replied to requests.

ghost use Rattle.std.specs.Prelude.{◌≡◌, ℕ, List, OnOk, OnErr};
ghost use Rattle.std.specs.Io.KnownBytes.{Appends};
ghost use Rattle.q_outside.specs.Counts.{count_after};
ghost use Rattle.q_net.specs.Replies.{reply_bytes};

use q_outside::{Counted, TransportFailed};
use std::io::Write;

/// A reply.
#[derive(Clone, Copy)]
pub enum Reply {
    /// A program's number.
    Program(u32),
    /// A query's number, or a store's tag.
    Number(u64),
    /// The query has no answer yet.
    Open,
    /// The query's answer.
    Answer { acc: u64, steps: u64 },
    /// The number of a refusal.
    Refused(u8),
}

impl Reply {
    /// Writes the reply's bytes. Refused with 86 where a write fails; some of them may have been written before.
    #[tactic(auto, unfolding(spelling::specs::Numbers::number_bytes))]
    pub fn write<W: Write>(self, out: &mut Counted<W>) -> Result<(), TransportFailed>
        ensures written { OnOk result (Appends (W.contents out.old.inner) (W.contents out.new.inner) (reply_bytes self)) }
        ensures failed { OnErr result ((part : List ℕ) × Appends (W.contents out.old.inner) (W.contents out.new.inner) part) }
        ensures counted { out.new.failures ≡ count_after result out.old.failures }
    {
        match self {
            Reply::Program(program) => {
                let [a, b, c, d] = program.to_le_bytes();
                out.put(&[0, a, b, c, d])
            }
            Reply::Number(number) => {
                let [a, b, c, d, e, f, g, h] = number.to_le_bytes();
                out.put(&[0, a, b, c, d, e, f, g, h])
            }
            Reply::Open => out.put(&[0, 0]),
            Reply::Answer { acc, steps } => {
                let [a, b, c, d, e, f, g, h] = acc.to_le_bytes();
                let [i, j, k, l, m, n, o, p] = steps.to_le_bytes();
                out.put(&[0, 1, a, b, c, d, e, f, g, h, i, j, k, l, m, n, o, p])
            }
            Reply::Refused(number) => out.put(&[number]),
        }
    }
}
