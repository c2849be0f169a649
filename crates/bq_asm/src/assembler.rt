ghost use Rattle.std.specs.Prelude.{◌≡◌, IfOk, IfErr, MatchResult, List, map};
ghost use Rattle.bq_insn.specs.Slots.{IsText};
ghost use Rattle.bq_asm.specs.Source.{Says, IsSource, IsFault};
ghost use Rattle.bq_asm.specs.Steps.{IsReadFault, IsLengthFault, least};
ghost use Rattle.bq_asm.specs.View.{line_view};

use crate::fault::AsmFault;
use crate::labels::{first_repeated, resolve};
use crate::line::read_line;
use crate::statement::Line;
use bq_insn::{DecodeFault, Insn, Text};
use std::alloc::Global;

/// What the lines of a source say.
fn read_lines(alloc: Global, source: &str) -> Result<Vec<Line<'_>>, AsmFault>
    ensures read { IfOk result (λ lines. Says source.now (map line_view lines.items)) }
    ensures fault { IfErr result (IsReadFault source.now) }
{
    let mut lines = Vec::new(alloc);
    for text in source.split('\n') {
        let Some(line) = read_line(text) else {
            return Err(AsmFault::Syntax {
                line: lines.len() + 1,
            });
        };
        if lines.push(line).is_err() {
            return Err(AsmFault::OutOfMemory);
        }
    }
    Ok(lines)
}

/// The lesser of two numbers of lines.
fn least(a: Option<usize>, b: Option<usize>) -> Option<usize>
    ensures { result ≡ least a b }
{
    match (a, b) {
        (Some(a), Some(b)) => Some(a.min(b)),
        (Some(a), None) => Some(a),
        (None, b) => b,
    }
}

/// The text of these instructions.
fn text_of(alloc: Global, insns: &[Insn]) -> Result<Text, AsmFault>
    ensures same { IfOk result (λ t. t ≡ insns.now) }
    ensures text { IfOk result IsText }
    ensures fault { IfErr result (IsLengthFault insns.now) }
{
    match Text::of(alloc, insns) {
        Ok(text) => Ok(text),
        Err(DecodeFault::BadLength) => Err(AsmFault::BadLength),
        Err(DecodeFault::TooLong) => Err(AsmFault::TooLong),
        Err(DecodeFault::OutOfMemory) => Err(AsmFault::OutOfMemory),
        Err(DecodeFault::At { .. }) => unreachable!(),
    }
}

fn text_from(alloc: Global, source: &str) -> Result<Text, AsmFault>
    ensures spelled { IfOk result (λ t. IsSource source.now t) }
    ensures text { IfOk result IsText }
    ensures fault { IfErr result (IsFault source.now) }
{
    let lines = read_lines(alloc, source)?;
    let repeated = first_repeated(alloc, &lines)?;
    let resolved = resolve(alloc, lines)?;
    if let Some(line) = least(repeated, resolved.unresolved) {
        return Err(AsmFault::Label { line });
    }
    text_of(alloc, &resolved.insns)
}

/// The text that a source spells, or what is first wrong with it.
pub fn assemble(alloc: Global, source: &str) -> Result<Text, AsmFault>
    // What is assembled is a text that the source spells.
    ensures spelled { IfOk result (λ t. IsSource source.now t) }
    ensures text { IfOk result IsText }

    // A source that spells a text is assembled to it, unless memory runs out.
    ensures all { (t : List Insn) → IsText t → IsSource source.now t → MatchResult result (λ u. u ≡ t) (λ e. e ≡ AsmFault.OutOfMemory) }

    // Which fault it is.
    ensures fault { IfErr result (IsFault source.now) }
{
    text_from(alloc, source)
}
