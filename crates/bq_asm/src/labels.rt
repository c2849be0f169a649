//! Names that lines define, and the jumps to them.

ghost use Rattle.std.specs.Prelude.{◌≡◌, IfOk, MatchOption, [], map, List};
ghost use Rattle.bq_asm.specs.Statement.{Line as SpelledLine};
ghost use Rattle.bq_asm.specs.Labels.{NoLine, IsFirstLine, IsRepeated, IsUnresolved, Mean, Means, statement_units};
ghost use Rattle.bq_asm.specs.Placed.{IsPlaced};
ghost use Rattle.bq_asm.specs.View.{line_view, statement_view};

use crate::statement::{Line, Statement};
use bq_insn::Insn;
use std::alloc::{AllocError, Global};
use std::collections::{HashMap, HashSet};

/// The number of the least line that defines a name a second time. The first line has number 1.
///
/// The one error is that memory ran out.
pub(crate) fn first_repeated(alloc: Global, lines: &[Line<'_>]) -> Result<Option<usize>, AllocError>
    ensures { IfOk result (λ r. MatchOption r (NoLine IsRepeated [] (map line_view lines.now)) (IsFirstLine IsRepeated [] (map line_view lines.now))) }
{
    let mut names = HashSet::new(alloc);
    for (index, line) in lines.iter().enumerate() {
        if let Line::Label(name) = line {
            if !names.insert(*name)? {
                return Ok(Some(index + 1));
            }
        }
    }
    Ok(None)
}

/// The instructions that lines mean, as far as their jumps are resolved.
#[derive(Drop)]
pub struct Resolved {
    /// The instructions, in order.
    pub insns: Vec<Insn>,
    /// The number of the least line with a jump that is not resolved.
    pub unresolved: Option<usize>,
}

impl Statement<'_> {
    /// How many units its instruction has.
    fn units(&self) -> usize
        ensures { result ≡ statement_units (statement_view self.now) }
    {
        match self {
            Statement::Complete(Insn::Wide { .. }) => 2,
            _ => 1,
        }
    }

    /// The instruction that it means, before lines of so many units with these labels.
    fn insn(&self, labels: &HashMap<&str, usize>, total: usize) -> Option<Insn>
        ensures { (later : List SpelledLine) → IsPlaced labels.now total later →
            MatchOption result ((i : Insn) → Means (statement_view self.now) later i → ⊥) (Means (statement_view self.now) later) }
    {
        match self {
            Statement::Complete(insn) => Some(*insn),
            Statement::JumpTo { jump, label } => {
                let behind = labels.get(*label).copied()?;
                let distance = i64::try_from(total.checked_sub(behind)?).ok()?;
                jump.by(distance)
            }
        }
    }
}

/// The instructions that lines mean. Where a jump is not resolved its line is told, and the instructions are worth
/// nothing.
///
/// The one error is that memory ran out.
pub(crate) fn resolve(alloc: Global, mut lines: Vec<Line<'_>>) -> Result<Resolved, AllocError>
    ensures { IfOk result (λ r. MatchOption r.unresolved
        (NoLine IsUnresolved [] (map line_view lines.entry.items) × Mean (map line_view lines.entry.items) r.insns.items)
        (IsFirstLine IsUnresolved [] (map line_view lines.entry.items))) }
{
    let mut labels = HashMap::new(alloc);
    let mut insns = Vec::new(alloc);
    let mut unresolved = None;
    let mut total = 0;
    while let Some(line) = lines.pop() {
        match line {
            Line::Blank => {}
            Line::Label(name) => {
                labels.insert(name, total)?;
            }
            Line::Instruction(statement) => {
                match statement.insn(&labels, total) {
                    Some(insn) => insns.push(insn)?,
                    None => unresolved = Some(lines.len() + 1),
                }
                total += statement.units();
            }
        }
    }
    insns.reverse();
    Ok(Resolved { insns, unresolved })
}
