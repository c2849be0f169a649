//! The longest path of a text, by one pass from its end.

ghost use Rattle.std.specs.Prelude.{◌≡◌, ◌<◌, ◌≤◌, ◌+◌, IfOk};
ghost use Rattle.bq_insn.specs.Slots.{units, insn_at};
ghost use Rattle.bq_insn.specs.declared.insn.Insn.{Insn};
ghost use Rattle.bq_flow.specs.Paths.{IsLegalFlow, IsLongest};
ghost use Rattle.bq_flow.specs.Table.{IsTable, IsLongestFrom};

use crate::successors::{Successors, successors_at};
use bq_insn::Text;
use std::alloc::{AllocError, Global};

/// The longest path from a unit, by those from the units behind it.
fn longest_from(text: &Text, unit: usize, table: &[u32]) -> u32
    requires legal { IsLegalFlow text.now }
    requires within { unit < units text.now }
    requires few { units text.now ≤ 4096 }
    requires table { IsTable text.now table.now (unit + 1) }
    ensures longest { (i : Insn) → insn_at text.now unit ≡ Some i → IsLongestFrom text.now unit result }
    ensures small { result + unit ≤ units text.now }
{
    match successors_at(text, unit) {
        Successors::None => 1,
        Successors::One(next) => 1 + table[next],
        Successors::Two(next, target) => 1 + table[next].max(table[target]),
    }
}

/// The greatest number of instructions on a path from unit 0 to an exit.
pub(crate) fn longest(alloc: Global, text: &Text) -> Result<u32, AllocError>
    requires { IsLegalFlow text.now }
    ensures { IfOk result (IsLongest text.now) }
{
    let mut table = vec![in alloc; 0_u32; text.units()]?;
    for unit in (0..text.units()).rev() {
        table[unit] = longest_from(text, unit, &table);
    }
    Ok(table[0])
}
