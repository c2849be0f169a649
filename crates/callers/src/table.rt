//! A caller of `q_table`.

ghost use Rattle.std.specs.Prelude.{◌≡◌, [], Ok, IfOk};
ghost use Rattle.q_table.specs.Programs.{registered};

use bq_check::Certified;
use q_table::{Program, ProgramId, Programs, TableFault};
use std::alloc::Global;

/// A table of one program, and the id under which it is there.
pub fn table_of_one(
    alloc: Global,
    certified: Certified,
) -> Result<(Programs, ProgramId), TableFault>
    ensures { IfOk result (λ made. registered [] certified ≡ Ok (made.1, made.0)) }
{
    let program = Program::new(alloc, certified)?;
    let mut programs = Programs::new(alloc);
    let id = programs.register(&program)?;
    Ok((programs, id))
}
