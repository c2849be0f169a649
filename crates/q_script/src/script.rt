//! Scripts.

ghost use Rattle.std.specs.Prelude.{◌≡◌, ◌≤◌, IfOk, IfErr, MatchResult};
ghost use Rattle.q_script.specs.Founding.{SpellsFounding};
ghost use Rattle.q_script.specs.Script.{AreLines, IsFault, IsFaultBehind, IsFaultOf, IsNoFounding, IsScript, IsScriptOf, reason};

use crate::founding::Founding;
use crate::line::{Line, LineFault, ScriptLine};
use crate::text::{cut, without_last_feed};
use reasons::{Reason, told};
use std::alloc::Global;

/// A script: how its cluster is founded, and its events in turn.
#[derive(Drop)]
pub struct Script {
    /// How the cluster is founded.
    pub founding: Founding,
    /// The events, of which the first stands on line 2.
    pub lines: Vec<ScriptLine>,
}

/// Why a script is not read.
#[derive(Clone, Copy, Debug, PartialEq, Eq)]
pub enum ScriptFault {
    /// 9: this is the least line of another form, counted from 1.
    Syntax {
        /// The line.
        line: usize,
    },
    /// 99: memory ran out.
    OutOfMemory,
}

impl ScriptFault {
    /// The reason by which the fault is told, 9 or 99.
    pub fn reason(self) -> Reason
        ensures { result ≡ reason self }
    {
        told!(self, ScriptFault: Syntax { .. }, OutOfMemory)
    }
}

/// The founding of line 1.
fn found(text: &str) -> Result<Founding, ScriptFault>
    ensures { MatchResult result (SpellsFounding text.now) (λ fault. (fault ≡ ScriptFault.Syntax 1) × IsNoFounding text.now) }
{
    match Founding::read(text) {
        Some(founding) => Ok(founding),
        None => Err(ScriptFault::Syntax { line: 1 }),
    }
}

/// What the lines of a text spell, before which so many stand: none or one. Refused are 9 Syntax, with the least line
/// that is of another form, and 99.
pub fn read_lines<L: Line>(alloc: Global, text: &str, before: usize) -> Result<Vec<L>, ScriptFault>
    requires { before ≤ 1 }
    ensures read { IfOk result (λ lines. AreLines L.spells text.now lines.items) }
    ensures fault { IfErr result (IsFaultBehind L.spells before text.now) }
{
    let mut lines = Vec::new(alloc);
    for part in text.split('\n') {
        let line = match L::read(alloc, part) {
            Ok(line) => line,
            Err(LineFault::Form) => {
                return Err(ScriptFault::Syntax {
                    line: before + lines.len() + 1,
                });
            }
            Err(LineFault::OutOfMemory) => return Err(ScriptFault::OutOfMemory),
        };
        if lines.push(line).is_err() {
            return Err(ScriptFault::OutOfMemory);
        }
    }
    Ok(lines)
}

/// The founding that a text spells on its first line, and the lines behind it. Refused are 9 Syntax, with the least
/// line that is of another form, and 99.
pub fn read_script<L: Line>(alloc: Global, source: &str) -> Result<(Founding, Vec<L>), ScriptFault>
    ensures read { IfOk result (λ script. IsScriptOf L.spells source.now script.0 script.1.items) }
    ensures fault { IfErr result (IsFaultOf L.spells source.now) }
{
    let body = without_last_feed(source);
    let Some((first, rest)) = cut(body, '\n') else {
        let founding = found(body)?;
        return Ok((founding, Vec::new(alloc)));
    };
    let founding = found(first)?;
    let lines = read_lines(alloc, rest, 1)?;
    Ok((founding, lines))
}

impl Script {
    /// The script that a text spells. Refused are 9 Syntax, with the least line that is of another form, and 99.
    pub fn read(alloc: Global, source: &str) -> Result<Script, ScriptFault>
        ensures read { IfOk result (IsScript source.now) }
        ensures fault { IfErr result (IsFault source.now) }
    {
        let (founding, lines) = read_script(alloc, source)?;
        Ok(Script { founding, lines })
    }
}
