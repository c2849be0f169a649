//! What a journal tells.

ghost use Rattle.std.specs.Prelude.{◌≡◌, ◌++◌, IfOk, IfErr, OnOk, codes, string_bytes};
ghost use Rattle.q_desk.specs.Desks.{answer_in};
ghost use Rattle.q_command.specs.Audit.{Audits, IsUnaudited, answer_line, answer_lines};

use q_book::Book;
use q_replay::replay;
use q_session::{Phase, Query};
use q_told::Refusal;
use std::alloc::{AllocError, Global};

/// Prints the answer of the query of this number, if it is recorded.
fn print_answer(lines: &mut String, number: usize, phase: &Phase) -> Result<(), AllocError>
    ensures { OnOk result (string_bytes lines.new ≡ string_bytes lines.old ++ answer_line number (answer_in phase.now)) }
{
    match phase {
        Phase::Answered(_, ran) => {
            let acc = ran.acc;
            let steps = ran.steps;
            writeln!(lines, "answer {number} {acc} {steps}")
        }
        _ => Ok(()),
    }
}

/// Prints the recorded answers of queries, by their numbers.
fn print_answers(lines: &mut String, queries: &[Query]) -> Result<(), AllocError>
    ensures { OnOk result (string_bytes lines.new ≡ string_bytes lines.old ++ answer_lines 0 queries.now) }
{
    for (number, query) in queries.iter().enumerate() {
        print_answer(lines, number, &query.phase)?;
    }
    Ok(())
}

/// The lines of the answers that a book records.
fn told(alloc: Global, book: &Book) -> Result<String, Refusal>
    ensures told { IfOk result (λ lines. string_bytes lines ≡ answer_lines 0 book.now.desk.queries ++ codes "journal ok\n") }
    ensures refused { IfErr result (λ fault. fault ≡ Refusal.OutOfMemory) }
{
    let mut lines = String::new(alloc);
    print_answers(&mut lines, book.desk().queries())?;
    lines.push_str("journal ok\n")?;
    Ok(lines)
}

/// Replays the journal of a node, and answers the lines of the answers that the node recorded. Each is right.
///
/// Refused where the bytes are no journal of a node: 57 JournalForm or 58 JournalMismatch with the least faulty event,
/// where the head is event 0; or 99 OutOfMemory.
pub fn audit(alloc: Global, bytes: &[u8]) -> Result<String, Refusal>
    ensures audited { IfOk result (λ lines. Audits bytes.now (string_bytes lines)) }
    ensures refused { IfErr result (IsUnaudited bytes.now) }
{
    let book = replay(alloc, bytes)?;
    told(alloc, &book)
}
