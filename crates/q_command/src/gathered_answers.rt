//! The lines of recorded answers that are gathered.

ghost use Rattle.std.specs.Prelude.{◌≡◌, ◌++◌, OnOk, string_bytes};
ghost use Rattle.q_command.specs.GatheredLines.{answer_line, answer_lines, answers_of, store_text, view_text};

use q_book::Book;
use q_session::{Phase, Query};
use sc_view::{Stored, View};
use std::alloc::AllocError;

/// Prints a node, and which of its stores a view has.
fn print_store(lines: &mut String, node: u64, stored: &Stored) -> Result<(), AllocError>
    ensures { OnOk result (string_bytes lines.new ≡ string_bytes lines.old ++ store_text (node, stored.now)) }
{
    let number = stored.number();
    write!(lines, " {node}:{number}")
}

/// Prints which stores a view has, by their nodes.
fn print_view(lines: &mut String, view: &View) -> Result<(), AllocError>
    ensures { OnOk result (string_bytes lines.new ≡ string_bytes lines.old ++ view_text view.now) }
{
    for (node, stored) in view.records() {
        print_store(lines, node, stored)?;
    }
    Ok(())
}

/// Prints the answer of the query of this number at the node, with its view, if it is recorded.
fn print_answer(
    lines: &mut String,
    node: u64,
    number: usize,
    phase: &Phase,
) -> Result<(), AllocError>
    ensures { OnOk result (string_bytes lines.new ≡ string_bytes lines.old ++ answer_line node number phase.now) }
{
    match phase {
        Phase::Answered(view, ran) => {
            let acc = ran.acc;
            let steps = ran.steps;
            write!(lines, "answer {node} {number} {acc} {steps} view")?;
            print_view(lines, view)?;
            writeln!(lines, "")
        }
        _ => Ok(()),
    }
}

/// Prints the recorded answers of a node's queries, by their numbers.
fn print_queries(lines: &mut String, node: u64, queries: &[Query]) -> Result<(), AllocError>
    ensures { OnOk result (string_bytes lines.new ≡ string_bytes lines.old ++ answer_lines node 0 queries.now) }
{
    for (number, query) in queries.iter().enumerate() {
        print_answer(lines, node, number, &query.phase)?;
    }
    Ok(())
}

/// Prints the answers that books record, in turn.
pub(crate) fn print_answers(lines: &mut String, books: &[Book]) -> Result<(), AllocError>
    ensures { OnOk result (string_bytes lines.new ≡ string_bytes lines.old ++ answers_of books.now) }
{
    for book in books {
        print_queries(lines, book.id(), book.desk().queries())?;
    }
    Ok(())
}
