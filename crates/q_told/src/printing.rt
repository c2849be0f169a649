//! What is printed of an event.

ghost use Rattle.std.specs.Prelude.{◌≡◌, ◌++◌, OnOk, string_bytes};
ghost use Rattle.q_told.specs.Printing.{told_lines, message_line, message_lines};

use q_cluster::Cluster;
use q_desk::Completed;
use q_history::{Answer, EventAnswer, Handed};
use sc_world::Sent;
use std::alloc::AllocError;

/// Prints what an accepted event tells beside its messages.
pub fn print_told(lines: &mut String, told: &EventAnswer) -> Result<(), AllocError>
    ensures { OnOk result (string_bytes lines.new ≡ string_bytes lines.old ++ told_lines told.now) }
{
    match told {
        EventAnswer::Entered | EventAnswer::Left | EventAnswer::Crashed => writeln!(lines, "ok"),
        EventAnswer::Registered(program) => {
            let program = program.number();
            writeln!(lines, "program {program}")
        }
        EventAnswer::Asked(query) => writeln!(lines, "query {query}"),
        EventAnswer::Stored(tag) => writeln!(lines, "store {tag}"),
        EventAnswer::Delivered(None) => Ok(()),
        EventAnswer::Delivered(Some(Completed::Stored(tag))) => writeln!(lines, "stored {tag}"),
        EventAnswer::Delivered(Some(Completed::Returned(query))) => writeln!(
            lines,
            "returned {query}"
        ),
        EventAnswer::HandedOut(None) => writeln!(lines, "no job"),
        EventAnswer::HandedOut(Some(Handed { job, query })) => writeln!(
            lines,
            "job {job} query {query}"
        ),
        EventAnswer::Finished(Answer { node, query, ran }) => {
            let acc = ran.acc;
            let steps = ran.steps;
            writeln!(lines, "answer {node} {query} {acc} {steps}")
        }
    }
}

/// Prints the number of a message and its kind, if it was sent.
fn print_message(lines: &mut String, cluster: &Cluster, number: usize) -> Result<(), AllocError>
    ensures { OnOk result (string_bytes lines.new ≡ string_bytes lines.old ++ message_line cluster.now.past.sent number) }
{
    match cluster.message(number) {
        Some(message) => {
            let kind = message.kind().name();
            writeln!(lines, "message {number} {kind}")
        }
        None => Ok(()),
    }
}

/// Prints the messages that an accepted event sent, in the order of their numbers.
pub fn print_messages(lines: &mut String, cluster: &Cluster, sent: Sent) -> Result<(), AllocError>
    ensures { OnOk result (string_bytes lines.new ≡ string_bytes lines.old ++ message_lines cluster.now.past.sent sent.first sent.count) }
{
    let there = cluster.sent().saturating_sub(sent.first);
    for offset in 0..sent.count.min(there) {
        print_message(lines, cluster, sent.first + offset)?;
    }
    Ok(())
}
