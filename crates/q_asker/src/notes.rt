//! What a person reads about lines that were not done. No contract speaks of these words.

use crate::connection::ExchangeFault;
use crate::replies::reason_of;
use crate::script::{ClientLine, read_line};
use crate::step::{Cause, LineEnd};
use bq_explain::{of_event, write_shown};
use q_script::LineFault;
use q_told::{Refusal, write_instruction};
use reasons::Reason;
use std::alloc::{AllocError, Global};
use std::io;
use std::io::Write;

/// The bytes of the program that a line registers; none where it registers none.
fn code_of(alloc: Global, text: &str) -> Result<Vec<u8>, AllocError> {
    match read_line(alloc, text) {
        Ok(ClientLine::Program { code }) => Ok(code),
        Ok(_) | Err(LineFault::Form) => Ok(Vec::new(alloc)),
        Err(LineFault::OutOfMemory) => Err(AllocError),
    }
}

/// What would satisfy a node that refuses a request for this reason; empty where nothing is told.
fn words_of(reason: Reason) -> &'static str {
    match reason {
        Reason::NotJoined => "The node has not joined yet: its status says when it has.",
        Reason::SessionsFull =>
            "The node has 64 stores and collects open. They end as enough nodes answer it.",
        Reason::RowFull =>
            "All places for clients of this node are taken. Try again later, or ask another node.",
        reason => of_event(reason),
    }
}

/// Writes a reason, and what would satisfy it.
fn write_reason(out: &mut String, reason: Reason) -> Result<(), AllocError> {
    writeln!(out, "refused {reason}")?;
    let words = words_of(reason);
    if words.is_empty() {
        return Ok(());
    }
    writeln!(out, "{words}")
}

/// Writes why bytes are refused here, and what would satisfy that: of a program the instruction, with what is known
/// there.
fn write_program(
    alloc: Global,
    out: &mut String,
    text: &str,
    refusal: Refusal,
) -> Result<(), AllocError> {
    writeln!(out, "{refusal}")?;
    match refusal {
        Refusal::Program(_) | Refusal::Bytes(_) => {
            let code = code_of(alloc, text)?;
            write_instruction(alloc, out, code.as_slice(), &refusal)
        }
        _ => Ok(()),
    }
}

/// Writes why a line was refused.
fn write_cause(
    alloc: Global,
    out: &mut String,
    text: &str,
    cause: Cause,
) -> Result<(), AllocError> {
    match cause {
        Cause::Program(refusal) => write_program(alloc, out, text, refusal),
        Cause::Unmade(reason) => write_reason(out, reason),
        Cause::Node(number) => match reason_of(number) {
            Some(reason) => write_reason(out, reason),
            None => writeln!(out, "refused {number}"),
        },
    }
}

/// A line that was not done, with its number, and why; none of a line that was.
fn told(
    alloc: Global,
    number: u64,
    text: &str,
    end: LineEnd,
) -> Result<Option<String>, AllocError> {
    let mut out = String::new(alloc);
    match end {
        LineEnd::Done => return Ok(None),
        LineEnd::Refused(cause) => {
            write!(out, "line {number}: ")?;
            write_shown(&mut out, text)?;
            writeln!(out, "")?;
            write_cause(alloc, &mut out, text, cause)?;
        }
        LineEnd::Unanswered => {
            write!(out, "line {number}: ")?;
            write_shown(&mut out, text)?;
            writeln!(out, "\nunanswered: the node had no answer in time")?;
        }
    }
    Ok(Some(out))
}

/// Tells why a line was not done, if it was not. Nothing is told where memory runs out.
pub fn note_line<N: Write>(alloc: Global, notes: &mut N, number: u64, text: &str, end: LineEnd) {
    if let Ok(Some(told)) = told(alloc, number, text, end) {
        let _ = notes.write_all(told.as_bytes());
    }
}

/// What is known of a request to which there is no reply, and what to do. Whether a store ends may be seen later.
fn words_of_loss(fault: ExchangeFault, is_store: bool) -> &'static str {
    match fault {
        ExchangeFault::Unsent => {
            "the request was not sent whole: the connection failed, or the node closed it. If all places for clients \
             of the node are taken, try again later, or ask another node."
        }
        ExchangeFault::Unheard if is_store => {
            "no reply was read: the connection failed, or none came in 30 seconds. The store may or may not end. \
             `status` at the node's console says how many operations are open. An `ask` of a program that reads the \
             value shows whether it is stored."
        }
        ExchangeFault::Unheard => {
            "no reply was read: the connection failed, or none came in 30 seconds. The request was done whole, or not \
             at all."
        }
        ExchangeFault::NoReply if is_store => {
            "the node closed the connection, or what it sent is not a reply. It closes it if a store does not end in \
             ten seconds. The store may or may not end later. `status` at the node's console says how many operations \
             are open. An `ask` of a program that reads the value shows whether it is stored."
        }
        ExchangeFault::NoReply => {
            "the node closed the connection, or what it sent is not a reply. The request was done whole, or not at all."
        }
        ExchangeFault::OutOfMemory => "there was no memory for the request.",
    }
}

/// Writes how the connection failed, and at which line.
pub fn note_lost<N: Write>(notes: &mut N, number: u64, line: &ClientLine, fault: ExchangeFault) {
    let is_store = matches!(line, ClientLine::Store { .. });
    let words = words_of_loss(fault, is_store);
    let _ = writeln!(notes, "line {number}: {words}");
}

/// Tells why there is no connection with the node at a place.
pub fn note_unconnected<N: Write>(notes: &mut N, place: &str, error: &io::Error) {
    let _ = writeln!(notes, "{place}: {error}");
}
