//! A node that is alone, each call of which is made again where memory is refused.

use crate::founder::Founder;
use crate::refusals::again::again;
use q_book::BookFault;
use q_session::Ran;
use q_table::Program;
use q_told::{Refusal, certified_code};
use sc_msg::Message;
use sc_node::Begun;
use sc_view::VALUE_LENGTH;
use std::alloc::Global;
use std::io;

/// `mov64 r0, r3 / add64 r0, 1 / exit`: it counts the records of a view, from the start value on.
const COUNT: [u8; 24] = [
    0xbf, 0x30, 0, 0, 0, 0, 0, 0, 0x07, 0, 0, 0, 1, 0, 0, 0, 0x95, 0, 0, 0, 0, 0, 0, 0,
];

/// How many deliveries the node is given to settle.
const DELIVERIES: u32 = 100;

/// A founder that is alone; none where memory was refused twice.
pub fn found(rt: &HostRuntime) -> Option<Box<Founder>> {
    again!(rt, Founder::new(rt.alloc())).ok()
}

/// A program from its bytes.
fn counting(alloc: Global) -> Result<Program, Refusal> {
    certified_code(alloc, &COUNT)
}

/// Prints a number behind a word, or why there is none.
fn print_number(rt: &HostRuntime, word: &str, number: Result<u64, BookFault>) -> io::Result<()> {
    match number {
        Ok(number) => println!(rt; "{word} {number}"),
        Err(reason) => print_refusal(rt, reason),
    }
}

/// Prints why a call is refused.
fn print_refusal(rt: &HostRuntime, reason: BookFault) -> io::Result<()> {
    println!(rt; "refused {} {}", reason.number(), reason.name())
}

/// Registers a program: its number.
fn register_once(founder: &mut Founder, program: &Program) -> Result<u64, BookFault> {
    let id = founder.book.register(program)?;
    Ok(u64::from(id.number()))
}

/// Begins a store: its tag. What it sends waits.
fn store_once(founder: &mut Founder) -> Result<u64, BookFault> {
    founder.sent.reserve(2)?;
    let Begun { tag, outs, .. } = founder.book.store(&[5; VALUE_LENGTH])?;
    outs.append_to(&mut founder.sent);
    Ok(tag)
}

/// Registers the program that counts.
fn register(rt: &HostRuntime, founder: &mut Founder) -> io::Result<()> {
    let Ok(program) = again!(rt, counting(rt.alloc())) else {
        return rt.println("no program");
    };
    let number = again!(rt, register_once(founder, &program));
    print_number(rt, "program", number)
}

/// Begins to store a value.
fn store(rt: &HostRuntime, founder: &mut Founder) -> io::Result<()> {
    let tag = again!(rt, store_once(founder));
    print_number(rt, "store", tag)
}

/// Asks from a start value.
fn ask(rt: &HostRuntime, founder: &mut Founder, start: u64) -> io::Result<()> {
    let query = again!(rt, founder.ask(start));
    print_number(rt, "query", query.map(|query| query as u64))
}

/// Hears a message.
fn hear(rt: &HostRuntime, founder: &mut Founder, message: &Message) -> io::Result<()> {
    match again!(rt, founder.hear(message)) {
        Ok(()) => Ok(()),
        Err(reason) => print_refusal(rt, reason),
    }
}

/// Hears the message that waits last: whether there is one.
fn hear_last(rt: &HostRuntime, founder: &mut Founder) -> io::Result<bool> {
    match founder.sent.pop() {
        Some(message) => {
            hear(rt, founder, &message)?;
            Ok(true)
        }
        None => Ok(false),
    }
}

/// Hears what the founder gave until it gives nothing more.
pub fn settle(rt: &HostRuntime, founder: &mut Founder) -> io::Result<()> {
    for _ in 0..DELIVERIES {
        if !hear_last(rt, founder)? {
            break;
        }
    }
    Ok(())
}

/// Runs the job of the ready query.
pub fn run_job(rt: &HostRuntime, founder: &mut Founder) -> io::Result<()> {
    match again!(rt, founder.run_job()) {
        Ok(true) => Ok(()),
        Ok(false) => rt.println("no job"),
        Err(reason) => print_refusal(rt, reason),
    }
}

/// Stores a value, and asks the program that counts from 0 and from 7, until both queries are ready.
pub fn begin(rt: &HostRuntime, founder: &mut Founder) -> io::Result<()> {
    register(rt, founder)?;
    store(rt, founder)?;
    settle(rt, founder)?;
    ask(rt, founder, 0)?;
    ask(rt, founder, 7)?;
    settle(rt, founder)
}

/// Prints the answer of a query.
fn print_answer(rt: &HostRuntime, founder: &Founder, query: usize) -> io::Result<()> {
    match founder.answer_of(query) {
        Some(Ran { acc, steps }) => println!(rt; "answer {query} {acc} {steps}"),
        None => println!(rt; "no answer {query}"),
    }
}

/// Prints the answers of both queries, and how many events the journal has.
pub fn end(rt: &HostRuntime, founder: &Founder) -> io::Result<()> {
    print_answer(rt, founder, 0)?;
    print_answer(rt, founder, 1)?;
    println!(rt; "journal {} events", founder.book.events())
}
