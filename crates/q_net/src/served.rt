//! A request to a book.

ghost use Rattle.std.specs.Prelude.{◌≡◌, ◌≤◌, ◌+◌, ◌++◌, List, vec_len, vec_capacity};
ghost use Rattle.sc_msg.specs.declared.message.Message.{Message as Sent};
ghost use Rattle.q_net.specs.Replies.{Registers, Replies, of_registered, of_answer};
ghost use Rattle.q_desk.specs.Desks.{answer_of};
ghost use Rattle.q_net.specs.declared.request.Request.TheVariants.{Ask, Store};

use crate::replies::Reply;
use crate::request::Request;
use bq_check::{CheckFault, NotesFault};
use bq_insn::{DecodeFault, decode};
use q_book::{Asked, Book, BookFault, read_notes, record_lengths};
use q_table::{Program, ProgramId};
use sc_msg::Message;
use std::alloc::Global;

/// What comes of a registration.
#[derive(Drop)]
pub enum Registered {
    /// The bytes are no text.
    Text(DecodeFault),
    /// The bytes are no notes.
    Notes(NotesFault),
    /// The notes do not pass.
    Check(CheckFault),
    /// What the book answers.
    Book(Result<ProgramId, BookFault>),
}

/// Registers the text with the notes that these bytes spell.
fn register(alloc: Global, book: &mut Book, text: &[u8], notes: &[u8]) -> Registered
    ensures { Registers book.old text.now notes.now result book.new }
{
    let text = match decode(alloc, text) {
        Ok(text) => text,
        Err(fault) => return Registered::Text(fault),
    };
    let version = book.version();
    let notes = match read_notes(alloc, version, notes) {
        Ok(notes) => notes,
        Err(fault) => return Registered::Notes(fault),
    };
    match Program::of_text(alloc, text, notes, record_lengths(version)) {
        Ok(program) => Registered::Book(book.register(&program)),
        Err(fault) => Registered::Check(fault),
    }
}

/// What a registration is replied to.
fn reply_to_registered(registered: &Registered) -> Reply
    ensures { result ≡ of_registered registered.now }
{
    match registered {
        Registered::Text(fault) => Reply::Refused(fault.reason().number()),
        Registered::Notes(fault) => Reply::Refused(fault.reason().number()),
        Registered::Check(fault) => Reply::Refused(fault.reason().number()),
        Registered::Book(Ok(program)) => Reply::Program(program.number()),
        Registered::Book(Err(reason)) => Reply::Refused(reason.number()),
    }
}

/// A query. There is room for the messages of one event.
fn ask(book: &mut Book, program: u32, start: u64, sent: &mut Vec<Message>) -> Reply
    requires { vec_len sent.old + 2 ≤ vec_capacity sent.old }
    ensures { (outs : List Sent) × Replies book.old (Ask program start) result outs book.new × (sent.new.items ≡ sent.old.items ++ outs) }
{
    match book.ask(ProgramId::new(program), start) {
        Ok(
            Asked {
                query,
                begun: collect,
            },
        ) => {
            collect.outs.append_to(sent);
            Reply::Number(query as u64)
        }
        Err(reason) => Reply::Refused(reason.number()),
    }
}

/// A store of these bytes. There is room for the messages of one event.
fn store(book: &mut Book, value: &[u8], sent: &mut Vec<Message>) -> Reply
    requires { vec_len sent.old + 2 ≤ vec_capacity sent.old }
    ensures { (outs : List Sent) × Replies book.old (Store value.now) result outs book.new × (sent.new.items ≡ sent.old.items ++ outs) }
{
    match book.store(value) {
        Ok(begun) => {
            begun.outs.append_to(sent);
            Reply::Number(begun.tag)
        }
        Err(reason) => Reply::Refused(reason.number()),
    }
}

/// The same, where there may be no room.
fn reply_to_store(book: &mut Book, value: &[u8], sent: &mut Vec<Message>) -> Reply
    ensures { (outs : List Sent) × Replies book.old (Store value.now) result outs book.new × (sent.new.items ≡ sent.old.items ++ outs) }
{
    match sent.reserve(2) {
        Ok(()) => store(book, value, sent),
        Err(_) => Reply::Refused(99),
    }
}

/// The answer of a query.
fn answer(book: &Book, query: u64) -> Reply
    ensures { result ≡ of_answer (answer_of book.now.desk query) }
{
    match book.answer(query as usize) {
        Ok(Some(ran)) => Reply::Answer {
            acc: ran.acc,
            steps: ran.steps,
        },
        Ok(None) => Reply::Open,
        Err(reason) => Reply::Refused(reason.number()),
    }
}

/// Does what a request asks, and puts the messages of the book behind those that were sent. The room for them is made
/// before: where there is none the reply is 99, and nothing changes.
pub fn reply(alloc: Global, book: &mut Book, request: &Request, sent: &mut Vec<Message>) -> Reply
    ensures { (outs : List Sent) × Replies book.old request.now result outs book.new × (sent.new.items ≡ sent.old.items ++ outs) }
{
    match request {
        Request::Register { text, notes } => {
            let registered = register(alloc, book, text.as_slice(), notes.as_slice());
            reply_to_registered(&registered)
        }
        Request::Ask { program, start } => match sent.reserve(2) {
            Ok(()) => ask(book, *program, *start, sent),
            Err(_) => Reply::Refused(99),
        },
        Request::Store(value) => reply_to_store(book, value.bytes(), sent),
        Request::Answer(query) => answer(book, *query),
        Request::StoreOf(value) => reply_to_store(book, value.as_slice(), sent),
    }
}
