//! Programs for records of some lengths, and who takes them.

use bq_check::{Certified, check_within};
use bq_insn::decode;
use bq_state::Bounds;
use bq_verify::verify_within;
use q_book::{Book, record_lengths};
use q_table::Program;
use sc_members::Config;
use sc_msg::Version;
use std::alloc::Global;

/// `mov64 r0, r2 / exit`
const LENGTH: [u8; 16] = [0xbf, 0x20, 0, 0, 0, 0, 0, 0, 0x95, 0, 0, 0, 0, 0, 0, 0];

/// The certificate of the program of these bytes for records of these lengths.
fn certified(alloc: Global, code: &[u8], lengths: Bounds) -> Option<Certified> {
    let text = decode(alloc, code).ok()?;
    let notes = verify_within(alloc, &text, lengths).ok()?;
    check_within(alloc, text, notes, lengths).ok()
}

/// The program of these bytes, as nodes of this version take it.
pub fn program(alloc: Global, version: Version, code: &[u8]) -> Option<Program> {
    Program::new(alloc, certified(alloc, code, record_lengths(version))?).ok()
}

/// The book of a founder that is alone. It is held in a box, since a proof writes out the drop of what is held by
/// value.
fn founder(alloc: Global, version: Version) -> Option<Box<Book>> {
    let book = Book::founder_as(alloc, version, Config::default(), 1, &[1]).ok()?;
    Box::new(alloc, book).ok()
}

/// The number with which the book refuses the program, 0 where it takes it.
fn registered(book: &mut Book, program: &Program) -> u8 {
    match book.register(program) {
        Ok(_) => 0,
        Err(reason) => reason.number(),
    }
}

/// The same of the book of a founder, which leaves before where that is said.
fn refusal_of(mut book: Box<Book>, is_gone: bool, program: &Program) -> Option<u8> {
    if is_gone && book.leave().is_err() {
        return None;
    }
    Some(registered(&mut book, program))
}

/// The number with which a founder of this version, which has left where that is said, refuses a program that was
/// checked for records of these lengths, 0 where it takes it; none where there is no such program.
pub fn refusal(alloc: Global, version: Version, is_gone: bool, lengths: Bounds) -> Option<u8> {
    let program = Program::new(alloc, certified(alloc, &LENGTH, lengths)?).ok()?;
    refusal_of(founder(alloc, version)?, is_gone, &program)
}
