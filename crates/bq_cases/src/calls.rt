//! Public calls that no other line makes: `calls NAME`, each with values of its own.
//!
//! - `calls read`: what is written of the bytes of `wide r0, 1099511627785`, once they were read.
//! - `calls written`: whether an instruction begins at each of its two units, once it was written and read.
//! - `calls made`: whether that instruction is the same as itself, and as `exit`; then the text that is made of it, and
//!   that of 4,097 units `exit`.
//! - `calls assembled`: what is written of a text, once it was disassembled and assembled.
//! - `calls unit`: the fields of `mov32s8 r10, r1` with a number in it and one byte more, how many bytes are left, and
//!   what is wrong.
//! - `calls exit`: whether `exit` leaves its number unused.
//! - `calls step`: where frame and record lie, and what an exit gives, first where r0 is unset and then where it is 8.
//! - `calls covers`: whether the range 0 to 9 covers 3, and the other way round; whether 8 bytes fit into a record of
//!   64 from its byte 56 on, and from the next one on.
//! - `calls states`: where r0 is 5, and where it is 7: whether the join covers the first, and the other way round; what
//!   is known of r0 in the join, and in the join with a state where it points to the record.
//! - `calls certificate`: of `mov64 r0, 0 / exit` how many units the text of its certificate has, for which lengths of
//!   records it is, and whether its first note is the entry.
//! - `calls block`: a record of 16 bytes 07 and a number at the frame's end: eight bytes across both; four and two
//!   bytes of numbers in the frame, and the byte behind the record; then the eight bytes with the frame cleared.
//! - `calls laws`: each law is called.

use crate::check::print_fault;
use crate::refusal::print_refusal;
use crate::state::{of_views, print_register};
use crate::text::{print_assembled, print_decode_fault};
use crate::words::{print_digits, text};
use bq_asm::laws::written_and_assembled;
use bq_check::{Certified, CheckFault, check};
use bq_flow::laws::{
    destination_in_words, faulty_is_not_legal, first_unit_begins, one_first_fault, one_longest,
};
use bq_frame::Block;
use bq_insn::laws::{
    one_fault, one_spelling, read_and_written, wide_takes_two_units, written_and_read,
};
use bq_insn::{FieldUse, Fields, Insn, Opcode, Register, Text, read_unit};
use bq_meaning::{Fault, Machine, Placement, Step, step_checked};
use bq_range::Range;
use bq_state::{Bounds, Kind, Offsets, Region, State};
use bq_verify::verify;
use std::alloc::Global;
use std::io;

/// The number that the wide instruction has, 2^40 + 9.
const NUMBER: u64 = 1_099_511_627_785;

/// `wide r0, 1099511627785`
const WIDE: [u8; 16] = [0x18, 0, 0, 0, 9, 0, 0, 0, 0, 0, 0, 0, 0, 1, 0, 0];

/// `mov32s8 r10, r1` as a number has it, and one byte more.
const SIGNED_MOVE: [u8; 9] = [0xb4, 0x1a, 8, 0, 1, 0, 0, 0, 7];

fn read(rt: &impl Print, alloc: Global) -> io::Result<()> {
    match read_and_written(alloc, &WIDE) {
        Ok(written) => print_digits(rt, alloc, written.as_slice()),
        Err(fault) => print_decode_fault(rt, fault),
    }
}

fn print_written(rt: &impl Print, alloc: Global, text: &Text) -> io::Result<()> {
    match written_and_read(alloc, text) {
        Ok(again) => println!(rt; " {} {}", again.at(0).is_some(), again.at(1).is_some()),
        Err(fault) => print_decode_fault(rt, fault),
    }
}

fn written(rt: &impl Print, alloc: Global) -> io::Result<()> {
    match text(alloc, "wide r0, 1099511627785")? {
        Some(text) => print_written(rt, alloc, &text),
        None => println!(rt; " ?"),
    }
}

/// Prints the text that is made of instructions.
fn print_made(rt: &impl Print, alloc: Global, insns: &[Insn]) -> io::Result<()> {
    match Text::of(alloc, insns) {
        Ok(text) => print_assembled(rt, alloc, &text),
        Err(fault) => print_decode_fault(rt, fault),
    }
}

fn made(rt: &impl Print, alloc: Global) -> io::Result<()> {
    let wide = Insn::Wide {
        dst: Register::at(0),
        value: NUMBER,
    };
    println!(rt; " {} {}", wide.is_same(&wide), wide.is_same(&Insn::Exit))?;
    print_made(rt, alloc, &[wide])?;
    print_made(rt, alloc, &[Insn::Exit; 4097])
}

fn print_again(rt: &impl Print, alloc: Global, text: &Text) -> io::Result<()> {
    match written_and_assembled(alloc, text) {
        Ok(same) => print_assembled(rt, alloc, &same),
        Err(fault) => print_refusal(rt, fault.reason(), None),
    }
}

fn assembled(rt: &impl Print, alloc: Global) -> io::Result<()> {
    match text(alloc, "ja -1/ja32 -2147483648/")? {
        Some(text) => print_again(rt, alloc, &text),
        None => println!(rt; " ?"),
    }
}

fn print_fields(rt: &impl Print, fields: Fields, left: usize) -> io::Result<()> {
    println!(rt;
        " opcode {} dst {} src {} offset {} imm {} left {left}",
        fields.opcode, fields.dst, fields.src, fields.offset, fields.imm
    )?;
    match fields.check() {
        Ok(_) => println!(rt; " none"),
        Err(fault) => print_refusal(rt, fault.reason(), None),
    }
}

fn unit(rt: &impl Print) -> io::Result<()> {
    match read_unit(&SIGNED_MOVE) {
        Some((fields, rest)) => print_fields(rt, fields, rest.len()),
        None => println!(rt; " ?"),
    }
}

fn exit(rt: &impl Print) -> io::Result<()> {
    match Opcode::read(0x95) {
        Some(opcode) => println!(rt; " {}", opcode.uses().imm == FieldUse::Unused),
        None => println!(rt; " ?"),
    }
}

/// What a step gives at the first unit of a text, where r0 is unset, and then where it is 8.
fn steps(text: &Text, place: &Placement) -> (Result<Step, Fault>, Result<Step, Fault>) {
    place.is_placement();
    let mut machine = Machine {
        unit: 0,
        registers: [None; 11],
        frame: [0; 512],
        record: &[0; 64],
    };
    let unset = step_checked(text, place, &mut machine);
    machine.registers[0] = Some(8);
    (unset, step_checked(text, place, &mut machine))
}

fn print_step(rt: &impl Print, given: Result<Step, Fault>) -> io::Result<()> {
    match given {
        Ok(Step::Ends(acc)) => println!(rt; " ends with {acc}"),
        Ok(Step::Continues) => println!(rt; " goes on"),
        Err(fault) => print_refusal(rt, fault.reason(), None),
    }
}

fn print_steps(rt: &impl Print, text: &Text, place: &Placement) -> io::Result<()> {
    println!(rt; " {} {}", place.frame(), place.record())?;
    let (unset, set) = steps(text, place);
    print_step(rt, unset)?;
    print_step(rt, set)
}

fn step(rt: &impl Print, alloc: Global) -> io::Result<()> {
    match (text(alloc, "exit")?, Placement::new(4096, 8192)) {
        (Some(text), Some(place)) => print_steps(rt, &text, &place),
        _ => println!(rt; " ?"),
    }
}

fn covers(rt: &impl Print) -> io::Result<()> {
    let (nine, three) = (Range::up_to(9), Range::single(3));
    println!(rt; " {} {}", nine.covers(three), three.covers(nine))?;
    let at = Offsets::at(56);
    println!(rt; " {} {}", at.fits(0, 8, 64), at.fits(1, 8, 64))
}

fn states(rt: &impl Print) -> io::Result<()> {
    let five = of_views(Kind::Number(Range::single(5)));
    let seven = of_views(Kind::Number(Range::single(7)));
    let pointer = of_views(Kind::Pointer(Region::Record, Offsets::at(0)));
    let joined = five.join(&seven);
    println!(rt; " {} {}", joined.covers(&five), five.covers(&joined))?;
    print_register(rt, &joined, 0)?;
    print_register(rt, &joined.join(&pointer), 0)
}

/// The certificate of a text, for records of all lengths.
fn certified(alloc: Global, text: Text) -> Result<Certified, CheckFault> {
    let notes = verify(alloc, &text)?;
    notes.are_notes();
    check(alloc, text, notes)
}

fn print_certificate(rt: &impl Print, certified: &Certified) -> io::Result<()> {
    let (units, lengths) = (certified.text().units(), certified.lengths());
    let is_entry = certified.notes().at(0) == Some(State::entry(Bounds::all()));
    println!(rt;
        " units {units} lengths {} {} entry {is_entry}",
        lengths.least(),
        lengths.most()
    )
}

fn certificate(rt: &impl Print, alloc: Global) -> io::Result<()> {
    let Some(text) = text(alloc, "mov64 r0, 0/exit")? else {
        return println!(rt; " ?");
    };
    match certified(alloc, text) {
        Ok(certified) => print_certificate(rt, &certified),
        Err(fault) => print_fault(rt, fault),
    }
}

/// Puts a record and numbers into a block.
fn put(block: &mut Block) {
    block.is_block();
    block.set_record(&[7; 16]);
    unsafe {
        block.store8(504, 0x0807_0605_0403_0201);
        block.store1(0, 0x1ff);
        block.store2(1, 0x1_2345);
        block.store4(4, u64::MAX);
    }
}

/// Prints the eight bytes of which four lie in the frame and four in the record.
fn print_across(rt: &impl Print, block: &Block) -> io::Result<()> {
    let across = unsafe { block.load8(508) };
    println!(rt; " {:x}", across)
}

fn print_block(rt: &impl Print, block: &mut Block) -> io::Result<()> {
    print_across(rt, block)?;
    let (four, two, one) = unsafe { (block.load4(0), block.load2(7), block.load1(528)) };
    println!(rt; " {:x} {:x} {:x}", four, two, one)?;
    block.clear_frame();
    print_across(rt, block)
}

fn block(rt: &impl Print, alloc: Global) -> io::Result<()> {
    let mut block = Block::new(alloc)?;
    put(&mut block);
    print_block(rt, &mut block)
}

fn laws(rt: &impl Print) -> io::Result<()> {
    one_spelling();
    one_fault();
    wide_takes_two_units();
    faulty_is_not_legal();
    one_first_fault();
    one_longest();
    first_unit_begins();
    destination_in_words();
    println!(rt; " called")
}

/// Prints what comes of the calls of this name.
pub(crate) fn answer(rt: &impl Print, alloc: Global, name: &str) -> io::Result<()> {
    match name {
        "read" => read(rt, alloc),
        "written" => written(rt, alloc),
        "made" => made(rt, alloc),
        "assembled" => assembled(rt, alloc),
        "unit" => unit(rt),
        "exit" => exit(rt),
        "step" => step(rt, alloc),
        "covers" => covers(rt),
        "states" => states(rt),
        "certificate" => certificate(rt, alloc),
        "block" => block(rt, alloc),
        "laws" => laws(rt),
        _ => println!(rt; " ?"),
    }
}
