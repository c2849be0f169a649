//! What would satisfy a rule.

use bq_flow::FlowRule;
use bq_insn::{Insn, Operand};
use bq_state::{Kind, Rule, State};

/// Whether an instruction stores a pointer.
fn stores_pointer(insn: &Insn, state: &State) -> bool {
    match insn {
        Insn::Store {
            value: Operand::Register(register),
            ..
        } => matches!(state.kind(register.number()), Kind::Pointer(..)),
        _ => false,
    }
}

/// What a rule asks of the instruction that breaks it.
pub(crate) fn of_rule(rule: Rule) -> &'static str {
    match rule {
        Rule::UnsetRegister => {
            "It reads a register of which nothing is known. Write the register before, on each\nway that leads here, and the same kind of value on each."
        }
        Rule::WrongKind => {
            "It takes a pointer where a number must stand, or the other way round, or moves a\npointer too far. Addresses are pointers; to a pointer only a number may be added,\nor subtracted from it, at 64 bits, and its offset stays within 65536; comparisons,\nother arithmetic and stored values take numbers. Narrow a number first, by and64."
        }
        Rule::OutsideFrame => {
            "It may access bytes outside the frame. The pointer's least offset plus the\ndistance must be at least 0, and its greatest offset plus the distance plus the\nsize at most 512. r10 has offset 512: load8 r0, [r10-8] reads the last bytes."
        }
        Rule::OutsideRecord => {
            "It may access bytes outside the record. The pointer's least offset plus the\ndistance must be at least 0, and its greatest offset plus the distance plus the\nsize at most the fewest bytes that a record has. What is known of a register is a\nrange, which relates to no other register: a test of a sum or a difference with the\nlength narrows neither. Test the length in r2 against a number, around the access,\nand an index against a number too, or narrow it by and64."
        }
        Rule::RecordWritten =>
            "It writes into the record, which is read only. Store into the frame.",
        Rule::FramePointerWritten =>
            "It writes r10, which points to the frame's end. Take another register.",
        Rule::AnswerKind => "It answers a pointer. Put a number into r0 before exit.",
    }
}

/// The same of this instruction, of whose registers this is known.
pub(crate) fn of_rule_at(rule: Rule, insn: &Insn, state: &State) -> &'static str {
    match rule {
        Rule::WrongKind if stores_pointer(insn, state) => {
            "It stores a pointer. A pointer cannot be kept in the frame: keep it in a register. Of\nC, compile with -O2, which keeps fewer values in the frame."
        }
        _ => of_rule(rule),
    }
}

/// What legal flow asks of the instruction that breaks it.
pub(crate) fn of_flow(rule: FlowRule) -> &'static str {
    match rule {
        FlowRule::Backward =>
            "It jumps to itself or back. Jumps go forward, so programs have no loops. A loop in C\nis unrolled where its count is a constant: write #pragma clang loop unroll(full)\nbefore it.",
        FlowRule::OutsideText => "It jumps past the program's end.",
        FlowRule::IntoWide =>
            "It jumps into the second half of a wide instruction, which takes two units.",
        FlowRule::FallsOff =>
            "The program may go on past its end. Its last instruction must be exit or ja.",
    }
}
