//! Where an instruction stands in assembler text, and what is wrong with a label there.

use bq_insn::Text;

/// What a line of assembler text has, if it is of a form.
#[derive(Clone, Copy)]
enum Content<'a> {
    /// Nothing, or a comment.
    Nothing,
    /// A label of this name.
    Label(&'a str),
    /// An instruction, as it is written.
    Instruction(&'a str),
}

/// What a line has.
fn content_of(line: &str) -> Content<'_> {
    let code = match line.split_once('#') {
        Some((code, _comment)) => code,
        None => line,
    };
    let code = code.trim_matches(' ');
    if code.is_empty() {
        return Content::Nothing;
    }
    match code.strip_suffix(':') {
        Some(name) => Content::Label(name),
        None => Content::Instruction(code),
    }
}

/// How many instructions begin below a unit.
fn instructions_below(text: &Text, unit: usize) -> usize {
    let mut below = 0_usize;
    for earlier in 0..unit.min(text.units()) {
        if text.at(earlier).is_some() {
            below = below.saturating_add(1);
        }
    }
    below
}

/// The line of an assembler text, counted from 1, that has the instruction at a unit of the text that it spells; none
/// where it has no such instruction.
pub fn line_of_unit(source: &str, text: &Text, unit: usize) -> Option<usize> {
    let mut below = instructions_below(text, unit);
    for (place, line) in source.split('\n').enumerate() {
        if let Content::Instruction(_) = content_of(line) {
            if below == 0 {
                return Some(place.saturating_add(1));
            }
            below = below.saturating_sub(1);
        }
    }
    None
}

/// Whether a line defines this label.
fn defines(line: &str, name: &str) -> bool {
    match content_of(line) {
        Content::Label(label) => label == name,
        Content::Nothing | Content::Instruction(_) => false,
    }
}

/// The last operand of an instruction, which is a jump's target.
fn last_operand(instruction: &str) -> &str {
    instruction
        .split(|letter: char| letter == ' ' || letter == ',')
        .last()
        .unwrap_or(instruction)
}

/// What is wrong with the jump on a line of this number to a label.
fn of_jump(source: &str, number: usize, label: &str) -> &'static str {
    if source
        .split('\n')
        .skip(number)
        .any(|line| defines(line, label))
    {
        return "It jumps too far to the label. A jump spans 32767 units at most, and one without a\ncondition any number as ja32.";
    }
    if source
        .split('\n')
        .take(number)
        .any(|line| defines(line, label))
    {
        return "It jumps back to the label, which stands above. Jumps go forward, so programs have no\nloops.";
    }
    "It jumps to a label that no line defines. A label stands on a line of its own, with a\ncolon after it, as done:"
}

/// What is wrong with the label on the line of this number, counted from 1, where the assembler refuses it (10 Label).
pub fn of_label(source: &str, number: usize) -> &'static str {
    let line = source
        .split('\n')
        .nth(number.saturating_sub(1))
        .unwrap_or("");
    match content_of(line) {
        Content::Instruction(instruction) => of_jump(source, number, last_operand(instruction)),
        Content::Label(_) | Content::Nothing =>
            "It defines a label that an earlier line defines. Each label has a name of its own.",
    }
}
