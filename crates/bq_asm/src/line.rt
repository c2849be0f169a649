ghost use Rattle.std.specs.Prelude.{◌≡◌};
ghost use Rattle.std.specs.List.{list_all};
ghost use Rattle.bq_asm.specs.Line.{Complete, is_name_byte};
ghost use Rattle.bq_asm.specs.Reading.{Gives, is_name, is_comment, target_at, statement_at, instruction_at, words_at, label_else, cut, trimmed, line_at};
ghost use Rattle.bq_asm.specs.View.{line_view, statement_view};

use crate::jump::Jump;
use crate::mnemonic::Mnemonic;
use crate::number::distance;
use crate::operand::{memory, operand, register};
use crate::statement::{Line, Statement};
use crate::text::{cut, pair, trimmed};
use bq_insn::{Extension, Insn, Size};
use bq_word::{AluOp, Relation, SignBits, Width};
use spelling::natural;

fn is_name_byte(byte: u8) -> bool
    ensures { result ≡ is_name_byte byte }
{
    byte.is_ascii_alphabetic() || byte.is_ascii_digit() || byte == b'_'
}

fn are_name_bytes(bytes: &[u8]) -> bool
    ensures { result ≡ list_all is_name_byte bytes.now }
{
    bytes.iter().all(|byte| is_name_byte(*byte))
}

/// A letter, and then letters, digits and `_`, 32 bytes at most.
fn is_name(text: &str) -> bool
    ensures { result ≡ is_name text.now }
{
    match text.as_bytes().split_first() {
        Some((first, rest)) => first.is_ascii_alphabetic()
            && are_name_bytes(rest)
            && rest.len() < 32,
        None => false,
    }
}

/// ASCII with no carriage return.
fn is_comment(text: &str) -> bool
    ensures { result ≡ is_comment text.now }
{
    text.as_bytes()
        .iter()
        .all(|byte| *byte < 128 && *byte != b'\r')
}

/// A jump to a distance or a label.
#[tactic(auto, unfolding(crate::specs::Reading::target_at))]
fn jump_to(jump: Jump, target: &str) -> Option<Statement<'_>>
    ensures { Gives statement_view result (target_at jump target.now) }
{
    if let Some(distance) = distance(target) {
        let insn = jump.by(distance)?;
        return Some(Statement::Complete(insn));
    }
    if is_name(target) {
        Some(Statement::JumpTo {
            jump,
            label: target,
        })
    } else {
        None
    }
}

#[tactic(auto, unfolding(crate::specs::Reading::statement_at))]
fn alu(width: Width, op: AluOp, operands: &str) -> Option<Insn>
    ensures { Gives (λ i. Complete i) result (statement_at (Mnemonic.Alu width op) operands.now) }
{
    let (first, second) = pair(operands)?;
    let dst = register(first)?;
    let operand = operand(second)?;
    Some(Insn::Alu {
        width,
        op,
        dst,
        operand,
    })
}

#[tactic(auto, unfolding(crate::specs::Reading::statement_at))]
fn extend(extension: Extension, operands: &str) -> Option<Insn>
    ensures { Gives (λ i. Complete i) result (statement_at (Mnemonic.Extend extension) operands.now) }
{
    let (first, second) = pair(operands)?;
    let dst = register(first)?;
    let src = register(second)?;
    Some(Insn::Extend {
        extension,
        dst,
        src,
    })
}

#[tactic(auto, unfolding(crate::specs::Reading::statement_at))]
fn load(size: Size, operands: &str) -> Option<Insn>
    ensures { Gives (λ i. Complete i) result (statement_at (Mnemonic.Load size) operands.now) }
{
    let (first, second) = pair(operands)?;
    let dst = register(first)?;
    let (base, offset) = memory(second)?;
    Some(Insn::Load {
        size,
        dst,
        base,
        offset,
    })
}

#[tactic(auto, unfolding(crate::specs::Reading::statement_at))]
fn load_signed(size: SignBits, operands: &str) -> Option<Insn>
    ensures { Gives (λ i. Complete i) result (statement_at (Mnemonic.LoadSigned size) operands.now) }
{
    let (first, second) = pair(operands)?;
    let dst = register(first)?;
    let (base, offset) = memory(second)?;
    Some(Insn::LoadSigned {
        size,
        dst,
        base,
        offset,
    })
}

#[tactic(auto, unfolding(crate::specs::Reading::statement_at))]
fn store(size: Size, operands: &str) -> Option<Insn>
    ensures { Gives (λ i. Complete i) result (statement_at (Mnemonic.Store size) operands.now) }
{
    let (first, second) = pair(operands)?;
    let (base, offset) = memory(first)?;
    let value = operand(second)?;
    Some(Insn::Store {
        size,
        base,
        offset,
        value,
    })
}

#[tactic(auto, unfolding(crate::specs::Reading::statement_at))]
fn wide(operands: &str) -> Option<Insn>
    ensures { Gives (λ i. Complete i) result (statement_at Mnemonic.Wide operands.now) }
{
    let (first, second) = pair(operands)?;
    let dst = register(first)?;
    let value = natural(second)?;
    Some(Insn::Wide { dst, value })
}

#[tactic(auto, unfolding(crate::specs::Reading::statement_at))]
fn branch(width: Width, relation: Relation, operands: &str) -> Option<Statement<'_>>
    ensures { Gives statement_view result (statement_at (Mnemonic.Branch width relation) operands.now) }
{
    let (first, others) = pair(operands)?;
    let (second, target) = pair(others)?;
    let dst = register(first)?;
    let operand = operand(second)?;
    let jump = Jump::Branch {
        width,
        relation,
        dst,
        operand,
    };
    jump_to(jump, target)
}

/// The statement with this mnemonic and these operands.
#[tactic(auto, unfolding(crate::specs::Reading::statement_at))]
fn read_statement(mnemonic: Mnemonic, operands: &str) -> Option<Statement<'_>>
    ensures { Gives statement_view result (statement_at mnemonic operands.now) }
{
    let insn = match mnemonic {
        Mnemonic::Alu(width, op) => alu(width, op, operands)?,
        Mnemonic::Negate(width) => {
            let dst = register(operands)?;
            Insn::Negate { width, dst }
        }
        Mnemonic::Extend(extension) => extend(extension, operands)?,
        Mnemonic::Order(order, bits) => {
            let dst = register(operands)?;
            Insn::Order { order, bits, dst }
        }
        Mnemonic::Jump => return jump_to(Jump::Always, operands),
        Mnemonic::JumpFar => return jump_to(Jump::Far, operands),
        Mnemonic::Branch(width, relation) => return branch(width, relation, operands),
        Mnemonic::Exit => {
            if !operands.is_empty() {
                return None;
            }
            Insn::Exit
        }
        Mnemonic::Load(size) => load(size, operands)?,
        Mnemonic::LoadSigned(size) => load_signed(size, operands)?,
        Mnemonic::Store(size) => store(size, operands)?,
        Mnemonic::Wide => wide(operands)?,
    };
    Some(Statement::Complete(insn))
}

/// The statement that these words spell, the first of which is the mnemonic.
#[tactic(auto, unfolding(crate::specs::Reading::instruction_at))]
fn instruction<'a>(first: &str, rest: &'a str) -> Option<Line<'a>>
    ensures { Gives line_view result (instruction_at first.now rest.now) }
{
    let mnemonic = Mnemonic::read(first)?;
    let Some(statement) = read_statement(mnemonic, trimmed(rest)) else {
        return None;
    };
    Some(Line::Instruction(statement))
}

/// What a line says that has no label and no comment.
#[tactic(auto, unfolding(crate::specs::Reading::words_at))]
fn words(text: &str) -> Option<Line<'_>>
    ensures { Gives line_view result (words_at text.now) }
{
    let text = trimmed(text);
    if text.is_empty() {
        return Some(Line::Blank);
    }
    match cut(text, ' ') {
        Some((first, rest)) => instruction(first, rest),
        None => instruction(text, ""),
    }
}

/// What a line without a comment says.
fn label_or_words(text: &str) -> Option<Line<'_>>
    ensures { Gives line_view result (label_else text.now (cut 58 (trimmed text.now))) }
{
    match cut(trimmed(text), ':') {
        Some((name, rest)) => {
            if rest.is_empty() && is_name(name) {
                Some(Line::Label(name))
            } else {
                None
            }
        }
        None => words(text),
    }
}

/// What a line says, if it is of an allowed form.
#[tactic(auto, unfolding(crate::specs::Reading::line_at))]
pub fn read_line(text: &str) -> Option<Line<'_>>
    ensures { Gives line_view result (line_at text.now) }
{
    match cut(text, '#') {
        Some((code, comment)) => {
            if is_comment(comment) {
                words(code)
            } else {
                None
            }
        }
        None => label_or_words(text),
    }
}
