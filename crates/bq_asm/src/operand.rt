ghost use Rattle.std.specs.Prelude.{◌≡◌};
ghost use Rattle.bq_asm.specs.Reading.{Gives, register_at, operand_at, place_of, place_at, memory_at};

use crate::number::{distance, negative, positive, signed};
use crate::text::{cut, strip};
use bq_insn::{Operand, Register};
use spelling::natural;

/// A register, as `r7`.
#[tactic(auto, unfolding(crate::specs::Reading::register_at))]
pub fn register(text: &str) -> Option<Register>
    ensures { result ≡ register_at text.now }
{
    let number = u8::try_from(natural(strip(text, 'r')?)?).ok()?;
    Register::new(number)
}

/// A register or a number of 32 bits.
#[tactic(auto, unfolding(crate::specs::Reading::operand_at))]
pub fn operand(text: &str) -> Option<Operand>
    ensures { result ≡ operand_at text.now }
{
    match register(text) {
        Some(register) => Some(Operand::Register(register)),
        None => {
            let number = i32::try_from(signed(text)?).ok()?;
            Some(Operand::Number(number))
        }
    }
}

/// A base register and an offset of 16 bits.
fn place_of(base: &str, offset: Option<i64>) -> Option<(Register, i16)>
    ensures { result ≡ place_of base.now offset }
{
    let base = register(base)?;
    let offset = i16::try_from(offset?).ok()?;
    Some((base, offset))
}

/// A base register and an offset with its sign, as `r1+16`.
#[tactic(auto, unfolding(crate::specs::Reading::place_at))]
fn place(text: &str) -> Option<(Register, i16)>
    ensures { result ≡ place_at text.now }
{
    match cut(text, '+') {
        Some((base, digits)) => place_of(base, positive(digits)),
        None => {
            let (base, digits) = cut(text, '-')?;
            place_of(base, negative(digits))
        }
    }
}

/// A place in memory, as `[r1+16]`.
#[tactic(auto, unfolding(crate::specs::Reading::memory_at))]
pub fn memory(text: &str) -> Option<(Register, i16)>
    ensures { result ≡ memory_at text.now }
{
    let (inner, rest) = cut(strip(text, '[')?, ']')?;
    if rest.is_empty() { place(inner) } else { None }
}
