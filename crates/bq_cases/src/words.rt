//! The words of a line.

use bq_asm::{AsmFault, assemble};
use bq_insn::{Insn, Text};
use std::alloc::{AllocError, Global};
use std::io;

/// A word in decimal digits, with `-` for what it is below 2^64.
pub(crate) fn number(word: &str) -> Option<u64> {
    match word.strip_prefix('-') {
        Some(below) => Some(below.parse::<u64>().ok()?.wrapping_neg()),
        None => word.parse::<u64>().ok(),
    }
}

/// The same below 256.
pub(crate) fn small_number(word: &str) -> Option<u8> {
    u8::try_from(number(word)?).ok()
}

/// The numbers of a text, one at each word; none where a word is no number.
pub(crate) fn numbers(alloc: Global, text: &str) -> Result<Option<Vec<u64>>, AllocError> {
    let mut numbers = Vec::new(alloc);
    for word in text.split_whitespace() {
        match number(word) {
            Some(number) => numbers.push(number)?,
            None => return Ok(None),
        }
    }
    Ok(Some(numbers))
}

/// The source that these words stand for.
fn source(alloc: Global, words: &str) -> Result<String, AllocError> {
    let mut source = String::new(alloc);
    for character in words.chars() {
        source.push(match character {
            '/' => '\n',
            '~' => '\r',
            other => other,
        })?;
    }
    Ok(source)
}

/// The text that these words stand for.
pub(crate) fn assembled(alloc: Global, words: &str) -> Result<Result<Text, AsmFault>, AllocError> {
    let source = source(alloc, words)?;
    Ok(assemble(alloc, source.as_str()))
}

/// The same; none where they stand for none.
pub(crate) fn text(alloc: Global, words: &str) -> Result<Option<Text>, AllocError> {
    Ok(assembled(alloc, words)?.ok())
}

/// The first instruction that these words stand for.
pub(crate) fn insn(alloc: Global, words: &str) -> Result<Option<Insn>, AllocError> {
    match text(alloc, words)? {
        Some(text) => Ok(text.at(0)),
        None => Ok(None),
    }
}

/// The bytes of these hexadecimal digits.
pub(crate) fn bytes(alloc: Global, digits: &str) -> Option<Vec<u8>> {
    hex::decode(alloc, digits.as_bytes()).ok()
}

/// Prints bytes in hexadecimal digits.
pub(crate) fn print_digits(rt: &impl Print, alloc: Global, bytes: &[u8]) -> io::Result<()> {
    println!(rt; " {}", hex::encode(alloc, bytes)?)
}
