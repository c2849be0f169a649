//! Lines about the bytes of messages that are cut short or changed.

use crate::bytes::is_written;
use sc_decode::decode_as;
use sc_msg::{MessageFault, Version};
use std::alloc::Global;
use std::io;

/// Where the generator of changes begins.
const FIRST_WORD: u64 = 0x9e37_79b9_7f4a_7c15;

/// The number of the refusal of bytes, or 0.
fn refusal(alloc: Global, version: Version, bytes: &[u8]) -> u8 {
    match decode_as(alloc, version, bytes) {
        Ok(_) => 0,
        Err(fault) => fault.reason().number(),
    }
}

/// For each proper beginning of these bytes, from none on, the number of its refusal in that version, or 0.
pub(crate) fn tell_beginnings(
    rt: &impl Print,
    alloc: Global,
    version: Version,
    bytes: &[u8],
) -> io::Result<()> {
    for end in 0..bytes.len() {
        print!(rt; " {}", refusal(alloc, version, &bytes[..end]))?;
    }
    println!(rt; "")
}

/// Whether bytes are refused, for another cause than memory, or are written as they were read.
fn is_told(alloc: Global, version: Version, bytes: &[u8]) -> bool {
    match decode_as(alloc, version, bytes) {
        Ok(message) => is_written(alloc, version, &message, bytes),
        Err(fault) => fault != MessageFault::OutOfMemory,
    }
}

/// The next word of a fixed generator (xorshift of 64 bits).
fn next_word(word: u64) -> u64 {
    let word = word ^ word.wrapping_shl(13);
    let word = word ^ (word >> 7);
    word ^ word.wrapping_shl(17)
}

/// Changes a byte of some; twice, they are as before.
fn change(bytes: &mut [u8], place: usize, bits: u8) {
    if let Some(byte) = bytes.get_mut(place) {
        *byte ^= bits;
    }
}

/// Whether the bytes are told while one of them, by the word, is another.
fn is_told_changed(alloc: Global, version: Version, bytes: &mut [u8], word: u64) -> bool {
    let place = (word >> 32) as usize;
    let place = place.checked_rem(bytes.len()).unwrap_or(0);
    let bits = (word % 255 + 1) as u8;
    change(bytes, place, bits);
    let is_told = is_told(alloc, version, bytes);
    change(bytes, place, bits);
    is_told
}

/// How many of so many changes are neither refused nor written as they were read.
fn count_others(alloc: Global, version: Version, count: u64, bytes: &mut [u8]) -> u64 {
    let mut word = FIRST_WORD;
    let mut others: u64 = 0;
    for _ in 0..count {
        word = next_word(word);
        if !is_told_changed(alloc, version, bytes, word) {
            others = others.wrapping_add(1);
        }
    }
    others
}

/// These bytes with one of them changed, so often: how many were tried, and how many of them were neither refused in
/// that version nor written as they were read.
pub(crate) fn tell_changed(
    rt: &impl Print,
    alloc: Global,
    version: Version,
    count: u64,
    bytes: &mut [u8],
) -> io::Result<()> {
    let others = count_others(alloc, version, count, bytes);
    println!(rt; " tried {count}, other {others}")
}
