//! Words: `alu INSN = A B`, `swap INSN = A`, `extend INSN = A` and `relates INSN = A B` give what the operation of an
//! instruction makes of words, or whether the relation of a branch holds between them.

use crate::words::{insn, numbers};
use bq_insn::{Extension, Insn};
use bq_word::{SignBits, Width, alu, extend, relates, swap};
use std::alloc::Global;
use std::io;

/// How many bits an extension reads, and how wide its result is.
pub(crate) fn parts(extension: Extension) -> (SignBits, Width) {
    match extension {
        Extension::W32From8 => (SignBits::B8, Width::W32),
        Extension::W32From16 => (SignBits::B16, Width::W32),
        Extension::W64From8 => (SignBits::B8, Width::W64),
        Extension::W64From16 => (SignBits::B16, Width::W64),
        Extension::W64From32 => (SignBits::B32, Width::W64),
    }
}

/// What the operation of an instruction makes of two words.
fn of_two(insn: &Insn, a: u64, b: u64) -> Option<u64> {
    match insn {
        Insn::Alu { width, op, .. } => Some(alu(*width, *op, a, b)),
        Insn::Branch {
            width,
            relation,
            ..
        } => Some(u64::from(relates(*width, *relation, a, b))),
        _ => None,
    }
}

/// What the operation of an instruction makes of a word.
fn of_one(insn: &Insn, a: u64) -> Option<u64> {
    match insn {
        Insn::Order { bits, .. } => Some(swap(*bits, a)),
        Insn::Extend { extension, .. } => {
            let (from, to) = parts(*extension);
            Some(extend(from, to, a))
        }
        _ => None,
    }
}

/// What the operation of an instruction makes of these words.
fn operation(insn: &Insn, words: &[u64]) -> Option<u64> {
    match words {
        [a, b] => of_two(insn, *a, *b),
        [a] => of_one(insn, *a),
        _ => None,
    }
}

/// Prints the word that the operation leaves, and 1 or 0 for a relation.
pub(crate) fn answer(rt: &impl Print, alloc: Global, rest: &str) -> io::Result<()> {
    if let Some((source, words)) = rest.split_once('=') {
        if let (Some(insn), Some(words)) = (insn(alloc, source)?, numbers(alloc, words)?) {
            if let Some(word) = operation(&insn, words.as_slice()) {
                return println!(rt; " {word}");
            }
        }
    }
    println!(rt; " ?")
}
