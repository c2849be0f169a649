//! What a line of a case asks for.

use sc_members::Fraction;
use sc_msg::Version;
use sc_view::{VALUE_LENGTH, Value};
use sc_world::WorldEvent;

/// A line about a world.
#[derive(Clone, Copy)]
pub(crate) enum WorldLine {
    World {
        beta: Fraction,
        gamma: Fraction,
        first: u64,
        count: u64,
    },
    WorldEvent(WorldEvent),
    All {
        messages: usize,
        nodes: u64,
    },
    Op(usize),
    Common(usize, usize),
    Known(u64),
    Counts,
}

/// A line about fractions, sets of ids and facts.
#[derive(Clone, Copy)]
pub(crate) enum MembersLine<'a> {
    Threshold(Fraction, usize),
    Fraction(Fraction),
    Sets(&'a [&'a str], &'a [&'a str]),
    Facts(&'a [&'a str], &'a [&'a str]),
}

/// What is asked about the bytes of a message.
#[derive(Clone, Copy)]
pub(crate) enum Question {
    /// What the message says.
    Message,
    /// By which numbers the beginnings of the bytes are refused.
    Beginnings,
    /// What comes of so many changes of a byte.
    Changed(u64),
    /// What is written of the message once it was read.
    Again,
}

/// A line about the bytes of a message of that version.
#[derive(Clone, Copy)]
pub(crate) struct BytesLine<'a> {
    pub(crate) question: Question,
    pub(crate) version: Version,
    /// The bytes, as hexadecimal digits.
    pub(crate) digits: &'a str,
}

/// What a line asks for.
#[derive(Clone, Copy)]
pub(crate) enum Case<'a> {
    World(WorldLine),
    Bytes(BytesLine<'a>),
    Members(MembersLine<'a>),
    View(&'a [&'a str], &'a [&'a str]),
    Share(&'a [&'a str], &'a [&'a str]),
    Value(usize),
}

pub(crate) fn number(word: &str) -> Option<u64> {
    word.parse::<u64>().ok()
}

pub(crate) fn place(word: &str) -> Option<usize> {
    usize::try_from(number(word)?).ok()
}

/// A byte in decimal.
pub(crate) fn byte_of(word: &str) -> Option<u8> {
    u8::try_from(number(word)?).ok()
}

fn fraction_of(word: &str) -> Option<Fraction> {
    let (above, below) = word.split_once('/')?;
    Some(Fraction {
        numerator: number(above)?,
        denominator: number(below)?,
    })
}

/// The words before the word `/` and those behind it; all, where there is none.
fn halves<'a>(words: &'a [&'a str]) -> (&'a [&'a str], &'a [&'a str]) {
    match words.iter().position(|word| *word == "/") {
        Some(at) => (
            words.get(..at).unwrap_or_default(),
            words.get(at.wrapping_add(1)..).unwrap_or_default(),
        ),
        None => (words, words.get(words.len()..).unwrap_or_default()),
    }
}

/// An event of one node.
fn event_of(verb: &str, node: u64) -> Option<WorldEvent> {
    match verb {
        "enter" => Some(WorldEvent::Enter(node)),
        "leave" => Some(WorldEvent::Leave(node)),
        "crash" => Some(WorldEvent::Crash(node)),
        "collect" => Some(WorldEvent::Collect(node)),
        _ => None,
    }
}

fn store(node: &str, byte: &str) -> Option<WorldEvent> {
    let node = number(node)?;
    let byte = byte_of(byte)?;
    Some(WorldEvent::Store {
        node,
        value: Value::from(&[byte; VALUE_LENGTH]),
    })
}

fn deliver(message: &str, node: &str) -> Option<WorldEvent> {
    let message = place(message)?;
    let node = number(node)?;
    Some(WorldEvent::Deliver { message, node })
}

fn all(messages: &str, nodes: &str) -> Option<WorldLine> {
    let messages = place(messages)?;
    let nodes = number(nodes)?;
    Some(WorldLine::All { messages, nodes })
}

fn common(first: &str, second: &str) -> Option<WorldLine> {
    let first = place(first)?;
    let second = place(second)?;
    Some(WorldLine::Common(first, second))
}

fn one(verb: &str, a: &str) -> Option<WorldLine> {
    match verb {
        "op" => place(a).map(WorldLine::Op),
        "known" => number(a).map(WorldLine::Known),
        _ => event_of(verb, number(a)?).map(WorldLine::WorldEvent),
    }
}

fn two(verb: &str, a: &str, b: &str) -> Option<WorldLine> {
    match verb {
        "all" => all(a, b),
        "common" => common(a, b),
        "store" => store(a, b).map(WorldLine::WorldEvent),
        "deliver" => deliver(a, b).map(WorldLine::WorldEvent),
        _ => None,
    }
}

fn world(beta: &str, gamma: &str, first: &str, count: &str) -> Option<WorldLine> {
    let beta = fraction_of(beta)?;
    let gamma = fraction_of(gamma)?;
    let first = number(first)?;
    let count = number(count)?;
    Some(WorldLine::World {
        beta,
        gamma,
        first,
        count,
    })
}

fn world_line(words: &[&str]) -> Option<WorldLine> {
    match words {
        ["counts"] => Some(WorldLine::Counts),
        [verb, a] => one(verb, a),
        [verb, a, b] => two(verb, a, b),
        ["world", beta, gamma, first, count] => world(beta, gamma, first, count),
        _ => None,
    }
}

fn threshold<'a>(fraction: &str, count: &str) -> Option<MembersLine<'a>> {
    let fraction = fraction_of(fraction)?;
    let count = place(count)?;
    Some(MembersLine::Threshold(fraction, count))
}

/// A line about fractions, sets of ids and facts.
fn members_line<'a>(words: &'a [&'a str]) -> Option<MembersLine<'a>> {
    match words {
        ["threshold", fraction, count] => threshold(fraction, count),
        ["fraction", fraction] => Some(MembersLine::Fraction(fraction_of(fraction)?)),
        ["sets", ids @ ..] => {
            let (first, second) = halves(ids);
            Some(MembersLine::Sets(first, second))
        }
        ["facts", ids @ ..] => {
            let (first, second) = halves(ids);
            Some(MembersLine::Facts(first, second))
        }
        _ => None,
    }
}

fn version_of(word: &str) -> Option<Version> {
    match word {
        "1" => Some(Version::First),
        "2" => Some(Version::Second),
        _ => None,
    }
}

/// A line about the bytes of a message.
fn bytes_line<'a>(words: &'a [&'a str]) -> Option<BytesLine<'a>> {
    let (question, version, digits) = match words {
        ["message", version, digits] => (Question::Message, version, digits),
        ["beginnings", version, digits] => (Question::Beginnings, version, digits),
        ["changed", version, count, digits] => (Question::Changed(number(count)?), version, digits),
        ["again", version, digits] => (Question::Again, version, digits),
        _ => return None,
    };
    Some(BytesLine {
        question,
        version: version_of(version)?,
        digits,
    })
}

impl Case<'_> {
    /// What a line asks for, by its words.
    pub(crate) fn read<'a>(words: &'a [&'a str]) -> Option<Case<'a>> {
        if let Some(line) = bytes_line(words) {
            return Some(Case::Bytes(line));
        }
        if let ["value", count] = words {
            return Some(Case::Value(place(count)?));
        }
        if let ["share", values @ ..] = words {
            let (first, second) = halves(values);
            return Some(Case::Share(first, second));
        }
        if let ["view", values @ ..] = words {
            let (first, second) = halves(values);
            return Some(Case::View(first, second));
        }
        match members_line(words) {
            Some(line) => Some(Case::Members(line)),
            None => Some(Case::World(world_line(words)?)),
        }
    }
}
