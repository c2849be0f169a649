//! The lines of cases.

use q_script::number;

/// A line of cases.
#[derive(Clone, Copy)]
pub enum CaseLine<'a> {
    /// `-- TEXT`, whole.
    Title(&'a str),
    /// `= NAME`
    File(&'a str),
    /// `+ HEX`
    Bytes(&'a str),
    /// `* COUNT TEXT`
    Repeated {
        /// How many times.
        count: u64,
        /// The line.
        text: &'a str,
    },
    /// `- NAME`
    Cut(&'a str),
    /// `@ PLACE BYTE NAME`
    Set {
        /// The byte's place, counted from 1 at the end.
        place: u64,
        /// The byte as digits.
        digits: &'a str,
        /// The name of the file.
        name: &'a str,
    },
    /// `! COUNT`
    Failing(u64),
    /// `$ WORDS`
    Command(&'a str),
    /// `? WORDS`
    Advice(&'a str),
    /// Any other line.
    Text(&'a str),
}

impl CaseLine<'_> {
    /// The line that a text spells.
    pub fn read(text: &str) -> CaseLine<'_> {
        match text.split_once(' ') {
            Some(("--", _)) => CaseLine::Title(text),
            Some(("=", name)) => CaseLine::File(name),
            Some(("+", digits)) => CaseLine::Bytes(digits),
            Some(("*", rest)) => repeated(rest).unwrap_or(CaseLine::Text(text)),
            Some(("-", name)) => CaseLine::Cut(name),
            Some(("@", rest)) => set(rest).unwrap_or(CaseLine::Text(text)),
            Some(("!", count)) => match number(count) {
                Some(count) => CaseLine::Failing(count),
                None => CaseLine::Text(text),
            },
            Some(("$", words)) => CaseLine::Command(words),
            Some(("?", words)) => CaseLine::Advice(words),
            _ => CaseLine::Text(text),
        }
    }
}

/// `COUNT TEXT`
fn repeated(text: &str) -> Option<CaseLine<'_>> {
    let (count, text) = text.split_once(' ')?;
    let count = number(count)?;
    Some(CaseLine::Repeated { count, text })
}

/// `PLACE BYTE NAME`
fn set(text: &str) -> Option<CaseLine<'_>> {
    let (place, rest) = text.split_once(' ')?;
    let place = number(place)?;
    let (digits, name) = rest.split_once(' ')?;
    Some(CaseLine::Set {
        place,
        digits,
        name,
    })
}
