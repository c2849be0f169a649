//! What is hidden of a line, since it is not the same in each run.

use q_script::number;
use std::alloc::{AllocError, Global};
use std::str;

/// Whether a number after this word is hidden: it says how many events a journal has.
fn hides_next(word: &str) -> bool {
    matches!(word, "events" | "journal" | "resumed")
}

/// A word as it is shown. Addresses are hidden.
fn shown(is_hidden: bool, word: &str) -> &str {
    if is_hidden && number(word).is_some() {
        "*"
    } else if word.starts_with("127.0.0.1:") {
        "127.0.0.1:*"
    } else {
        word
    }
}

/// A line as it is shown, without the feed at its end.
pub fn masked(alloc: Global, line: &[u8]) -> Result<String, AllocError> {
    let text = str::from_utf8(line).unwrap_or("no text");
    let mut masked = String::new(alloc);
    let mut is_hidden = false;
    for word in text.strip_suffix('\n').unwrap_or(text).split(' ') {
        if !masked.is_empty() {
            masked.push(' ')?;
        }
        masked.push_str(shown(is_hidden, word))?;
        is_hidden = hides_next(word);
    }
    Ok(masked)
}

/// A text whose lines end with semicolons. An `@` is an address that is in use, and an `&` one that is free.
pub fn spelled(alloc: Global, text: &str, used: &str, free: &str) -> Result<String, AllocError> {
    let mut spelled = String::new(alloc);
    for letter in text.chars() {
        match letter {
            ';' => spelled.push('\n')?,
            '@' => spelled.push_str(used)?,
            '&' => spelled.push_str(free)?,
            _ => spelled.push(letter)?,
        }
    }
    Ok(spelled)
}
