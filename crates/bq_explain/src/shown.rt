//! Lines of a file, as they are shown.

use std::alloc::AllocError;

/// Of a line, this many characters are shown.
const SHOWN: usize = 72;

/// Writes a line as it is shown: its first 72 characters, and two dots where there are more. A carriage return is `\r`,
/// a tab `\t`, a byte order mark `\u{feff}`, and any other character that is not to be printed a question mark.
pub fn write_shown(out: &mut String, line: &str) -> Result<(), AllocError> {
    for letter in line.chars().take(SHOWN) {
        match letter {
            '\r' => out.push_str("\\r")?,
            '\t' => out.push_str("\\t")?,
            '\u{feff}' => out.push_str("\\u{feff}")?,
            letter if letter.is_control() => out.push('?')?,
            letter => out.push(letter)?,
        }
    }
    if line.chars().nth(SHOWN).is_some() {
        out.push_str("..")?;
    }
    Ok(())
}
