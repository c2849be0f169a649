//! Lines of a file that is refused.

use bq_explain::write_shown;
use std::alloc::AllocError;
use std::str;

/// A line of a file.
#[derive(Clone, Copy)]
pub(crate) struct Line<'a> {
    /// The name of the file.
    pub file: &'a str,
    /// The number of the line, counted from 1.
    pub number: usize,
    /// The line itself; empty where there is none.
    pub text: &'a str,
}

/// The text that bytes are; empty where they are none.
pub(crate) fn text_of(bytes: &[u8]) -> &str {
    match str::from_utf8(bytes) {
        Ok(text) => text,
        Err(_) => "",
    }
}

/// The line with this number of the text in a file.
pub(crate) fn line_of<'a>(file: &'a str, source: &'a str, number: usize) -> Line<'a> {
    Line {
        file,
        number,
        text: source
            .split('\n')
            .nth(number.saturating_sub(1))
            .unwrap_or(""),
    }
}

/// The file, the number of the line, and the line as it is shown.
pub(crate) fn write_line(out: &mut String, line: Line<'_>) -> Result<(), AllocError> {
    let Line { file, number, text } = line;
    write!(out, "{file}, line {number}: ")?;
    write_shown(out, text)?;
    out.push('\n')
}

/// A line that is of no form, and what may stand there.
pub(crate) fn write_form(out: &mut String, line: Line<'_>, form: &str) -> Result<(), AllocError> {
    write_line(out, line)?;
    writeln!(out, "{form}")?;
    out.push_str("docs/FORMATS.md lists each form.\n")
}
