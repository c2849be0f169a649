//! What explains why `client` refuses a script. No contract speaks of these words.

use bq_explain::write_shown;
use q_script::ScriptFault;
use q_told::Refusal;
use std::alloc::{AllocError, Global};
use std::str;

/// What a line takes that begins with this word.
fn of_word(word: &str) -> &'static str {
    match word {
        "program" =>
            "program HEX, where HEX is the program's bytes in one word, two hexadecimal digits\neach: what asm lists, without its line feeds.",
        "store" =>
            "store VALUE, where VALUE is a number in decimal, or x and two hexadecimal digits for\neach of its bytes: store 5 or store x05ff.",
        "ask" => "ask PROGRAM START, with one space between, in decimal",
        _ =>
            "No line of `client` begins so. They are program, store and ask, one a line, with no\nblank lines and no comments.",
    }
}

/// What a line may say that begins as this text does.
fn client_line(text: &str) -> &'static str {
    if text.contains('\r') {
        return "It has a carriage return. Lines end with a line feed alone.";
    }
    if text.starts_with('\u{feff}') {
        return "It begins with a byte order mark. Save the file as UTF-8 without one.";
    }
    let (word, _) = text.split_once(' ').unwrap_or((text, ""));
    of_word(word)
}

/// The line of the script with this number, which is of no form, and what may stand there.
fn line_advice(
    alloc: Global,
    script: &str,
    source: &[u8],
    number: usize,
) -> Result<String, AllocError> {
    let source = str::from_utf8(source).unwrap_or("");
    let text = source
        .split('\n')
        .nth(number.saturating_sub(1))
        .unwrap_or("");
    let form = client_line(text);
    let mut out = String::new(alloc);
    write!(out, "{script}, line {number}: ")?;
    write_shown(&mut out, text)?;
    writeln!(out, "\n{form}\ndocs/FORMATS.md lists each form.")?;
    Ok(out)
}

/// What explains why the script in the file of this name is refused, from its bytes; none of a file that was not read,
/// of which [`Folder`] tells, and where memory ran out.
///
/// [`Folder`]: q_outside::Folder
pub(crate) fn client_advice(
    alloc: Global,
    script: &str,
    source: &[u8],
    refusal: Refusal,
) -> Result<Option<String>, AllocError> {
    match refusal {
        Refusal::FileFailed if str::from_utf8(source).is_err() => {
            let told = format!(in alloc; "{script}: It is not UTF-8, which text files are.\n")?;
            Ok(Some(told))
        }
        Refusal::Script(ScriptFault::Syntax { line }) => {
            Ok(Some(line_advice(alloc, script, source, line)?))
        }
        _ => Ok(None),
    }
}
