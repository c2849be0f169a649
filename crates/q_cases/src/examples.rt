//! Runs the commands of documents as they are written there, over the files that they name.
//!
//! In a document's blocks that begin with a line "```console" a line `$ ./bqview WORDS`, or `$ ./look WORDS`, is a
//! command, and what stands behind it, up to the next or to the block's end, is what it prints: its standard output,
//! and then what explains its refusal. Each command is printed, with whether it prints just that.

use crate::commands::{explained, gathered_notes};
use q_command::{FileCommand, Invocation, read_words};
use q_outside::{Counted, Files, Folder, LONGEST_TEXT};
use std::alloc::Global;
use std::io::{ErrorKind, Write};
use std::{io, str};

/// The document that is being read.
#[derive(Drop)]
struct Document {
    /// Whether a block of commands is open.
    is_open: bool,
    /// The command whose output is being read.
    command: Option<String>,
    /// What it prints, as the document says.
    told: Vec<u8>,
}

/// What a command over files prints, and then what explains its refusal.
fn print_line<F: Files>(
    alloc: Global,
    line: &FileCommand<'_>,
    files: &mut F,
    out: &mut Counted<Vec<u8>>,
) -> io::Result<()> {
    let told = explained(alloc, line, files, out);
    out.write_all(told.as_slice())
}

/// What gathering journals prints, and then what explains their refusal.
fn print_gathered<F: Files>(
    alloc: Global,
    journals: &[&str],
    pairs: bool,
    files: &mut F,
    out: &mut Counted<Vec<u8>>,
) -> io::Result<()> {
    let told = gathered_notes(alloc, journals, pairs, files, out);
    out.write_all(told.as_slice())
}

/// What the command of these words prints.
fn print_words<F: Files>(
    alloc: Global,
    words: &[&str],
    files: &mut F,
    out: &mut Counted<Vec<u8>>,
) -> io::Result<()> {
    match read_words(alloc, words) {
        Ok(Invocation::FileCommand(line)) => print_line(alloc, &line, files, out),
        Ok(Invocation::Gather { journals, pairs }) => {
            print_gathered(alloc, journals.as_slice(), pairs, files, out)
        }
        Ok(Invocation::Cluster { .. } | Invocation::Node(_) | Invocation::Client { .. }) => Ok(()),
        Err(fault) => write!(out, "{fault}"),
    }
}

/// What a command prints.
fn printed<F: Files>(alloc: Global, command: &str, files: &mut F) -> io::Result<Vec<u8>> {
    let words: Vec<&str> = command.split(' ').collect(alloc)?;
    let mut out = Counted::new(Vec::new(alloc));
    print_words(alloc, words.as_slice(), files, &mut out)?;
    Ok(out.inner)
}

/// Tells whether a command printed what is told of it, and else what it printed.
fn tell_command(rt: &impl Print, command: &str, bytes: &[u8], told: &[u8]) -> io::Result<()> {
    if bytes == told {
        return println!(rt; "{command}: as written");
    }
    println!(rt; "{command}: prints otherwise")?;
    io::writer(rt).write_all(bytes)
}

/// Runs the command whose output was read, and tells whether it prints just that.
fn end_command<F: Files>(
    rt: &impl Print,
    alloc: Global,
    document: &mut Document,
    files: &mut F,
) -> io::Result<()> {
    if let Some(command) = document.command.take() {
        let bytes = printed(alloc, command.as_str(), files)?;
        let told = document.told.as_slice();
        tell_command(rt, command.as_str(), bytes.as_slice(), told)?;
    }
    document.told.clear();
    Ok(())
}

/// The words behind the program's name, if the line is a command.
fn words_of(line: &str) -> Option<&str> {
    line.strip_prefix("$ ./bqview ")
        .or_else(|| line.strip_prefix("$ ./look "))
}

/// Takes the next line of the document.
fn take_line<F: Files>(
    rt: &impl Print,
    alloc: Global,
    document: &mut Document,
    line: &str,
    files: &mut F,
) -> io::Result<()> {
    if !document.is_open {
        document.is_open = line == "```console";
        return Ok(());
    }
    if line == "```" {
        document.is_open = false;
        return end_command(rt, alloc, document, files);
    }
    if let Some(words) = words_of(line) {
        end_command(rt, alloc, document, files)?;
        document.command = Some(format!(in alloc; "bqview {words}")?);
        return Ok(());
    }
    document.told.extend_from_slice(line.as_bytes())?;
    Ok(document.told.push(b'\n')?)
}

/// The text of a file.
fn text_of(bytes: &[u8]) -> io::Result<&str> {
    match str::from_utf8(bytes) {
        Ok(text) => Ok(text),
        Err(_) => Err(io::Error::from(ErrorKind::InvalidData)),
    }
}

/// The bytes of a document.
fn read<F: Files>(alloc: Global, name: &str, files: &mut F) -> io::Result<Vec<u8>> {
    match files.read(alloc, name, LONGEST_TEXT) {
        Ok(bytes) => Ok(bytes),
        Err(_) => Err(io::Error::from(ErrorKind::NotFound)),
    }
}

/// Runs the commands in the text of a document.
fn run_text<F: Files>(
    rt: &impl Print,
    alloc: Global,
    document: &mut Document,
    text: &str,
    files: &mut F,
) -> io::Result<()> {
    for line in text.split('\n') {
        take_line(rt, alloc, document, line, files)?;
    }
    Ok(())
}

/// Runs the commands of a document.
fn run_document<F: Files>(
    rt: &impl Print,
    alloc: Global,
    name: &str,
    files: &mut F,
) -> io::Result<()> {
    println!(rt; "{name}")?;
    let bytes = read(alloc, name, files)?;
    let mut document = Document {
        is_open: false,
        command: None,
        told: Vec::new(alloc),
    };
    let text = text_of(bytes.as_slice())?;
    run_text(rt, alloc, &mut document, text, files)
}

/// Runs the commands of each document that these lines name.
pub fn run_documents(rt: &HostRuntime, lines: &str) -> io::Result<()> {
    let mut files = Folder::new(rt, false);
    for name in lines.lines() {
        run_document(rt, rt.alloc(), name, &mut files)?;
    }
    Ok(())
}
