//! The files of cases, and what their commands print.

use crate::line::CaseLine;
use q_command::{FileCommand, Invocation, WordsFault, carry_out, gather_files, read_words};
use q_outside::{Counted, Files, LONGEST_TEXT, MemoryFiles};
use std::alloc::{AllocError, Global};
use std::io;
use std::io::Write;

/// Writes what is wrong with words: the exit status.
pub fn tell_fault<W: Write>(fault: &WordsFault<'_>, out: &mut W) -> io::Result<u8> {
    writeln!(out, "{fault}")?;
    Ok(fault.status())
}

/// Does what is wanted over files: the exit status.
fn carry<F: Files, W: Write>(
    alloc: Global,
    invocation: &Invocation<'_>,
    files: &mut F,
    out: &mut Counted<W>,
) -> io::Result<u8> {
    match invocation {
        Invocation::FileCommand(line) => {
            let mut unseen = Vec::new(alloc);
            Ok(carry_out(alloc, line, files, out, &mut unseen).status())
        }
        Invocation::Gather { journals, pairs } => {
            let mut unseen = Vec::new(alloc);
            let names = journals.as_slice();
            Ok(gather_files(alloc, names, *pairs, files, out, &mut unseen).status())
        }
        Invocation::Cluster { .. } | Invocation::Node(_) | Invocation::Client { .. } => {
            writeln!(out, "no command over files")?;
            Ok(0)
        }
    }
}

/// Runs the command of these words: the exit status.
fn perform<F: Files, W: Write>(
    alloc: Global,
    words: &[&str],
    files: &mut F,
    out: &mut Counted<W>,
) -> io::Result<u8> {
    match read_words(alloc, words) {
        Ok(invocation) => carry(alloc, &invocation, files, out),
        Err(fault) => tell_fault(&fault, out),
    }
}

/// Runs a command: what explains its refusal and refused lines.
pub fn explained<F: Files, W: Write>(
    alloc: Global,
    line: &FileCommand<'_>,
    files: &mut F,
    out: &mut Counted<W>,
) -> Vec<u8> {
    let mut notes = Vec::new(alloc);
    let _outcome = carry_out(alloc, line, files, out, &mut notes);
    notes
}

/// Gathers the journals of files: what explains their refusal.
pub fn gathered_notes<F: Files, W: Write>(
    alloc: Global,
    journals: &[&str],
    pairs: bool,
    files: &mut F,
    out: &mut Counted<W>,
) -> Vec<u8> {
    let mut notes = Vec::new(alloc);
    let _ending = gather_files(alloc, journals, pairs, files, out, &mut notes);
    notes
}

/// Writes what explains a refusal, or that nothing does.
fn write_told<W: Write>(told: &[u8], out: &mut Counted<W>) -> io::Result<()> {
    if told.is_empty() {
        return writeln!(out, "nothing to explain");
    }
    out.write_all(told)
}

/// Writes what explains the refusal of what is wanted or of its lines, and that nothing does.
fn explain_invocation<F: Files, W: Write>(
    alloc: Global,
    invocation: &Invocation<'_>,
    files: &mut F,
    out: &mut Counted<W>,
) -> io::Result<()> {
    let mut unseen = Counted::new(Vec::new(alloc));
    match invocation {
        Invocation::FileCommand(line) => {
            let told = explained(alloc, line, files, &mut unseen);
            write_told(told.as_slice(), out)
        }
        Invocation::Gather { journals, pairs } => {
            let names = journals.as_slice();
            let told = gathered_notes(alloc, names, *pairs, files, &mut unseen);
            write_told(told.as_slice(), out)
        }
        Invocation::Cluster { .. } | Invocation::Node(_) | Invocation::Client { .. } => writeln!(
            out,
            "no command"
        ),
    }
}

/// The same of the command of these words.
fn explain_words<F: Files, W: Write>(
    alloc: Global,
    words: &[&str],
    files: &mut F,
    out: &mut Counted<W>,
) -> io::Result<()> {
    match read_words(alloc, words) {
        Ok(invocation) => explain_invocation(alloc, &invocation, files, out),
        Err(_fault) => writeln!(out, "no command"),
    }
}

/// Files in memory, and the one whose lines are being read.
#[derive(Drop)]
pub struct Commands {
    alloc: Global,
    files: MemoryFiles,
    name: String,
    bytes: Vec<u8>,
    /// How many reads and writes of the next command go through before one fails.
    passing: Option<u64>,
}

impl Commands {
    /// No files.
    fn new(alloc: Global) -> Commands {
        Commands {
            alloc,
            files: MemoryFiles::new(alloc),
            name: String::new(alloc),
            bytes: Vec::new(alloc),
            passing: None,
        }
    }

    /// Takes a line, and writes what comes of it.
    fn take<W: Write>(&mut self, line: CaseLine<'_>, out: &mut Counted<W>) -> io::Result<()> {
        match line {
            CaseLine::Title(text) => writeln!(out, "{text}"),
            CaseLine::File(name) => Ok(self.begin_file(name)?),
            CaseLine::Bytes(digits) => self.add_bytes(digits),
            CaseLine::Repeated { count, text } => Ok(self.add_lines(count, text)?),
            CaseLine::Cut(name) => self.cut(name),
            CaseLine::Set {
                place,
                digits,
                name,
            } => self.set(place, digits, name),
            CaseLine::Failing(passing) => {
                self.passing = Some(passing);
                Ok(())
            }
            CaseLine::Command(words) => self.command(words, out),
            CaseLine::Advice(words) => self.explain(words, out),
            CaseLine::Text(text) => Ok(self.add_lines(1, text)?),
        }
    }

    /// Makes the file whose lines were read, and begins another, which is empty yet.
    fn begin_file(&mut self, name: &str) -> Result<(), AllocError> {
        self.end_file();
        self.bytes.clear();
        self.name.clear();
        self.name.push_str(name)
    }

    fn add_lines(&mut self, count: u64, text: &str) -> Result<(), AllocError> {
        for _ in 0..count {
            self.bytes.extend_from_slice(text.as_bytes())?;
            self.bytes.push(b'\n')?;
        }
        Ok(())
    }

    fn add_bytes(&mut self, digits: &str) -> io::Result<()> {
        match hex::decode(self.alloc, digits) {
            Ok(bytes) => Ok(self.bytes.extend_from_slice(bytes.as_slice())?),
            Err(_) => Err(io::Error::from(io::ErrorKind::InvalidInput)),
        }
    }

    /// Goes on with a file that is there.
    fn take_up(&mut self, name: &str) -> io::Result<()> {
        self.end_file();
        match self.files.read(self.alloc, name, LONGEST_TEXT) {
            Ok(bytes) => self.bytes = bytes,
            Err(_) => return Err(io::Error::from(io::ErrorKind::NotFound)),
        }
        self.name.clear();
        Ok(self.name.push_str(name)?)
    }

    /// Cuts the last byte of a file.
    fn cut(&mut self, name: &str) -> io::Result<()> {
        self.take_up(name)?;
        self.bytes.pop();
        Ok(())
    }

    /// Sets a byte of a file, whose place is counted from 1 at the end.
    fn set(&mut self, place: u64, digits: &str, name: &str) -> io::Result<()> {
        self.take_up(name)?;
        let byte = hex::decode(self.alloc, digits);
        let place = self.bytes.len().checked_sub(place as usize);
        match (byte, place) {
            (Ok(byte), Some(place)) if place + byte.len() <= self.bytes.len() => {
                self.bytes[place..place + byte.len()].copy_from_slice(byte.as_slice());
                Ok(())
            }
            _ => Err(io::Error::from(io::ErrorKind::InvalidInput)),
        }
    }

    /// Makes the file whose lines were read.
    fn end_file(&mut self) -> bool {
        self.files.passing = None;
        self.files
            .write(self.name.as_str(), self.bytes.as_slice())
            .is_ok()
    }

    /// Runs the command of these words.
    fn command<W: Write>(&mut self, words: &str, out: &mut Counted<W>) -> io::Result<()> {
        writeln!(out, "$ {words}")?;
        self.end_file();
        self.files.failures = 0;
        self.files.passing = self.passing.take();
        let words: Vec<&str> = words.split(' ').collect(self.alloc)?;
        let status = perform(self.alloc, words.as_slice(), &mut self.files, out)?;
        let failures = self.files.failures();
        writeln!(out, "status {status} failures {failures}")
    }

    /// Writes what explains the refusal of these words' command.
    fn explain<W: Write>(&mut self, words: &str, out: &mut Counted<W>) -> io::Result<()> {
        writeln!(out, "? {words}")?;
        self.end_file();
        let words: Vec<&str> = words.split(' ').collect(self.alloc)?;
        explain_words(self.alloc, words.as_slice(), &mut self.files, out)
    }
}

/// Takes these lines.
fn take_all(rt: &impl Print, commands: &mut Commands, lines: &str) -> io::Result<()> {
    for line in lines.lines() {
        let mut out = Counted::new(io::writer(rt));
        commands.take(CaseLine::read(line), &mut out)?;
    }
    Ok(())
}

/// Runs the cases of these lines.
pub fn run_commands(rt: &impl Print, alloc: Global, lines: &str) -> io::Result<()> {
    let mut commands = Commands::new(alloc);
    take_all(rt, &mut commands, lines)
}
