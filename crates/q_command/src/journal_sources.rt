//! Files of journals that are read, one after the other.

ghost use Rattle.std.specs.Prelude.{◌≡◌, ◌⊎◌, [], ◌∷◌, ◌++◌, map, IfOk, IfErr, OnOk, string_bytes};
ghost use Rattle.q_replay.specs.declared.fault.ReplayFault.{ReplayFault};
ghost use Rattle.q_beginning.specs.Beginning.{IsBeginning, IsRefused};
ghost use Rattle.q_command.specs.JournalFiles.{AreSources, IsRead, IsUnread, RefusesFile, Source, longest_journal, source_line};
ghost use Rattle.q_command.specs.GatheredLines as line;
ghost use Rattle.q_command.specs.Tells as tells;

use crate::journal_notes::note_journal;
use q_beginning::beginning;
use q_book::Book;
use q_gather::GatherFault;
use q_outside::Files;
use q_told::Refusal;
use reasons::Reason;
use std::alloc::{AllocError, Global};
use std::io::Write;

/// The most bytes of a journal that are read: 1,024 MB.
const LONGEST_JOURNAL: usize = 1024 * 1024 * 1024;

/// What was read of files: the lines that tell of each, and the book of each.
#[derive(Drop)]
pub(crate) struct Sources {
    pub(crate) lines: String,
    pub(crate) books: Vec<Book>,
}

/// The refusal by which it is told that books do not gather.
pub(crate) fn of_gather(fault: GatherFault) -> Refusal
    ensures { result ≡ tells.of_gather fault }
{
    match fault {
        GatherFault::Journal { fault, .. } => Refusal::Journal(fault),
        GatherFault::IdUsed => Refusal::Cluster(Reason::IdUsed),
        GatherFault::BadFounders => Refusal::Cluster(Reason::BadFounders),
        GatherFault::NeverSent => Refusal::Cluster(Reason::NeverSent),
        GatherFault::OutOfMemory => Refusal::OutOfMemory,
    }
}

/// Prints the end of a file's line: how many bytes were cut, if any were.
fn print_cut(lines: &mut String, cut: usize) -> Result<(), AllocError>
    ensures { OnOk result (string_bytes lines.new ≡ string_bytes lines.old ++ line.cut_text cut) }
{
    if cut == 0 {
        Ok(())
    } else {
        write!(lines, " cut {cut} bytes")
    }
}

/// Prints the line of a file that has the journal of this book, and so many bytes after it.
fn print_journal(lines: &mut String, name: &str, book: &Book, cut: usize) -> Result<(), AllocError>
    ensures { OnOk result (string_bytes lines.new ≡ string_bytes lines.old ++ line.journal_line name.now book.now cut) }
{
    let node = book.id();
    let events = book.events();
    write!(lines, "{name} node {node} events {events}")?;
    print_cut(lines, cut)?;
    writeln!(lines, "")
}

/// Reads a file, prints its line, and answers the book of the longest beginning of its bytes that is a journal.
fn read_one<F: Files, N: Write>(
    alloc: Global,
    name: &str,
    lines: &mut String,
    files: &mut F,
    notes: &mut N,
) -> Result<Book, Refusal>
    ensures read { IfOk result (λ b. (s : Source) × IsRead (F.read_gives longest_journal) files.old s files.new × (s.name ≡ name.now) × (s.book ≡ b) × (string_bytes lines.new ≡ string_bytes lines.old ++ source_line s)) }
    ensures refused { IfErr result (λ r. IsUnread (F.read_gives longest_journal) files.old name.now r files.new ⊎ (r ≡ Refusal.OutOfMemory)) }
{
    match files.read(alloc, name, LONGEST_JOURNAL) {
        Ok(bytes) => take_one(alloc, name, &bytes, lines, notes),
        Err(fault) => Err(Refusal::from(fault)),
    }
}

/// The same of the bytes that were read.
fn take_one<N: Write>(
    alloc: Global,
    name: &str,
    bytes: &[u8],
    lines: &mut String,
    notes: &mut N,
) -> Result<Book, Refusal>
    ensures begins { IfOk result (λ b. (s : Source) × (s.name ≡ name.now) × (s.bytes ≡ bytes.now) × (s.book ≡ b) × IsBeginning s.bytes s.kept s.book × (string_bytes lines.new ≡ string_bytes lines.old ++ source_line s)) }
    ensures refused { IfErr result (λ r. ((fault : ReplayFault) × IsRefused bytes.now fault × (r ≡ Refusal.Journal fault)) ⊎ (r ≡ Refusal.OutOfMemory)) }
{
    match beginning(alloc, bytes) {
        Ok(journal) => {
            let cut = bytes.len() - journal.kept;
            match print_journal(lines, name, &journal.book, cut) {
                Ok(()) => Ok(journal.book),
                Err(_) => Err(Refusal::OutOfMemory),
            }
        }
        Err(fault) => {
            note_journal(notes, name, fault);
            Err(Refusal::Journal(fault))
        }
    }
}

/// Puts a book after the others.
fn push_book(books: &mut Vec<Book>, book: Book) -> Result<(), AllocError>
    ensures { OnOk result (books.new.items ≡ books.old.items ++ book ∷ []) }
{
    books.push(book)?;
    Ok(())
}

/// Reads the files with these names in turn, up to the first that is refused.
pub(crate) fn read_all<F: Files, N: Write>(
    alloc: Global,
    names: &[&str],
    files: &mut F,
    notes: &mut N,
) -> Result<Sources, Refusal>
    ensures read { IfOk result (λ s. AreSources (F.read_gives longest_journal) (map (λ name. name.now) names.now) files.old (string_bytes s.lines) s.books.items files.new) }
    ensures refused { IfErr result (λ r. RefusesFile (F.read_gives longest_journal) (map (λ name. name.now) names.now) files.old r files.new ⊎ (r ≡ Refusal.OutOfMemory)) }
{
    let mut lines = String::new(alloc);
    let mut books = Vec::new(alloc);
    for name in names {
        match read_one(alloc, name, &mut lines, files, notes) {
            Ok(book) => push_book(&mut books, book)?,
            Err(refusal) => return Err(refusal),
        }
    }
    Ok(Sources { lines, books })
}
