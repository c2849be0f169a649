//! The note beside a journal.

ghost use Rattle.std.specs.Prelude.{◌≡◌, IfOk, IfSome, string_bytes};
ghost use Rattle.q_journal.specs.Notes.{is_of, note_text};

use std::alloc::{AllocError, Global};

/// The note beside a journal: during which start of the machine the node was started last, how often it was started on
/// this journal, and whether all of the journal is kept on the disk.
#[derive(Drop)]
pub struct BootNote {
    /// The start of the machine, as the system names it.
    pub boot: String,
    /// How often the node was started on this journal, this time included.
    pub start: u64,
    /// Whether all of the journal is kept on the disk.
    pub synced: bool,
}

impl BootNote {
    /// Whether the note was written during this start of the machine.
    pub fn is_of(&self, boot: &str) -> bool
        ensures { result ≡ is_of self.now boot.now }
    {
        self.boot.as_str() == boot
    }

    /// The text of the note, three lines.
    pub fn text(&self, alloc: Global) -> Result<String, AllocError>
        ensures { IfOk result (λ text. string_bytes text ≡ note_text self.now) }
    {
        let boot = self.boot.as_str();
        let start = self.start;
        let synced = self.synced;
        format!(in alloc; "boot {boot}\nstart {start}\nsync {synced}\n")
    }

    /// The note that this is the text of, if it is that of a note.
    pub fn read(alloc: Global, text: &str) -> Result<Option<BootNote>, AllocError>
        ensures { IfOk result (λ read. IfSome read (λ note. text.now ≡ note_text note)) }
    {
        let Some(note) = parsed(alloc, text)? else {
            return Ok(None);
        };
        // What was parsed is spelled again, so that no other spelling passes.
        let spelled = note.text(alloc)?;
        if spelled.as_str() == text {
            Ok(Some(note))
        } else {
            Ok(None)
        }
    }
}

/// The note that this may be the text of. What follows the three values is ignored.
fn parsed(alloc: Global, text: &str) -> Result<Option<BootNote>, AllocError> {
    let mut lines = text.lines();
    let Some(boot) = value_of(lines.next(), "boot ") else {
        return Ok(None);
    };
    let Some(start) = value_of(lines.next(), "start ") else {
        return Ok(None);
    };
    let Some(sync) = value_of(lines.next(), "sync ") else {
        return Ok(None);
    };
    let Ok(start) = start.parse::<u64>() else {
        return Ok(None);
    };
    Ok(Some(BootNote {
        boot: String::from_str(alloc, boot)?,
        start,
        synced: sync == "true",
    }))
}

/// The rest of a line after this word.
fn value_of<'a>(line: Option<&'a str>, word: &str) -> Option<&'a str> {
    match line {
        Some(line) => line.strip_prefix(word),
        None => None,
    }
}
