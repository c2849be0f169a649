//! Whether a node begins, comes back, or does neither.

ghost use Rattle.std.specs.Prelude.{◌≡◌, option_copied};
ghost use Rattle.q_journal.specs.Notes.{course_of};

use crate::note::BootNote;

/// What a start finds under the journal's name.
#[derive(Clone, Copy, Debug, PartialEq, Eq)]
pub enum Standing {
    /// There is no file.
    Missing,
    /// It has less than the head of the node: nothing, or a proper beginning of it.
    Headless,
    /// It begins with the head of the node.
    Whole,
}

/// Why a node neither begins nor comes back: it may have said what the file lacks, or `--resume` found no journal.
#[derive(Clone, Copy, Debug, PartialEq, Eq)]
pub enum Unresumed {
    /// There is no journal, and `--resume` asks for one.
    NoJournal,
    /// There is no journal, though the note says that the node has run.
    Gone,
    /// There is a journal and no note, so nobody can tell whether it is all that the node said.
    Unnoted,
    /// The machine has restarted since, and the journal was not kept on the disk.
    PowerLost,
}

/// What a start does.
#[derive(Clone, Copy, Debug, PartialEq, Eq)]
pub enum Course {
    /// The node begins.
    Begin,
    /// It comes back.
    Resume,
    /// Neither, for this reason.
    Refuse(Unresumed),
}

/// What a start does, by the note beside the journal, the machine's start, what is found, and whether `--resume`
/// is given.
pub fn course_of(note: Option<&BootNote>, boot: &str, standing: Standing, asked: bool) -> Course
    ensures { result ≡ course_of (option_copied note.entry) boot.now standing asked }
{
    let is_here = note.is_some_and(|note| note.is_of(boot));
    match (note, standing) {
        (None, Standing::Missing) if asked => Course::Refuse(Unresumed::NoJournal),
        (None, Standing::Missing | Standing::Headless) => Course::Begin,
        (Some(_), Standing::Missing) => Course::Refuse(Unresumed::Gone),
        (Some(_), Standing::Headless) if is_here => Course::Begin,
        (None, Standing::Whole) => Course::Refuse(Unresumed::Unnoted),
        (Some(note), Standing::Whole) if is_here || note.synced => Course::Resume,
        (Some(_), Standing::Headless | Standing::Whole) => Course::Refuse(Unresumed::PowerLost),
    }
}
