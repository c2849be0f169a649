//! Commands whose writer fails.

use q_command::{CommandEnding, FileCommand, carry_out};
use q_outside::{Counted, Files, MemoryFiles};
use std::alloc::Global;
use std::io;
use std::io::{ErrorKind, Write};

/// A writer that takes a few bytes and then fails.
#[derive(Drop)]
struct Short {
    room: usize,
}

impl Write for Short {
    fn write(&mut self, buf: &[u8]) -> io::Result<usize> {
        if self.room == 0 {
            return Err(io::Error::from(ErrorKind::BrokenPipe));
        }
        let taken = self.room.min(buf.len());
        self.room -= taken;
        Ok(taken)
    }

    fn flush(&mut self) -> io::Result<()> {
        Ok(())
    }
}

/// How a command ended.
fn end_of(ending: &CommandEnding<'_>) -> &'static str {
    match ending {
        CommandEnding::Answered | CommandEnding::Unsaved | CommandEnding::LineRefused => "answered",
        CommandEnding::Refused(_) => "refused",
        CommandEnding::Unwritten => "unwritten",
    }
}

/// How the listing of a file ends, with room for so many bytes, and its status. The file `a` holds one instruction.
pub fn listed(alloc: Global, room: usize, file: &str) -> (&'static str, u8) {
    let mut files = MemoryFiles::new(alloc);
    let _ = files.write("a", b"exit");
    let mut out = Counted::new(Short { room });
    let mut unseen = Vec::new(alloc);
    let line = FileCommand::Asm { file };
    let ending = carry_out(alloc, &line, &mut files, &mut out, &mut unseen);
    (end_of(&ending), ending.status())
}
