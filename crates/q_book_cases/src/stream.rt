//! Bytes that are read and written, up to where a call fails.

ghost use Rattle.std.specs.Prelude.{None};

use std::alloc::{AllocError, Global};
use std::io;
use std::io::{ErrorKind, Read, Write};

/// Room for the replies of a short stream.
const ROOM: usize = 64;

/// The bytes of an input, of which a few are read at a call. A call fails where so many were read.
#[derive(Drop)]
pub struct Input<'a> {
    rest: &'a [u8],
    passing: Option<usize>,
}

/// What was written. A call fails where so many bytes were written.
#[derive(Drop)]
pub struct Output {
    pub bytes: Vec<u8>,
    passing: Option<usize>,
}

/// How many bytes a call may take.
fn allowed(wanted: usize, passing: &mut Option<usize>) -> io::Result<usize> {
    match *passing {
        None => Ok(wanted),
        Some(0) if wanted > 0 => Err(io::Error::from(ErrorKind::BrokenPipe)),
        Some(left) => {
            let taken = wanted.min(left);
            *passing = Some(left.saturating_sub(taken));
            Ok(taken)
        }
    }
}

impl<'a> Input<'a> {
    /// An input of these bytes.
    pub fn new(rest: &'a [u8], passing: Option<usize>) -> Input<'a> {
        Input { rest, passing }
    }
}

impl Output {
    /// An empty output with room for some replies.
    pub fn new(alloc: Global, passing: Option<usize>) -> Result<Output, AllocError> {
        let bytes = Vec::with_capacity(alloc, ROOM)?;
        Ok(Output { bytes, passing })
    }
}

impl Read for Input<'_> {
    ghost remaining = { λ _. None };

    fn read(&mut self, buf: &mut [u8]) -> io::Result<usize> {
        let wanted = buf.len().min(self.rest.len()).min(7);
        let taken = allowed(wanted, &mut self.passing)?.min(wanted);
        let (front, behind) = self.rest.split_at(taken);
        buf[..taken].copy_from_slice(front);
        self.rest = behind;
        Ok(taken)
    }
}

impl Write for Output {
    fn write(&mut self, buf: &[u8]) -> io::Result<usize> {
        let taken = allowed(buf.len(), &mut self.passing)?.min(buf.len());
        self.bytes.extend_from_slice(&buf[..taken])?;
        Ok(taken)
    }

    fn flush(&mut self) -> io::Result<()> {
        Ok(())
    }
}
