//! Readers and writers whose failures are counted.
//!
//! A read or a write that a signal interrupted did nothing: it is made again, and is not counted. For tests one call
//! can be made to fail, at which nothing is read or written.

ghost use Rattle.std.specs.Prelude.{◌≡◌, ◌≤◌, ◌<◌, ◌++◌, ℕ, List, length, take, IfOk, IsErrAnd, OnOk, OnErr};
ghost use Rattle.std.specs.Io.{ReadsAtMost, WritesAtMost};
ghost use Rattle.std.specs.Io.KnownBytes.{Appends, Consumes, IsAtEnd, Keeps, ReadConsumes, WriteAppends};
ghost use Rattle.std.specs.IoError.{error_kind};
ghost use Rattle.q_outside.specs.Counts.{write_count, count_after, one_more, one_fewer};

use crate::fault::{TransportFailed, is_to_fail};
use std::io;
use std::io::{ErrorKind, Read, Write};

/// A reader or a writer, and how many of its calls failed so far. One of the calls may be made to fail.
#[derive(Drop)]
pub struct Counted<T> {
    /// What is read from or written to.
    pub inner: T,
    /// How many calls failed: the count stays at its greatest value.
    pub failures: u64,
    /// The number of the read, write or flush that is to fail, counted from 1 for the next; 0 where none is.
    pub failing: u64,
}

impl<T> Counted<T> {
    /// None of its calls failed so far, and none is to fail.
    pub fn new(inner: T) -> Counted<T>
        ensures { result ≡ record { inner = inner; failures = 0; failing = 0 } }
    {
        Counted {
            inner,
            failures: 0,
            failing: 0,
        }
    }

    /// From now on the call with this number is to fail, counted from 1 for the next; with 0 none is. A call that a
    /// signal interrupts is one, however often it is made again.
    pub fn fail_at(&mut self, call: u64)
        ensures { self.new ≡ record self.old { failing = call } }
    {
        self.failing = call;
    }

    /// How many of its calls failed so far; the count stays at its greatest value. A write that takes none of a piece
    /// that is not empty counts as one that failed.
    pub fn failures(&self) -> u64
        ensures { result ≡ self.now.failures }
    {
        self.failures
    }

    // One call more failed.
    fn count(&mut self)
        ensures { self.new ≡ record self.old { failures = one_more self.old.failures } }
    {
        self.failures = self.failures.saturating_add(1);
    }

    // Counts a call that was to fail: its error.
    fn fail(&mut self) -> io::Error
        ensures kind { error_kind result ≡ ErrorKind.Other }
        ensures counted { self.new ≡ record self.old { failures = one_more self.old.failures } }
    {
        self.count();
        io::Error::from(ErrorKind::Other)
    }
}

/// A call, made again while a signal interrupts it.
macro_rules! through {
    ($calls:lifetime: $call:expr) => {{
        $calls: for _ in 0..u64::MAX {
            match $call {
                Ok(n) => return Ok(n),
                Err(error) if error.kind() == ErrorKind::Interrupted => {}
                Err(error) => return Err(error),
            }
        }
        Err(io::Error::from(ErrorKind::Interrupted))
    }};
}

/// A read, made again while a signal interrupts it.
fn read_through<R: Read>(reader: &mut R, buf: &mut [u8]) -> io::Result<usize>
    ensures bound { ReadsAtMost result buf.new }
    ensures bytes { ReadConsumes (R.remaining reader.old) (R.remaining reader.new) result buf.new }
{
    through!('reads: reader.read(buf))
}

/// A write, made again while a signal interrupts it.
fn write_through<W: Write>(writer: &mut W, buf: &[u8]) -> io::Result<usize>
    ensures bound { WritesAtMost result buf.now }
    ensures bytes { WriteAppends (W.contents writer.old) (W.contents writer.new) result buf.now }
{
    through!('writes: writer.write(buf))
}

impl<R: Read> Read for Counted<R> {
    ghost remaining = { λ c. R.remaining c.inner };

    fn read(&mut self, buf: &mut [u8]) -> io::Result<usize>
        ensures bound { ReadsAtMost result buf.new }
        ensures bytes { ReadConsumes (R.remaining self.old.inner) (R.remaining self.new.inner) result buf.new }
        ensures counted { self.new.failures ≡ count_after result self.old.failures }
        ensures failing { self.new.failing ≡ one_fewer self.old.failing }
        ensures fails { self.old.failing ≡ 1 → IsErrAnd result (λ e. error_kind e ≡ ErrorKind.Other) }
        ensures unread { self.old.failing ≡ 1 → self.new.inner ≡ self.old.inner }
        ensures same_buffer { self.old.failing ≡ 1 → buf.new ≡ buf.old }
    {
        if is_to_fail(&mut self.failing) {
            return Err(self.fail());
        }
        match read_through(&mut self.inner, buf) {
            Ok(n) => Ok(n),
            Err(error) => {
                self.count();
                Err(error)
            }
        }
    }
}

impl<W: Write> Write for Counted<W> {
    ghost contents = { λ c. W.contents c.inner };

    fn write(&mut self, buf: &[u8]) -> io::Result<usize>
        ensures bound { WritesAtMost result buf.now }
        ensures bytes { WriteAppends (W.contents self.old.inner) (W.contents self.new.inner) result buf.now }
        ensures counted { self.new.failures ≡ write_count result (length buf.now) self.old.failures }
        ensures failing { self.new.failing ≡ one_fewer self.old.failing }
        ensures fails { self.old.failing ≡ 1 → IsErrAnd result (λ e. error_kind e ≡ ErrorKind.Other) }
        ensures unwritten { self.old.failing ≡ 1 → self.new.inner ≡ self.old.inner }
    {
        if is_to_fail(&mut self.failing) {
            return Err(self.fail());
        }
        match write_through(&mut self.inner, buf) {
            Ok(0) => {
                if !buf.is_empty() {
                    self.count();
                }
                Ok(0)
            }
            Ok(n) => Ok(n),
            Err(error) => {
                self.count();
                Err(error)
            }
        }
    }

    fn flush(&mut self) -> io::Result<()>
        ensures bytes { Keeps (W.contents self.old.inner) (W.contents self.new.inner) }
        ensures counted { self.new.failures ≡ count_after result self.old.failures }
        ensures failing { self.new.failing ≡ one_fewer self.old.failing }
        ensures fails { self.old.failing ≡ 1 → IsErrAnd result (λ e. error_kind e ≡ ErrorKind.Other) }
        ensures unwritten { self.old.failing ≡ 1 → self.new.inner ≡ self.old.inner }
    {
        if is_to_fail(&mut self.failing) {
            return Err(self.fail());
        }
        match self.inner.flush() {
            Ok(()) => Ok(()),
            Err(error) => {
                self.count();
                Err(error)
            }
        }
    }
}

impl<R: Read> Counted<R> {
    /// Reads until the buffer is full or the input ends, and gives how many bytes came. Refused with 86 where a read
    /// fails; some bytes may have been read before.
    pub fn fill(&mut self, into: &mut [u8]) -> Result<usize, TransportFailed>
        ensures len { length into.new ≡ length into.old }
        ensures fits { IfOk result (λ n. n ≤ length into.old) }
        ensures read { IfOk result (λ n. Consumes (R.remaining self.old.inner) (R.remaining self.new.inner) (take n into.new)) }
        ensures end { IfOk result (λ n. n < length into.old → IsAtEnd (R.remaining self.new.inner)) }
        ensures failed { OnErr result ((part : List ℕ) × Consumes (R.remaining self.old.inner) (R.remaining self.new.inner) part) }
        ensures counted { self.new.failures ≡ count_after result self.old.failures }
        ensures fewer { self.new.failing ≤ self.old.failing }
        ensures not_reached { OnOk result (0 < self.old.failing → 0 < self.new.failing) }
    {
        let mut at = 0;
        while at < into.len() {
            match self.read(&mut into[at..]) {
                Ok(0) => return Ok(at),
                Ok(n) => at += n,
                Err(_) => return Err(TransportFailed),
            }
        }
        Ok(at)
    }
}

impl<W: Write> Counted<W> {
    /// Writes all of a piece. Refused with 86 where a write fails or takes none; some of it may have been written
    /// before.
    pub fn put(&mut self, bytes: &[u8]) -> Result<(), TransportFailed>
        ensures written { OnOk result (Appends (W.contents self.old.inner) (W.contents self.new.inner) bytes.now) }
        ensures failed { OnErr result ((part : List ℕ) × Appends (W.contents self.old.inner) (W.contents self.new.inner) part) }
        ensures counted { self.new.failures ≡ count_after result self.old.failures }
        ensures fewer { self.new.failing ≤ self.old.failing }
        ensures not_reached { OnOk result (0 < self.old.failing → 0 < self.new.failing) }
    {
        let mut rest = bytes;
        while !rest.is_empty() {
            match self.write(rest) {
                Ok(0) => return Err(TransportFailed),
                Ok(n) => rest = &rest[n..],
                Err(_) => return Err(TransportFailed),
            }
        }
        Ok(())
    }
}
