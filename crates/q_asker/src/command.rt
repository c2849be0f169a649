//! The command `client`: a script in a file, run over a connection with a node.

ghost use Rattle.std.specs.Prelude.{◌≡◌};
ghost use Rattle.q_asker.specs.Runs.{RunsBytes, RunsFile, RunsOver, RunsText, failures_after, longest_script};

use crate::connect::{Both, connect_tcp, connect_unix, is_path};
use crate::connection::Connection;
use crate::ending::{ClientEnding, print_refusal};
use crate::notes::note_unconnected;
use crate::run::{print_lost, run_lines};
use crate::script::{ClientLine, read_client_script};
use q_outside::{Counted, Files, LONGEST_TEXT};
use q_told::Refusal;
use std::alloc::Global;
use std::io::{Read, Write};
use std::net::Net;
use std::time::Clock;
use std::{io, str};

/// Runs lines over a stream, if there is one.
fn run_stream<T: Clock, S: Read + Write + Drop, O: Write, N: Write>(
    rt: &T,
    alloc: Global,
    place: &str,
    stream: io::Result<Both<S>>,
    lines: &[ClientLine],
    source: &str,
    out: &mut Counted<O>,
    notes: &mut N,
) -> ClientEnding
    ensures steps { RunsOver lines.now (O.contents out.old.inner) (O.contents out.new.inner) result }
    ensures counted { out.new.failures ≡ failures_after result out.old.failures }
{
    match stream {
        Ok(Both { replies, requests }) => {
            let mut connection = Connection {
                replies: Counted::new(replies),
                requests: Counted::new(requests),
            };
            run_lines(rt, alloc, lines, source, &mut connection, out, notes)
        }
        Err(error) => {
            note_unconnected(notes, place, &error);
            print_lost(out)
        }
    }
}

/// Connects with the node at a place, and runs lines over the connection.
fn run_at<T: Net + Clock, O: Write, N: Write>(
    rt: &T,
    alloc: Global,
    place: &str,
    lines: &[ClientLine],
    source: &str,
    out: &mut Counted<O>,
    notes: &mut N,
) -> ClientEnding
    ensures steps { RunsOver lines.now (O.contents out.old.inner) (O.contents out.new.inner) result }
    ensures counted { out.new.failures ≡ failures_after result out.old.failures }
{
    if is_path(place) {
        let stream = connect_unix(rt, place);
        run_stream(rt, alloc, place, stream, lines, source, out, notes)
    } else {
        let stream = connect_tcp(rt, place);
        run_stream(rt, alloc, place, stream, lines, source, out, notes)
    }
}

/// Runs the script that a text spells over a connection with the node at this place: a host and a port, or the path of
/// a Unix socket, which has a slash. The text is read before the node is connected with. Refused are 9, 99 and 86.
pub fn run_text<T: Net + Clock, O: Write, N: Write>(
    rt: &T,
    alloc: Global,
    place: &str,
    source: &str,
    out: &mut Counted<O>,
    notes: &mut N,
) -> ClientEnding
    ensures steps { RunsText source.now (O.contents out.old.inner) (O.contents out.new.inner) result }
    ensures counted { out.new.failures ≡ failures_after result out.old.failures }
{
    match read_client_script(alloc, source) {
        Ok(lines) => run_at(rt, alloc, place, lines.as_slice(), source, out, notes),
        Err(fault) => print_refusal(Refusal::Script(fault), out),
    }
}

/// The same of the bytes of a file. Those that are no text are refused with 87.
fn run_bytes<T: Net + Clock, O: Write, N: Write>(
    rt: &T,
    alloc: Global,
    place: &str,
    bytes: &[u8],
    out: &mut Counted<O>,
    notes: &mut N,
) -> ClientEnding
    ensures steps { RunsBytes bytes.now (O.contents out.old.inner) (O.contents out.new.inner) result }
    ensures counted { out.new.failures ≡ failures_after result out.old.failures }
{
    match str::from_utf8(bytes) {
        Ok(source) => run_text(rt, alloc, place, source, out, notes),
        Err(_) => print_refusal(Refusal::FileFailed, out),
    }
}

/// How the run of a file's script ended.
#[derive(Drop)]
pub struct FileRun {
    /// How it ended.
    pub ending: ClientEnding,
    /// The bytes of the file; none where it failed.
    pub source: Vec<u8>,
}

/// The command `client PLACE SCRIPT`: runs the script in the file of this name over a connection with the node at this
/// place. A file that fails, has more than 16 MiB, or is no UTF-8, is refused with 87 FileFailed. The bytes that were
/// read are answered, so that a refusal of the script can be explained from them.
pub fn run_file<T: Net + Clock, F: Files, O: Write, N: Write>(
    rt: &T,
    alloc: Global,
    place: &str,
    name: &str,
    files: &mut F,
    out: &mut Counted<O>,
    notes: &mut N,
) -> FileRun
    ensures steps { RunsFile (F.read_gives longest_script) name.now files.old files.new result.source.items
        (O.contents out.old.inner) (O.contents out.new.inner) result.ending }
    ensures counted { out.new.failures ≡ failures_after result.ending out.old.failures }
{
    let source = match files.read(alloc, name, LONGEST_TEXT) {
        Ok(bytes) => bytes,
        Err(fault) => {
            let ending = print_refusal(Refusal::from(fault), out);
            return FileRun {
                ending,
                source: Vec::new(alloc),
            };
        }
    };
    let ending = run_bytes(rt, alloc, place, source.as_slice(), out, notes);
    FileRun { ending, source }
}
