//! The command `node`: a node whose cluster's file, door and journal are named by words.

ghost use Rattle.std.specs.Prelude.{◌≡◌, ℕ, List, Option, IfErr, IfOk};
ghost use Rattle.std.specs.Option.{ForSome};
ghost use Rattle.q_node.specs.Files.{IsWrittenFile, RunsNode, longest_file};
ghost use Rattle.q_node.specs.Runs.{EndsRefused, failures_after};
ghost use Rattle.q_node.specs.declared.ending.NodeEnding.{NodeEnding as How};

use crate::doorway::NodeDoors;
use crate::ending::{NodeEnding, print_refusal};
use crate::fault::StartFault;
use crate::run::{Setup, run_node};
use q_board::MOST_RUNNERS;
use q_book::Book;
use q_doors::{ClientDoor, DoorAddress, PostFault, UdpPost, address_of};
use q_journal::{OpenedJournal, keep_journal, open_journal};
use q_outside::{Counted, Files, LONGEST_TEXT};
use q_script::{ClusterFile, ClusterFileFault, NodeWords, read_cluster};
use std::alloc::{AllocError, Global};
use std::fs::{File, Files as SystemFiles};
use std::io::{BufRead, Eprint, ErrorKind, Write};
use std::net::{Net, TcpListener, TcpStream};
use std::sync::Wait;
use std::thread::Threads;
use std::time::{Clock, Duration};
use std::{io, str};

/// For how many milliseconds the socket waits for a datagram.
const PATIENCE: u64 = 100;

/// How many files and sockets a node may have open beside its standard ones: those of its clients and of its console,
/// its own, and its journal.
const DESCRIPTORS: usize = 96;

/// The line of a text with this number, counted from 1.
fn line_of(source: &str, line: usize) -> &str {
    source.split('\n').nth(line.saturating_sub(1)).unwrap_or("")
}

/// Whether a line has a space where no word follows or precedes.
fn has_stray_space(source: &str, line: usize) -> bool {
    let text = line_of(source, line);
    text.starts_with(' ') || text.ends_with(' ') || text.contains("  ") || text.contains('\t')
}

/// Whether a line ends with the port 0.
fn has_port_0(source: &str, line: usize) -> bool {
    line_of(source, line).ends_with(":0")
}

/// What would satisfy the reader of a cluster's file.
fn advice(source: &str, fault: ClusterFileFault) -> &'static str {
    match fault {
        ClusterFileFault::Syntax { .. } if source.contains('\r') => {
            "Lines end with a line feed alone: the text has a carriage return."
        }
        ClusterFileFault::Syntax { line } if has_stray_space(source, line) => {
            "The line begins or ends with a space, or has two together: words have one space between them."
        }
        ClusterFileFault::Syntax { line } if has_port_0(source, line) => {
            "The port is 0: the others could not know where the node hears. Give it a port from 1 to 65535."
        }
        ClusterFileFault::Syntax { .. } => {
            "The first line is 'cluster NUMBER BETA GAMMA', as 'cluster 7310582 2/3 2/3'; each other line is \
             'founder ID ADDRESS' or 'node ID ADDRESS', as 'founder 1 10.88.0.1:7000', with a port; 1,024 at most."
        }
        ClusterFileFault::BadFraction => { "A fraction is NUM/DEN with 1 <= NUM <= DEN <= 1,000." }
        ClusterFileFault::BadFounders => {
            "There are 1 to 256 founders, whose ids rise from line to line."
        }
        ClusterFileFault::IdUsed => "No two lines have one id or one address.",
        ClusterFileFault::OutOfMemory => "Memory ran out.",
    }
}

/// The line that is printed once the node hears.
fn greeting<R: Net<Listener = TcpListener, Stream = TcpStream>>(
    alloc: Global,
    words: &NodeWords<'_>,
    post: &UdpPost,
    door: &ClientDoor<'_, R>,
) -> Result<String, AllocError> {
    let id = words.id;
    let clients = words.clients;
    match (post.address(), door.address()) {
        (Ok(messages), Ok(address)) => {
            format!(in alloc; "node {id} messages {messages} clients {address}")
        }
        (Ok(messages), Err(_)) => {
            format!(in alloc; "node {id} messages {messages} clients {clients}")
        }
        (Err(_), _) => format!(in alloc; "node {id} clients {clients}"),
    }
}

/// Whether clients can come in there: the path of a socket has a slash, so no slip in an address becomes a file.
fn is_door(address: DoorAddress<'_>) -> bool {
    match address {
        DoorAddress::Tcp(_) => true,
        DoorAddress::Unix(path) => path.contains('/'),
    }
}

/// Says why a door was not opened, and what to do.
fn note_unopened<N: Write>(notes: &mut N, place: &str, error: &io::Error) {
    let advice = match error.kind() {
        ErrorKind::AddrInUse => {
            "Another process answers there, or a file that is not a socket is there: end it, remove it, or name another place."
        }
        ErrorKind::AddrNotAvailable => "It is not one of this machine's addresses.",
        ErrorKind::PermissionDenied => "This user may not open it.",
        ErrorKind::NotFound => "Make its folder first.",
        _ => "The system refuses it.",
    };
    let _ = writeln!(notes, "{place}: {error}. {advice}");
}

/// Why the node's own socket was not opened, and what to do.
fn unopened(fault: PostFault) -> &'static str {
    match fault {
        PostFault::InUse => {
            "The address is in use: another process has it, perhaps this node itself. End that first."
        }
        PostFault::NotHere => {
            "It is not one of this machine's addresses: start the node on its own machine, or mend its line in the file of every node."
        }
        PostFault::Failed | PostFault::NoSuchNode | PostFault::OutOfMemory => {
            "The system does not open a socket there."
        }
    }
}

/// Whether a board takes so many runners.
fn is_runners(runners: usize) -> bool {
    (1..=MOST_RUNNERS).contains(&runners)
}

/// The doors of a node, which are open.
#[derive(Drop)]
struct OpenDoors<'a, R: Net<Listener = TcpListener, Stream = TcpStream>> {
    clients: ClientDoor<'a, R>,
    console: Option<ClientDoor<'a, R>>,
}

impl<R> OpenDoors<'_, R>
where
    R: Net<Listener = TcpListener, Stream = TcpStream> + SystemFiles,
{
    /// Closes both.
    fn close(self) {
        let OpenDoors { clients, console } = self;
        clients.close();
        if let Some(console) = console {
            console.close();
        }
    }
}

/// The machine on which a node is run, and what the words of the command say.
#[derive(Drop)]
struct Launch<'a, R> {
    rt: &'a R,
    alloc: Global,
    words: &'a NodeWords<'a>,
}

impl<R> Launch<'_, R>
where
    R: Net<Listener = TcpListener, Stream = TcpStream> + Sync,
    R: SystemFiles + Wait + Threads + Clock + Eprint,
    R::File: Send,
{
    /// The cluster of the file. Why there is none goes to the notes.
    fn cluster<F: Files, N: Write>(
        &self,
        files: &mut F,
        notes: &mut N,
    ) -> Result<ClusterFile, StartFault>
        // What the node of that file prints, or the refusal, is what the command prints.
        ensures read { IfOk result (λ file. (e : How) (before after : Option (List ℕ))
            → RunsNode file self.now.words.now.id e before after
            → IsWrittenFile (F.read_gives longest_file) self.now.words.now.file.now self.now.words.now.id
            files.old files.new e before after) }
        ensures refused { IfErr result (λ fault. (e : How) (before after : Option (List ℕ))
            → EndsRefused fault e before after
            → IsWrittenFile (F.read_gives longest_file) self.now.words.now.file.now self.now.words.now.id
            files.old files.new e before after) }
    {
        let name = self.words.file;
        let bytes = files.read(self.alloc, name, LONGEST_TEXT)?;
        let Ok(source) = str::from_utf8(bytes.as_slice()) else {
            let _ = writeln!(notes, "{name}: It is not UTF-8, which text files are.");
            return Err(StartFault::FileFailed);
        };
        match read_cluster(self.alloc, source) {
            Ok(file) => Ok(file),
            Err(fault) => {
                let advice = advice(source, fault);
                let _ = writeln!(notes, "{name}: {advice}");
                Err(StartFault::Cluster(fault))
            }
        }
    }

    /// Whether as many files and sockets may be opened as a node needs. If not, the notes say what to do.
    fn check_descriptors<N: Write>(&self, notes: &mut N) -> Result<(), StartFault> {
        let mut held = Vec::new(self.alloc);
        for _ in 0..DESCRIPTORS {
            match File::open(self.rt, "/dev/null") {
                Ok(file) => held.push(file).map_err(AllocError::from)?,
                Err(error) if error.kind() == ErrorKind::NotFound => return Ok(()),
                Err(error) => {
                    let _ = writeln!(
                        notes,
                        "A node needs {DESCRIPTORS} file descriptors: {error}. Raise the limit, as by 'ulimit -n 1024'."
                    );
                    return Err(StartFault::TransportFailed);
                }
            }
        }
        Ok(())
    }

    /// The node's socket, which is opened. Why it is not goes to the notes.
    fn open_post<N: Write>(
        &self,
        file: &ClusterFile,
        notes: &mut N,
    ) -> Result<UdpPost, StartFault> {
        let id = self.words.id;
        let Some(address) = address_of(&file.nodes, id) else {
            let name = self.words.file;
            let _ = writeln!(
                notes,
                "{name}: It has no node with the id {id}. Add its line, in the file of every node."
            );
            return Err(StartFault::NoSuchNode);
        };
        if !is_runners(self.words.runners) {
            return Err(StartFault::BadCount);
        }
        let patience = Duration::from_millis(PATIENCE);
        match UdpPost::open(self.rt, self.alloc, file, id, patience) {
            Ok(post) => Ok(post),
            Err(PostFault::OutOfMemory) => Err(StartFault::OutOfMemory),
            Err(fault) => {
                let why = unopened(fault);
                let _ = writeln!(notes, "{address}: {why}");
                Err(StartFault::TransportFailed)
            }
        }
    }

    /// The door for clients, which is opened. Why it is not goes to the notes.
    fn open_door<N: Write>(&self, notes: &mut N) -> Result<ClientDoor<'_, R>, StartFault> {
        let clients = self.words.clients;
        let address = DoorAddress::of(clients);
        if !is_door(address) {
            let _ = writeln!(
                notes,
                "{clients}: It is no address with a port, as 127.0.0.1:8001, and no path of a socket, which has a slash."
            );
            return Err(StartFault::TransportFailed);
        }
        match ClientDoor::open(self.rt, address) {
            Ok(door) => Ok(door),
            Err(error) => {
                note_unopened(notes, clients, &error);
                Err(StartFault::TransportFailed)
            }
        }
    }

    /// The door for the console, which is opened if the words name one. Why it is not goes to the notes.
    fn open_console<N: Write>(
        &self,
        notes: &mut N,
    ) -> Result<Option<ClientDoor<'_, R>>, StartFault> {
        let Some(path) = self.words.console else {
            return Ok(None);
        };
        match ClientDoor::open_private(self.rt, path) {
            Ok(door) => Ok(Some(door)),
            Err(error) => {
                note_unopened(notes, path, &error);
                Err(StartFault::TransportFailed)
            }
        }
    }

    /// The book with which the node would begin. Refused as that of a node which begins.
    fn own_book(&self, file: &ClusterFile) -> Result<Book, StartFault>
        ensures { IfOk result (λ book. book.id ≡ self.now.words.now.id) }
    {
        let id = self.words.id;
        if file.node(id).is_some_and(|line| line.is_founder) {
            let founders = file.founders(self.alloc)?;
            return match Book::founder(self.alloc, file.config, id, founders.as_slice()) {
                Ok(book) => Ok(book),
                Err(fault) => Err(StartFault::Book(fault)),
            };
        }
        match Book::entering(self.alloc, file.config, id) {
            Ok((book, _outs)) => Ok(book),
            Err(_) => Err(StartFault::OutOfMemory),
        }
    }

    /// The journal's file, with what the node comes back with. Why there is none goes to the notes.
    fn open_journal<N: Write>(
        &self,
        file: &ClusterFile,
        notes: &mut N,
    ) -> Result<OpenedJournal<R::File>, StartFault>
        ensures { IfOk result (λ opened. ForSome opened.resumed (λ r. r.book.id ≡ self.now.words.now.id)) }
    {
        let own = self.own_book(file)?;
        let words = self.words;
        Ok(open_journal(
            self.rt,
            self.alloc,
            words.journal,
            &own,
            words.resume,
            words.sync,
            notes,
        )?)
    }

    /// Syncs the journal of a node that has ended to the disk, so that the node can come back even after the machine has
    /// restarted.
    fn keep<N: Write>(&self, ending: NodeEnding, notes: &mut N) {
        let name = self.words.journal;
        if let NodeEnding::Ended { .. } = ending
            && let Err(error) = keep_journal(self.rt, self.alloc, name)
        {
            let _ = writeln!(
                notes,
                "{name}: {error}. After a new start of the machine the node cannot go on."
            );
        }
    }

    /// Opens the journal and runs the node at these doors.
    fn run_at<C: BufRead, W: Write, N: Write>(
        &self,
        file: &ClusterFile,
        post: &UdpPost,
        doors: &OpenDoors<'_, R>,
        console: &mut C,
        out: &mut Counted<W>,
        notes: &mut N,
    ) -> NodeEnding
        ensures written { RunsNode file.now self.now.words.now.id result
            (W.contents out.old.inner) (W.contents out.new.inner) }
        ensures counted { out.new.failures ≡ failures_after result out.old.failures }
    {
        let words = self.words;
        let Ok(greeting) = greeting(self.alloc, words, post, &doors.clients) else {
            return print_refusal(StartFault::OutOfMemory, out);
        };
        let OpenedJournal {
            file: journal,
            resumed,
        } = match self.open_journal(file, notes) {
            Ok(opened) => opened,
            Err(fault) => return print_refusal(fault, out),
        };
        let setup = Setup {
            file,
            id: words.id,
            runners: words.runners,
            keeps: words.sync,
            greeting: greeting.as_str(),
        };
        let lines = doors.console.as_ref();
        let node_doors = NodeDoors {
            clients: &doors.clients,
            console: lines,
        };
        let ending = run_node(
            self.rt,
            self.alloc,
            &setup,
            post,
            &node_doors,
            journal,
            resumed,
            console,
            out,
        )
        .ending;
        self.keep(ending, notes);
        ending
    }

    /// The doors, which are opened. Why they are not goes to the notes.
    fn open_doors<N: Write>(&self, notes: &mut N) -> Result<OpenDoors<'_, R>, StartFault> {
        let clients = self.open_door(notes)?;
        match self.open_console(notes) {
            Ok(console) => Ok(OpenDoors { clients, console }),
            Err(fault) => {
                clients.close();
                Err(fault)
            }
        }
    }

    /// Opens what the words name, runs the node, and closes its doors.
    fn run<C: BufRead, W: Write, N: Write>(
        &self,
        file: &ClusterFile,
        console: &mut C,
        out: &mut Counted<W>,
        notes: &mut N,
    ) -> NodeEnding
        ensures written { RunsNode file.now self.now.words.now.id result
            (W.contents out.old.inner) (W.contents out.new.inner) }
        ensures counted { out.new.failures ≡ failures_after result out.old.failures }
    {
        let post = match self.open_post(file, notes) {
            Ok(post) => post,
            Err(fault) => return print_refusal(fault, out),
        };
        if let Err(fault) = self.check_descriptors(notes) {
            return print_refusal(fault, out);
        }
        let doors = match self.open_doors(notes) {
            Ok(doors) => doors,
            Err(fault) => return print_refusal(fault, out),
        };
        let ending = self.run_at(file, &post, &doors, console, out, notes);
        doors.close();
        ending
    }
}

/// The command `node`: runs the node of the cluster's file of this name so. Refused are, in this order: 87 where the
/// file is not read, has more than 16 MiB or is no UTF-8; 9, 45, 49 and 44 for its text; 81 where it lacks the node; 62
/// where there are not 1 to 64 runners; 86 where the node's socket or a door cannot be opened, or too few files may be
/// open; 87, 49, 57 and 58 where it neither begins nor comes back with its journal's file. 99 may come at any time. Why
/// is explained in the notes.
pub fn run_file<R, F, C, W, N>(
    rt: &R,
    alloc: Global,
    words: &NodeWords<'_>,
    files: &mut F,
    console: &mut C,
    out: &mut Counted<W>,
    notes: &mut N,
) -> NodeEnding
where
    R: Net<Listener = TcpListener, Stream = TcpStream> + Sync,
    R: SystemFiles + Wait + Threads + Clock + Eprint,
    R::File: Send,
    F: Files,
    C: BufRead,
    W: Write,
    N: Write,
    ensures written { IsWrittenFile (F.read_gives longest_file) words.now.file.now words.now.id files.old files.new result (W.contents out.old.inner) (W.contents out.new.inner) }
    ensures counted { out.new.failures ≡ failures_after result out.old.failures }
{
    let launch = Launch { rt, alloc, words };
    match launch.cluster(files, notes) {
        Ok(file) => launch.run(&file, console, out, notes),
        Err(fault) => print_refusal(fault, out),
    }
}
