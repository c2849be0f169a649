//! A node, run over any socket, door, journal's file, console and output.

ghost use Rattle.std.specs.Prelude.{◌≡◌, ◌≤◌, ◌++◌, All, IfErr, IfOk, IfSome, ℕ, List, Option};
ghost use Rattle.q_board.specs.BoardId.{board_id};
ghost use Rattle.std.specs.Option.{ForSome};
ghost use Rattle.q_replay.specs.Journal.{journal_of};
ghost use Rattle.q_journal.specs.Found.{Holds};
ghost use Rattle.q_script.specs.declared.file.ClusterFile.{ClusterFile as File};
ghost use Rattle.q_node.specs.Faults.{IsUnbegun};
ghost use Rattle.q_node.specs.Own.{IsOwn};
ghost use Rattle.q_node.specs.Runs.{IsJournal, IsReady, IsWritten, failures_after, first_of, front_of};
ghost use Rattle.q_node.specs.Talks.{Talks, front_text, resumption_text, talk_count};
ghost use Rattle.q_node.specs.declared.ending.NodeEnding.TheVariants.{Refused};
ghost use Rattle.q_node.specs.declared.fault.StartFault.{StartFault as Fault};

use crate::doorway::NodeDoors;
use crate::ending::{NodeEnding, close, print_refusal};
use crate::fault::StartFault;
use crate::front::{Front, Resumption};
use crate::own::{Ended, Own};
use crate::process::{Entrances, Process};
use crate::start::Start;
use crate::talk::hold_talk;
use crate::talk_end::Talk;
use crate::threads::Crew;
use q_board::{AskerSeat, Board, OpenFault, RunnerSeat};
use q_book::Book;
use q_doors::{Door, Post};
use q_held::LiveNode;
use q_journal::Resumed;
use q_kept::{JournalFile, Kept, Recorder};
use q_outside::Counted;
use q_script::ClusterFile;
use std::alloc::{AllocError, Global};
use std::io::{BufRead, Eprint, Write};
use std::marker::Brand;
use std::sync::Wait;
use std::thread;
use std::thread::Threads;
use std::time::Clock;

/// Which node is run, and how.
#[derive(Clone, Copy)]
pub struct Setup<'f> {
    /// The file of its cluster.
    pub file: &'f ClusterFile,
    /// Its id.
    pub id: u64,
    /// How many threads run jobs: 1 to 64.
    pub runners: usize,
    /// Whether the system is asked to keep each part of the journal before anything is sent.
    pub keeps: bool,
    /// The line that is printed once the node hears, without the feed at its end.
    pub greeting: &'f str,
}

/// How the run of a node ended, and the recorder of its journal, with the file.
#[derive(Drop)]
pub struct NodeRun<J: JournalFile> {
    /// How it ended.
    pub ending: NodeEnding,
    /// The recorder.
    pub recorder: Recorder<J>,
}

// ---- the threads and the conversation

impl<R, P, J, S> Process<'_, '_, R, P, J, S>
where
    R: Wait + Threads + Clock + Eprint + Sync,
    P: Post + Sync,
    J: JournalFile + Send,
    S: Start + Send,
{
    /// Holds the conversation at the console. Where its lines come over connections, the reader is not read.
    fn talk<C: BufRead, W: Write>(
        &self,
        alloc: Global,
        front: Front<'_>,
        has_door: bool,
        console: &mut C,
        out: &mut Counted<W>,
    ) -> Talk
        ensures said { Talks S.id (front_text front.entry) (W.contents out.old.inner) result (W.contents out.new.inner) }
        ensures counted { out.new.failures ≡ talk_count result out.old.failures }
    {
        if has_door {
            let mut nothing: &[u8] = &[];
            return hold_talk(self, alloc, front, &mut nothing, out);
        }
        hold_talk(self, alloc, front, console, out)
    }

    /// Writes the beginning of the journal, sends what waits, and runs the threads of a node while its console is
    /// minded, and ends them then. Where the journal is not written, nothing runs.
    fn begin_and_run<D, C, W>(
        &self,
        alloc: Global,
        front: Front<'_>,
        doors: &NodeDoors<'_, D>,
        crew: Crew<'_>,
        console: &mut C,
        out: &mut Counted<W>,
    ) -> Talk
    where
        D: Door + Sync,
        D::Stream: Send + Drop,
        C: BufRead,
        W: Write,
        ensures said { Talks S.id (front_text front.entry) (W.contents out.old.inner) result (W.contents out.new.inner) }
        ensures counted { out.new.failures ≡ talk_count result out.old.failures }
    {
        if !self.settle(alloc) {
            return Talk::Unstarted;
        }
        let mut crew = Some(crew);
        let (_, talk) = thread::join_mut(
            self.rt,
            &mut || {
                if let Some(crew) = crew.take() {
                    self.run_threads(alloc, doors, crew);
                }
            },
            &mut || -> Talk
                ensures said { Talks S.id (front_text front.entry) (W.contents out.entry.now.inner) result (W.contents out.exit.now.inner) }
                ensures counted { out.exit.now.failures ≡ talk_count result out.entry.now.failures }
            {
                let talk = self.talk(alloc, front, doors.console.is_some(), console, out);
                self.end();
                self.shut_doors(doors);
                talk
            },
        );
        talk
    }
}

/// Tells on the standard error which datagrams changed nothing, and what was not sent.
fn note_losses<R: Eprint, J: JournalFile>(rt: &R, ended: &Ended<J>, strangers: u64) {
    let lost = ended.lost;
    let _ = eprintln!(rt; "{lost}; {strangers} from strangers");
    let unsent = ended.unsent;
    if !unsent.is_none() {
        let _ = eprintln!(rt; "{unsent}");
    }
}

// ---- the beginning

/// The book of a founder.
fn found(alloc: Global, setup: &Setup<'_>) -> Result<Book, StartFault>
    ensures own { IfOk result (λ book. book.id ≡ setup.now.id) }
    ensures fault { IfErr result (IsUnbegun setup.now.file.now setup.now.id setup.now.runners) }
{
    let founders = setup.file.founders(alloc)?;
    match Book::founder(alloc, setup.file.config, setup.id, founders.as_slice()) {
        Ok(book) => Ok(book),
        Err(fault) => Err(StartFault::Book(fault)),
    }
}

/// The book of a node that begins, with its seat at the board. What a node that enters sends first waits.
fn begin<'b>(
    alloc: Global,
    setup: &Setup<'_>,
    board: &'b Board,
    asker: AskerSeat,
) -> Result<LiveNode<'b>, StartFault>
    requires { asker.table ≡ board_id board.now }
    ensures own { IfOk result (λ held. held.book.id ≡ setup.now.id) }
    ensures fault { IfErr result (IsUnbegun setup.now.file.now setup.now.id setup.now.runners) }
{
    let Some(line) = setup.file.node(setup.id) else {
        return Err(StartFault::NoSuchNode);
    };
    if line.is_founder {
        let book = found(alloc, setup)?;
        return Ok(LiveNode::new(alloc, book, board, asker));
    }
    let Ok((book, outs)) = Book::entering(alloc, setup.file.config, setup.id) else {
        return Err(StartFault::OutOfMemory);
    };
    let mut held = LiveNode::new(alloc, book, board, asker);
    held.waiting.reserve(2)?;
    outs.append_to(&mut held.waiting);
    Ok(held)
}

/// The book of the node, with its seat at the board: that of its journal, where it comes back, with what it still asks;
/// or the one with which it begins.
fn seat<'b>(
    alloc: Global,
    setup: &Setup<'_>,
    board: &'b Board,
    mut askers: Vec<AskerSeat>,
    resumed: Option<Resumed>,
) -> Result<LiveNode<'b>, StartFault>
    requires seated { All (λ s. s.table ≡ board_id board.now) askers.items }
    requires own { ForSome resumed (λ r. r.book.id ≡ setup.now.id) }
    ensures own { IfOk result (λ held. held.book.id ≡ setup.now.id) }
    ensures resumed { IfOk result (λ held. IfSome resumed (λ r. held.book ≡ r.book)) }
    ensures fault { IfErr result (IsUnbegun setup.now.file.now setup.now.id setup.now.runners) }
{
    // The board has one seat for one who asks.
    let Some(asker) = askers.pop() else {
        return Err(StartFault::OutOfMemory);
    };
    match resumed {
        Some(Resumed { book, .. }) => Ok(LiveNode::resumed(alloc, book, board, asker)?),
        None => begin(alloc, setup, board, asker),
    }
}

/// The ids of the cluster's nodes.
fn ids(alloc: Global, file: &ClusterFile) -> Result<Vec<u64>, AllocError> {
    file.nodes.iter().map(|node| node.id).collect(alloc)
}

/// The ids of the cluster's nodes, and the entrances of the doors.
fn ids_and_entrances(
    alloc: Global,
    file: &ClusterFile,
) -> Result<(Vec<u64>, Entrances), AllocError> {
    Ok((ids(alloc, file)?, Entrances::new(alloc)?))
}

/// A node that does not begin.
fn refuse<J: JournalFile, W: Write>(
    fault: StartFault,
    recorder: Recorder<J>,
    out: &mut Counted<W>,
) -> NodeRun<J>
    ensures written { (node : ℕ) (greeting : List ℕ) → IsWritten node greeting result.ending (W.contents out.old.inner) (W.contents out.new.inner) }
    ensures journal { (node : ℕ) (first : Option (List ℕ)) → IsJournal node first recorder.file result.recorder.file result.ending }
    ensures fault { (f : Fault) → result.ending ≡ Refused f → f ≡ fault }
    ensures counted { out.new.failures ≡ failures_after result.ending out.old.failures }
{
    NodeRun {
        ending: print_refusal(fault, out),
        recorder,
    }
}

// ---- the whole run

/// How a node is run: its machine, which node it is, its socket and its doors.
#[derive(Drop)]
struct Site<'a, D, R, P> {
    rt: &'a R,
    alloc: Global,
    setup: &'a Setup<'a>,
    post: &'a P,
    doors: &'a NodeDoors<'a, D>,
}

impl<D, R, P> Site<'_, D, R, P>
where
    D: Door + Sync,
    D::Stream: Send + Drop,
    R: Wait + Threads + Clock + Eprint + Sync,
    P: Post + Sync,
{
    /// Runs a node that was just begun, to its end.
    fn run_begun<J, S, C, W>(
        &self,
        nodes: &[u64],
        kept: Kept<'_, J>,
        entrances: Entrances,
        front: Front<'_>,
        crew: Crew<'_>,
        console: &mut C,
        out: &mut Counted<W>,
    ) -> NodeRun<J>
    where
        J: JournalFile + Send,
        S: Start + Send,
        C: BufRead,
        W: Write,
        requires { IsOwn S.id S.first kept.held.book kept.recorder }
        ensures written { IsWritten S.id (front_text front.entry) result.ending (W.contents out.old.inner) (W.contents out.new.inner) }
        ensures journal { (given : Option (List ℕ)) → IsJournal S.id S.first given result.recorder.file result.ending }
        ensures begun { (fault : Fault) → result.ending ≡ Refused fault → ⊥ }
        ensures counted { out.new.failures ≡ failures_after result.ending out.old.failures }
    {
        let process: Process<'_, '_, R, P, J, S> = Process::new(
            self.rt,
            self.post,
            nodes,
            Own::new(kept),
            entrances,
        );
        let talk = process.begin_and_run(self.alloc, front, self.doors, crew, console, out);
        let strangers = process.strangers();
        let ended = process.own.into_inner().end(self.alloc);
        note_losses(self.rt, &ended, strangers);
        NodeRun {
            ending: close(talk, ended.events, out),
            recorder: ended.recorder,
        }
    }

    /// Runs a node whose board this is, which begins or comes back, to its end.
    fn run_at<J, C, W>(
        &self,
        board: &Board,
        askers: Vec<AskerSeat>,
        seats: Vec<RunnerSeat>,
        recorder: Recorder<J>,
        resumed: Option<Resumed>,
        console: &mut C,
        out: &mut Counted<W>,
    ) -> NodeRun<J>
    where
        J: JournalFile + Send,
        C: BufRead,
        W: Write,
        requires asking { All (λ s. s.table ≡ board_id board.now) askers.items }
        requires running { All (λ s. s.table ≡ board_id board.now) seats.items }
        requires own { ForSome resumed (λ r. r.book.id ≡ self.now.setup.now.id) }
        requires recorded { IsReady resumed recorder }
        ensures written { IsWritten self.now.setup.now.id (front_of resumed self.now.setup.now.greeting.now) result.ending (W.contents out.old.inner) (W.contents out.new.inner) }
        ensures journal { IsJournal self.now.setup.now.id (first_of resumed recorder.file) recorder.file result.recorder.file result.ending }
        ensures unbegun { (fault : Fault) → result.ending ≡ Refused fault → IsUnbegun self.now.setup.now.file.now self.now.setup.now.id self.now.setup.now.runners fault }
        ensures counted { out.new.failures ≡ failures_after result.ending out.old.failures }
    {
        let Ok((nodes, entrances)) = ids_and_entrances(self.alloc, self.setup.file) else {
            return refuse(StartFault::OutOfMemory, recorder, out);
        };
        let front = Front {
            resumption: resumption_of(&resumed),
            greeting: self.setup.greeting,
        };
        let held = match seat(self.alloc, self.setup, board, askers, resumed) {
            Ok(held) => held,
            Err(fault) => return refuse(fault, recorder, out),
        };
        self.run_begun::<J, Brand, C, W>(
            nodes.as_slice(),
            Kept::new(self.alloc, held, recorder),
            entrances,
            front,
            Crew { board, seats },
            console,
            out,
        )
    }
}

/// Why there is no board for so many runners.
fn unseated(fault: OpenFault, runners: usize) -> StartFault
    requires { fault ≡ OpenFault.BadCount → ¬ ((1 ≤ runners) × (runners ≤ 64)) }
    ensures { (file : File) (id : ℕ) → IsUnbegun file id runners result }
{
    match fault {
        OpenFault::BadCount => StartFault::BadCount,
        OpenFault::OutOfMemory => StartFault::OutOfMemory,
    }
}

/// How a node comes back, if it does.
fn resumption_of(resumed: &Option<Resumed>) -> Option<Resumption>
    ensures text { (greeting : List ℕ) → resumption_text result ++ greeting ≡ front_of resumed.now greeting }
    ensures first { (given : Option (List ℕ)) → first_of result given ≡ first_of resumed.now given }
{
    match resumed {
        Some(resumed) => Some(Resumption {
            events: resumed.book.events(),
            cut: resumed.cut,
        }),
        None => None,
    }
}

/// A recorder of a journal that begins, or goes on after what a node comes back with.
fn recorder<J: JournalFile>(file: J, keeps: bool, resumed: &Option<Resumed>) -> Recorder<J>
    requires { ForSome resumed.now (λ r. Holds (J.contents file) (journal_of r.book)) }
    ensures file { result.file ≡ J.contents file }
    ensures ready { IsReady resumed.now result }
{
    match resumed {
        Some(resumed) => Recorder::resumed(file, keeps, &resumed.book, resumed.kept as u64),
        None => Recorder::new(file, keeps),
    }
}

/// Runs a node until its console ends it, and gives what its journal's file holds then. A node that comes back goes on
/// with the book of its journal, which the file holds.
///
/// Its first lines come once all threads run: one that hears, one that asks again, one at each door with one for each
/// connection, and the runners. The lines of the console are `status`, `leave` and `end`; when the console is closed
/// the node goes on. The last line says how many events the journal has, or why it is not whole. What else an operator
/// has to know goes to the standard error: that nine tenths of a limit are used, that the journal cannot be written or
/// was altered, that the node has not joined, and at the end which datagrams changed nothing and what was not sent.
///
/// It does not begin where there are not 1 to 64 runners (62), the file lacks the node (81), its founders are refused
/// (49), or memory runs out (99): these come in this order, and then nothing is written to the journal's file.
pub fn run_node<D, R, P, J, C, W>(
    rt: &R,
    alloc: Global,
    setup: &Setup<'_>,
    post: &P,
    doors: &NodeDoors<'_, D>,
    file: J,
    resumed: Option<Resumed>,
    console: &mut C,
    out: &mut Counted<W>,
) -> NodeRun<J>
where
    D: Door + Sync,
    D::Stream: Send + Drop,
    R: Wait + Threads + Clock + Eprint + Sync,
    P: Post + Sync,
    J: JournalFile + Send,
    C: BufRead,
    W: Write,
    requires own { ForSome resumed (λ r. r.book.id ≡ setup.now.id) }
    requires holds { ForSome resumed (λ r. Holds (J.contents file) (journal_of r.book)) }

    // What is printed, by how it ends.
    ensures written { IsWritten setup.now.id (front_of resumed setup.now.greeting.now) result.ending (W.contents out.old.inner) (W.contents out.new.inner) }

    // What the file holds: the whole journal of a book of this node if it was ended, and else a beginning of it.
    ensures journal { IsJournal setup.now.id (first_of resumed (J.contents file)) (J.contents file) result.recorder.file result.ending }

    // Why it does not begin.
    ensures unbegun { (fault : Fault) → result.ending ≡ Refused fault → IsUnbegun setup.now.file.now setup.now.id setup.now.runners fault }
    ensures counted { out.new.failures ≡ failures_after result.ending out.old.failures }
{
    let recorder = recorder(file, setup.keeps, &resumed);
    match Board::open(alloc, 1, setup.runners) {
        Ok((board, askers, seats)) => {
            let site = Site {
                rt,
                alloc,
                setup,
                post,
                doors,
            };
            site.run_at(&board, askers, seats, recorder, resumed, console, out)
        }
        Err(fault) => refuse(unseated(fault, setup.runners), recorder, out),
    }
}
