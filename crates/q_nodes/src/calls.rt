//! The calls of a script's lines, made while the nodes run in threads.

ghost use Rattle.std.specs.Prelude.{◌≡◌, ◌≤◌, All, IfErr, IfOk, length};
ghost use Rattle.std.specs.List.{AllZip};
ghost use Rattle.q_board.specs.BoardId.{board_id};
ghost use Rattle.q_nodes.specs.Lines.{ComesTo};
ghost use Rattle.q_nodes.specs.Runs.{ids_to};
ghost use Rattle.q_nodes.specs.Halts.{IsHalt};

use crate::bell::Bell;
use crate::flight::Flight;
use crate::halt::Halt;
use crate::line::run_lines;
use crate::node::{Wire, tend, wires};
use crate::outcome::Outcome;
use crate::script::ClusterScript;
use q_board::{AskerSeat, Board, RunnerSeat, with_runners};
use q_book::Book;
use q_held::{LiveNode, LossCounts, Unsent};
use q_outside::Transport;
use q_script::CallLine;
use sc_members::Config;
use std::alloc::{AllocError, Global};
use std::sync::atomic::{AtomicBool, Ordering};
use std::sync::{Mutex, Wait};
use std::thread;
use std::thread::{Scope, Threads};
use std::time::{Clock, Duration, Instant};

/// How many threads run jobs.
const RUNNERS: usize = 4;

/// What came of a script's lines, and what the nodes are once their threads have ended.
#[derive(Drop)]
pub struct Calls {
    /// What the call of each line came to.
    pub outcomes: Vec<Outcome>,
    /// How long the lines took, without the start of the threads and their end.
    pub taken: Duration,
    /// The book of each node.
    pub books: Vec<Book>,
    /// The datagrams that any of them lost.
    pub lost: LossCounts,
    /// What any of them did not send.
    pub unsent: Unsent,
}

/// What came of lines while the nodes ran.
#[derive(Drop)]
struct Made {
    outcomes: Vec<Outcome>,
    taken: Duration,
}

/// The ids 1 to this number.
pub(crate) fn ids(alloc: Global, nodes: u64) -> Result<Vec<u64>, AllocError>
    requires { nodes ≤ 16 }
    ensures { IfOk result (λ ids. ids.items ≡ ids_to nodes) }
{
    let mut ids = Vec::new(alloc);
    for known in 0..nodes {
        ids.push(known + 1)?;
    }
    Ok(ids)
}

/// The book of a founder with its seat at the board, behind its lock; nothing waits.
fn found_one<'b>(
    alloc: Global,
    board: &'b Board,
    asker: AskerSeat,
    config: Config,
    ids: &[u64],
    id: u64,
) -> Result<Mutex<LiveNode<'b>>, AllocError>
    requires { asker.table ≡ board_id board.now }
{
    // The ids are those of founders, so this is refused where memory runs out alone.
    let Ok(book) = Book::founder(alloc, config, id, ids) else {
        return Err(AllocError);
    };
    Ok(Mutex::new(LiveNode::new(alloc, book, board, asker)))
}

/// The same of each founder.
fn found<'b>(
    alloc: Global,
    board: &'b Board,
    askers: Vec<AskerSeat>,
    config: Config,
    ids: &[u64],
) -> Result<Vec<Mutex<LiveNode<'b>>>, AllocError>
    requires seated { All (λ s. s.table ≡ board_id board.now) askers.items }
    requires many { length askers.items ≡ length ids.now }
    ensures { IfOk result (λ locks. length locks.items ≡ length ids.now) }
{
    let mut locks = Vec::new(alloc);
    for asker in askers {
        // There are as many ids as seats at the board.
        let Some(id) = ids.get(locks.len()) else {
            return Err(AllocError);
        };
        let lock = found_one(alloc, board, asker, config, ids, *id)?;
        locks.push(lock)?;
    }
    Ok(locks)
}

/// Starts the thread of a node. Whether it runs.
fn start<'s, 'b, E, R: Wait + Threads + Clock + Sync, T: Transport + Send + Drop + 's>(
    scope: &Scope<'s, E>,
    rt: &'s R,
    alloc: Global,
    nodes: u64,
    held: &'s Mutex<LiveNode<'b>>,
    bell: &'s Bell,
    over: &'s AtomicBool,
    wire: Wire<T>,
) -> bool {
    scope
        .spawn(move || tend(rt, alloc, nodes, held, bell, over, wire))
        .is_ok()
}

/// Starts the threads of the nodes.
fn start_all<'s, 'b, E, R: Wait + Threads + Clock + Sync, T: Transport + Send + Drop + 's>(
    scope: &Scope<'s, E>,
    rt: &'s R,
    alloc: Global,
    nodes: u64,
    locks: &'s [Mutex<LiveNode<'b>>],
    bell: &'s Bell,
    over: &'s AtomicBool,
    wires: Vec<Wire<T>>,
) -> Result<(), Halt>
    ensures { IfErr result (IsHalt nodes) }
{
    for (place, (held, wire)) in locks.iter().zip(wires).enumerate() {
        if !start(scope, rt, alloc, nodes, held, bell, over, wire) {
            let node = (place as u64).saturating_add(1);
            return Err(Halt::Thread(node));
        }
    }
    Ok(())
}

/// Makes the calls of the lines, and tells how long that took.
fn time_lines<R: Wait + Clock, T: Transport + Drop>(
    rt: &R,
    alloc: Global,
    locks: &[Mutex<LiveNode<'_>>],
    nodes: u64,
    lines: &[CallLine],
    flight: &mut Flight<'_, T>,
) -> Result<Made, Halt>
    ensures came { IfOk result (λ made. AllZip (ComesTo nodes) lines.now made.outcomes.items) }
    ensures halt { IfErr result (IsHalt nodes) }
{
    let start = Instant::now(rt).ok();
    let outcomes = match run_lines(rt, alloc, locks, nodes, lines, flight) {
        Ok(outcomes) => outcomes,
        Err(halt) => return Err(halt),
    };
    let taken = start.and_then(|start| start.elapsed(rt).ok());
    Ok(Made {
        outcomes,
        taken: taken.unwrap_or(Duration::ZERO),
    })
}

/// Makes the calls of the lines while the nodes' threads run, and then ends these threads.
fn run_threads<R: Wait + Threads + Clock + Sync, T: Transport + Send + Drop>(
    rt: &R,
    alloc: Global,
    nodes: u64,
    locks: &[Mutex<LiveNode<'_>>],
    bell: &Bell,
    over: &AtomicBool,
    lines: &[CallLine],
    in_flight: usize,
    wires: Vec<Wire<T>>,
    end: Option<T>,
) -> Result<Made, Halt>
    ensures came { IfOk result (λ made. AllZip (ComesTo nodes) lines.now made.outcomes.items) }
    ensures halt { IfErr result (IsHalt nodes) }
{
    thread::scope(
        thread::scope_env(),
        rt,
        move |scope| -> Result<Made, Halt>
            ensures came { IfOk result (λ made. AllZip (ComesTo nodes) lines.entry.now made.outcomes.items) }
            ensures halt { IfErr result (IsHalt nodes) }
        {
            let mut flight = Flight::new(alloc, in_flight, bell, end);
            let made = match start_all(scope, rt, alloc, nodes, locks, bell, over, wires) {
                Ok(()) => time_lines(rt, alloc, locks, nodes, lines, &mut flight),
                Err(halt) => Err(halt),
            };
            over.store(true, Ordering::SeqCst);
            flight.wake_all(nodes);
            made
        },
    )
}

/// The caller's own end: the last transport, where there is one more than nodes.
fn own_end<T: Drop>(nodes: u64, transports: &mut Vec<T>) -> Option<T> {
    if transports.len() as u64 > nodes {
        transports.pop()
    } else {
        None
    }
}

/// The same while the runners run the jobs of the board.
fn run_with_runners<R: Wait + Threads + Clock + Sync, T: Transport + Send + Drop>(
    rt: &R,
    alloc: Global,
    board: &Board,
    runners: Vec<RunnerSeat>,
    locks: &[Mutex<LiveNode<'_>>],
    bell: &Bell,
    script: &ClusterScript,
    in_flight: usize,
    mut transports: Vec<T>,
) -> Result<Made, Halt>
    requires { All (λ s. s.table ≡ board_id board.now) runners.items }
    ensures came { IfOk result (λ made. AllZip (ComesTo script.now.nodes) script.now.lines.items made.outcomes.items) }
    ensures halt { IfErr result (IsHalt script.now.nodes) }
{
    let over = AtomicBool::new(false);
    let over = &over;
    let nodes = script.nodes;
    let end = own_end(nodes, &mut transports);
    let wires = wires(alloc, transports)?;
    let lines = script.lines.as_slice();
    let work = move || -> Result<Made, Halt>
        ensures came { IfOk result (λ made. AllZip (ComesTo nodes) lines.entry.now made.outcomes.items) }
        ensures halt { IfErr result (IsHalt nodes) }
    {
        run_threads(
            rt, alloc, nodes, locks, bell, over, lines, in_flight, wires, end,
        )
    };
    match with_runners(rt, alloc, board, runners, bell, work) {
        Ok(made) => made,
        Err(AllocError) => Err(Halt::OutOfMemory),
    }
}

/// What nodes are when their threads have ended.
#[derive(Drop)]
struct Nodes {
    books: Vec<Book>,
    lost: LossCounts,
    unsent: Unsent,
}

/// What the locks kept.
fn unlock(alloc: Global, locks: Vec<Mutex<LiveNode<'_>>>) -> Result<Nodes, AllocError>
    ensures { IfOk result (λ kept. length kept.books.items ≡ length locks.entry.items) }
{
    let mut nodes = Nodes {
        books: Vec::new(alloc),
        lost: LossCounts::none(),
        unsent: Unsent::none(),
    };
    for lock in locks {
        let held = lock.into_inner();
        nodes.lost = nodes.lost.and(held.lost);
        nodes.unsent = nodes.unsent.and(held.unsent);
        nodes.books.push(held.book)?;
    }
    Ok(nodes)
}

/// Founds the nodes of a script, whose board this is, and makes the calls of its lines.
fn call_founders<R: Wait + Threads + Clock + Sync, T: Transport + Send + Drop>(
    rt: &R,
    alloc: Global,
    board: &Board,
    askers: Vec<AskerSeat>,
    runners: Vec<RunnerSeat>,
    script: &ClusterScript,
    in_flight: usize,
    transports: Vec<T>,
) -> Result<Calls, Halt>
    requires asking { All (λ s. s.table ≡ board_id board.now) askers.items }
    requires many { length askers.items ≡ script.now.nodes }
    requires running { All (λ s. s.table ≡ board_id board.now) runners.items }
    requires few { script.now.nodes ≤ 16 }
    ensures came { IfOk result (λ calls. AllZip (ComesTo script.now.nodes) script.now.lines.items calls.outcomes.items) }
    ensures books { IfOk result (λ calls. length calls.books.items ≡ script.now.nodes) }
    ensures halt { IfErr result (IsHalt script.now.nodes) }
{
    let ids = ids(alloc, script.nodes)?;
    let locks = found(alloc, board, askers, script.config, ids.as_slice())?;
    let bell = Bell::new();
    let made = match run_with_runners(
        rt,
        alloc,
        board,
        runners,
        locks.as_slice(),
        &bell,
        script,
        in_flight,
        transports,
    ) {
        Ok(made) => made,
        Err(halt) => return Err(halt),
    };
    let nodes = unlock(alloc, locks)?;
    Ok(Calls {
        outcomes: made.outcomes,
        taken: made.taken,
        books: nodes.books,
        lost: nodes.lost,
        unsent: nodes.unsent,
    })
}

/// Founds the nodes of a script, each with a thread and one of these transports, and makes the calls of its lines in
/// turn, while four runners run the jobs; then ends all threads. No more operations and queries than `in_flight` are
/// waited for at once, so with 1 each line waits for the end of the one before. An operation or a query that has not
/// ended after four seconds is no longer waited for.
///
/// Where there is one transport more than nodes, the last one is the caller's own: by it the nodes' threads are woken.
/// Without it a node sends what a line gave it once its transport has waited for long enough.
pub fn make_calls<R: Wait + Threads + Clock + Sync, T: Transport + Send + Drop>(
    rt: &R,
    alloc: Global,
    script: &ClusterScript,
    in_flight: usize,
    transports: Vec<T>,
) -> Result<Calls, Halt>
    ensures came { IfOk result (λ calls. AllZip (ComesTo script.now.nodes) script.now.lines.items calls.outcomes.items) }
    ensures books { IfOk result (λ calls. length calls.books.items ≡ script.now.nodes) }
    ensures few { IfOk result (λ _. script.now.nodes ≤ 16) }
    ensures halt { IfErr result (IsHalt script.now.nodes) }
{
    match Board::open(alloc, script.nodes as usize, RUNNERS) {
        Ok((board, askers, runners)) => call_founders(
            rt, alloc, &board, askers, runners, script, in_flight, transports,
        ),
        Err(fault) => Err(Halt::of_board(fault, script.nodes)),
    }
}
