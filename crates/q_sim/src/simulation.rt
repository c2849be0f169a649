//! Scripts, run over a cluster in memory.

ghost use Rattle.std.specs.Prelude.{◌≡◌, ◌≢◌, ℕ, ◌<◌, ◌≤◌, ◌↔◌, ◌++◌, ◌+◌, ◌^◌, [], length, min, None, IfOk, IfErr, OnOk, OnErr, IsTrue, IsFalse, string_bytes};
ghost use Rattle.q_sim.specs.Simulates.{IsSimulationFault, Rises, Simulates, TellsFaults, event_of, first_ids, with_id};
ghost use Rattle.q_sim.specs.Awaited.{AwaitsFrom};

use crate::delivered::Delivered;
use q_cluster::Cluster;
use q_desk::Call;
use q_history::{ClusterEvent, ClusterFault, ClusterStep};
use q_outside::{FileFault, Files};
use q_replay::journal_bytes;
use q_script::{CallLine, Founding, Script, ScriptLine};
use q_table::ProgramId;
use q_told::{Refusal, RefusedLine, certified_code, print_messages, print_pairs, print_told};
use reasons::Reason;
use sc_members::Config;
use sc_view::Value;
use std::alloc::{AllocError, Global};

/// A cluster that a script runs, and what the script printed.
#[derive(Drop)]
struct Simulation {
    alloc: Global,
    cluster: Cluster,
    /// The ids that entered, in rising order.
    nodes: Vec<u64>,
    /// The deliveries that were accepted, or tried by `all`.
    delivered: Delivered,
    /// No message before this one awaits a delivery: `all` begins here.
    awaited_from: usize,
    /// Whether a journal was not written.
    unsaved: bool,
    /// The number of the line that is run.
    line: usize,
    /// The lines that were refused.
    faults: Vec<RefusedLine>,
    lines: String,
    ghost rising: { Rises nodes.items },
    ghost sent: { awaited_from ≤ length cluster.past.sent },
    ghost passed: { AwaitsFrom awaited_from (record { cluster = cluster; nodes = nodes.items; delivered = delivered; unsaved = unsaved; line = line; faults = faults.items }) },
}

/// How the deliveries of one message went.
#[derive(Clone, Copy)]
enum Spread {
    /// It was delivered to each node that awaited it, and so many deliveries are left of the limit.
    Whole(u64),
    /// No more deliveries are left of the limit.
    LimitReached,
    /// Memory was refused for a delivery.
    OutOfMemory,
}

/// What a script printed.
#[derive(Drop)]
pub struct Printed {
    /// The lines.
    pub lines: String,
    /// Whether a journal was not written, since its file failed.
    pub unsaved: bool,
    /// Whether a line was refused: its refusal stands among the lines. Deliveries that an `all` tries, and that are
    /// refused, print nothing and do not count, unless memory ran out.
    pub refused: bool,
    /// The lines that were refused, in their order, each with the refusal that it printed.
    pub faults: Vec<RefusedLine>,
}

/// Runs a script, and answers what it prints.
///
/// Refused are 45 BadFraction and then 49 BadFounders, by which the script ends before any event, and 99 OutOfMemory.
/// Each event is one step of the cluster; a refused one prints its refusal, and the script goes on. So does a script
/// with a journal whose file fails. It is told which lines were refused. After each line it is told how many of all are
/// done.
pub fn simulate<F: Files>(alloc: Global, script: Script, files: &mut F) -> Result<Printed, Refusal>
    ensures printed { IfOk result (λ p. Simulates F.write_gives script files.old (string_bytes p.lines) p.unsaved p.refused files.new) }
    ensures faults { IfOk result (λ p. TellsFaults F.write_gives script files.old (string_bytes p.lines) p.unsaved p.refused p.faults.items files.new) }
    ensures refused { IfErr result (IsSimulationFault script.founding) }
    ensures unbegun { IfErr result (λ r. r ≢ Refusal.OutOfMemory → files.new ≡ files.old) }
{
    let Script { founding, lines } = script;
    let mut simulation = Simulation::new(alloc, &founding)?;
    let all = lines.len();
    let mut done: usize = 0;
    for line in lines {
        simulation.go_on();
        simulation.perform(line, files)?;
        done = done.saturating_add(1);
        files.tell(done, all);
    }
    simulation.cluster.answers_are_true();
    simulation.cluster.books_are_replays();
    let Simulation {
        unsaved,
        faults,
        lines,
        ..
    } = simulation;
    Ok(Printed {
        lines,
        unsaved,
        refused: !faults.is_empty(),
        faults,
    })
}

/// The ids of so many founders, counted from 1: 257 of them at most, which is one more than a cluster takes.
fn founders(alloc: Global, count: u64) -> Result<Vec<u64>, AllocError>
    ensures { IfOk result (λ ids. ids.items ≡ first_ids (min count 257)) }
{
    let mut ids = Vec::new(alloc);
    for known in 0..count.min(257) {
        ids.push(known + 1)?;
    }
    Ok(ids)
}

/// Puts an id among ids that rise. At Err they are as they were.
fn put_id(ids: &mut Vec<u64>, id: u64) -> Result<(), AllocError>
    requires { Rises ids.old.items }
    ensures put { OnOk result (ids.new.items ≡ with_id id ids.old.items) }
    ensures same { OnErr result (ids.new.items ≡ ids.old.items) }
    ensures rises { Rises ids.new.items }
{
    match ids.as_slice().binary_search(&id) {
        Ok(_) => Ok(()),
        Err(place) => {
            ids.insert(place, id)?;
            Ok(())
        }
    }
}

impl Simulation {
    ghost use Rattle.std.specs.Option.{IsSome};
    ghost use Rattle.std.specs.FinSet as set;
    ghost use Rattle.q_history.specs.Clusters.{live_at};
    ghost use Rattle.q_history.specs.Calls.{Takes};
    ghost use Rattle.q_sim.specs.Simulates.{Acts, Begins, Calls, Does, Registers, Saves, Spreads, Tells, at_next_line, joined, noted, or_refused, refusing};
    ghost use Rattle.q_sim.specs.Awaited.{Attempts, IsSpread};
    ghost use Rattle.q_sim.specs.Longer.{RefusesLonger};
    ghost use Rattle.q_told.specs.Printing.{printed};
    ghost use Rattle.q_told.specs.Refusal.{refusal_line};
    ghost use Rattle.q_sim.specs.Seen.{Prints, PrintsOver, seen};

    /// The cluster of the founders; nothing is delivered or printed.
    fn new(alloc: Global, founding: &Founding) -> Result<Simulation, Refusal>
        ensures begun { IfOk result (λ s. Begins founding.now (seen s) × (string_bytes s.lines ≡ [])) }
        ensures refused { IfErr result (IsSimulationFault founding.now) }
    {
        let config = Config::new(founding.beta, founding.gamma)?;
        let nodes = founders(alloc, founding.count)?;
        let cluster = Cluster::new(alloc, config, nodes.as_slice())?;
        Ok(Simulation {
            alloc,
            cluster,
            nodes,
            delivered: Delivered::new(alloc),
            awaited_from: 0,
            unsaved: false,
            line: 1,
            faults: Vec::new(alloc),
            lines: String::new(alloc),
        })
    }

    /// Goes on to the next line.
    fn go_on(&mut self)
        requires { self.old.line + 1 < 2 ^ 64 }
        ensures next { seen self.new ≡ at_next_line (seen self.old) }
        ensures silent { self.new.lines ≡ self.old.lines }
    {
        self.line += 1;
    }

    /// Runs a line.
    fn perform<F: Files>(&mut self, line: ScriptLine, files: &mut F) -> Result<(), AllocError>
        ensures { OnOk result (PrintsOver (Does F.write_gives line) self.old files.old self.new files.new) }
    {
        match event_of(&line) {
            Some(event) => self.step(&event),
            None => self.perform_other(line, files),
        }
    }

    /// Runs a line that is not an event and nothing else.
    fn perform_other<F: Files>(&mut self, line: ScriptLine, files: &mut F) -> Result<(), AllocError>
        requires { event_of line ≡ None }
        ensures { OnOk result (PrintsOver (Does F.write_gives line) self.old files.old self.new files.new) }
    {
        match line {
            ScriptLine::Call(call) => self.perform_call(call),
            ScriptLine::All { limit } => self.deliver_all(limit),
            ScriptLine::Pairs => self.tell_pairs(),
            ScriptLine::Journal { node, file } => self.save(node, file.as_str(), files),
            _ => unreachable!(),
        }
    }

    /// Runs a line that calls a node, and is not an event and nothing else.
    fn perform_call(&mut self, line: CallLine) -> Result<(), AllocError>
        requires { event_of (ScriptLine.Call line) ≡ None }
        ensures { OnOk result (Prints (Calls line) self.old self.new) }
    {
        match line {
            CallLine::Program { node, code } => self.register(node, code.as_slice()),
            CallLine::Store { node, value } => self.store(node, value.as_slice()),
            CallLine::Ask { .. } => unreachable!(),
        }
    }

    /// Registers a program of these bytes at a node. It is decoded, verified and checked before the node is looked for.
    fn register(&mut self, node: u64, code: &[u8]) -> Result<(), AllocError>
        ensures { OnOk result (Prints (Registers node code.now) self.old self.new) }
    {
        match certified_code(self.alloc, code) {
            Ok(program) => self.call(node, Call::Register(program)),
            Err(refusal) => self.refuse(&refusal),
        }
    }

    /// A node takes a call.
    fn call(&mut self, node: u64, call: Call) -> Result<(), AllocError>
        ensures { OnOk result (Prints (Acts (ClusterEvent.Call node call)) self.old self.new) }
    {
        self.step(&called(node, call))
    }

    /// Begins to store a value of these bytes at a node. No event has a value of more than 112: what the cluster would
    /// refuse such a store with is printed.
    fn store(&mut self, node: u64, bytes: &[u8]) -> Result<(), AllocError>
        ensures { OnOk result (Prints (Acts (ClusterEvent.Call node (Call.Store bytes.now))) self.old self.new) }
    {
        match Value::new(bytes) {
            Ok(value) => self.call(node, Call::Store(value)),
            Err(_) => {
                let fault = self.longer_store(node);
                self.refuse(&Refusal::Cluster(fault))
            }
        }
    }

    /// Why the cluster refuses to store more bytes than a value has at this node.
    fn longer_store(&self, node: u64) -> ClusterFault
        ensures { RefusesLonger self.now.cluster node result }
    {
        let Some(book) = self.cluster.book(node) else {
            return ClusterFault::NoSuchNode;
        };
        if !self.cluster.is_live(node) {
            return ClusterFault::NoSuchNode;
        }
        if !book.node().has_joined() {
            return ClusterFault::NotJoined;
        }
        ClusterFault::BadValue
    }

    /// Takes one event, and prints what it tells or its refusal. A node that came, a delivery that is accepted and a
    /// refusal are noted.
    fn step(&mut self, event: &ClusterEvent) -> Result<(), AllocError>
        ensures { OnOk result (Prints (Acts event.now) self.old self.new) }
    {
        let answer = self.take(event);
        self.note(event, &answer)?;
        self.print(&answer)
    }

    /// Takes one event. A node that came awaits every message.
    fn take(&mut self, event: &ClusterEvent) -> Result<ClusterStep, ClusterFault>
        ensures takes { Takes self.old.cluster event.now self.new.cluster result }
        ensures rest { seen self.new ≡ record (seen self.old) { cluster = self.new.cluster } }
        ensures silent { self.new.lines ≡ self.old.lines }
        ensures awaited { IfOk result (λ _. (id : ℕ) → event.now ≡ ClusterEvent.Enter id → self.new.awaited_from ≡ 0) }
    {
        let stepped = self.cluster.step(event)?;
        if let ClusterEvent::Enter(_) = event {
            self.awaited_from = 0;
        }
        Ok(stepped)
    }

    /// Notes a node that came, and a delivery that was accepted.
    fn note(
        &mut self,
        event: &ClusterEvent,
        answer: &Result<ClusterStep, ClusterFault>,
    ) -> Result<(), AllocError>
        requires awaited { IfOk answer.now (λ _. (id : ℕ) → event.now ≡ ClusterEvent.Enter id → self.old.awaited_from ≡ 0) }
        ensures noted { OnOk result (seen self.new ≡ record (seen self.old) { nodes = joined event.now answer.now self.old.nodes.items; delivered = noted event.now answer.now self.old.delivered }) }
        ensures silent { OnOk result (self.new.lines ≡ self.old.lines) }
    {
        match (answer, event) {
            (Ok(_), ClusterEvent::Deliver { message, node }) => {
                self.delivered.insert(*message, *node)?;
                Ok(())
            }
            (Ok(_), ClusterEvent::Enter(node)) => {
                put_id(&mut self.nodes, *node)?;
                Ok(())
            }
            _ => Ok(()),
        }
    }

    /// Delivers what was not delivered, the least message first and each to the least node first, so many times at
    /// most. Where memory is refused for a delivery, that is printed, and no more is delivered.
    fn deliver_all(&mut self, limit: u64) -> Result<(), AllocError>
        ensures { OnOk result (Prints (Spreads limit) self.old self.new) }
    {
        let mut left = limit;
        while self.awaited_from < self.cluster.sent() {
            let message = self.awaited_from;
            left = match self.spread(message, left)? {
                Spread::Whole(left) => left,
                Spread::LimitReached => return Ok(()),
                Spread::OutOfMemory => return self.refuse(&Refusal::OutOfMemory),
            };
            self.awaited_from = message + 1;
        }
        Ok(())
    }

    /// Delivers a message to each live node that it was not delivered to, the least node first, so many times at most.
    /// A refused delivery counts as one, but for want of memory.
    fn spread(&mut self, message: usize, limit: u64) -> Result<Spread, AllocError>
        requires sent { message < length self.old.cluster.past.sent }
        requires passed { AwaitsFrom message (seen self.old) }
        ensures spread { IfOk result (λ how. IsSpread message limit (seen self.old) how (seen self.new)) }
        ensures silent { OnOk result (self.new.lines ≡ self.old.lines) }
    {
        let mut left = limit;
        for place in 0..self.nodes.len() {
            let node = self.nodes[place];
            if self.awaits(message, node) {
                if left == 0 {
                    return Ok(Spread::LimitReached);
                }
                if !self.attempt(message, node)? {
                    return Ok(Spread::OutOfMemory);
                }
                left -= 1;
            }
        }
        Ok(Spread::Whole(left))
    }

    /// Delivers a message to a node, and notes that it was tried. It is not, and nothing is done, where memory is
    /// refused for it.
    fn attempt(&mut self, message: usize, node: u64) -> Result<bool, AllocError>
        ensures attempts { IfOk result (λ tried. Attempts (seen self.old) message node tried (seen self.new)) }
        ensures silent { OnOk result (self.new.lines ≡ self.old.lines) }
    {
        let answer = self.cluster.step(&ClusterEvent::Deliver { message, node });
        if let Err(Reason::OutOfMemory) = answer {
            return Ok(false);
        }
        self.delivered.insert(message, node)?;
        Ok(true)
    }

    /// Whether the node is live and the message was not delivered to it.
    fn awaits(&self, message: usize, node: u64) -> bool
        ensures { IsTrue result ↔ (IsSome (live_at self.now.cluster node) × IsFalse (set.contains self.now.delivered (message, node))) }
    {
        self.cluster.is_live(node) && !self.delivered.contains(message, node)
    }

    /// Tells of each pair of a store and a later collect.
    fn tell_pairs(&mut self) -> Result<(), AllocError>
        ensures { OnOk result (Prints Tells self.old self.new) }
    {
        print_pairs(&mut self.lines, self.cluster.ops())
    }

    /// Writes the journal of a node's book under this name, and prints how many events it has. A node that never was,
    /// or that the file fails, is printed as a refusal.
    fn save<F: Files>(&mut self, node: u64, name: &str, files: &mut F) -> Result<(), AllocError>
        ensures { OnOk result (PrintsOver (Saves F.write_gives node name.now) self.old files.old self.new files.new) }
    {
        let Some(book) = self.cluster.book(node) else {
            let unknown = ClusterFault::NoSuchNode;
            return self.refuse(&Refusal::Cluster(unknown));
        };
        let events = book.events();
        let bytes = journal_bytes(self.alloc, book)?;
        match files.write(name, bytes.as_slice()) {
            Ok(()) => writeln!(self.lines, "journal {events} events"),
            Err(FileFault::Failed) => {
                self.unsaved = true;
                self.refuse(&Refusal::FileFailed)
            }
            Err(FileFault::OutOfMemory) => Err(AllocError),
        }
    }

    /// Prints a refusal, and notes that the line was refused.
    fn refuse(&mut self, refusal: &Refusal) -> Result<(), AllocError>
        ensures noted { OnOk result (seen self.new ≡ refusing refusal.now (seen self.old)) }
        ensures line { OnOk result (string_bytes self.new.lines ≡ string_bytes self.old.lines ++ refusal_line refusal.now) }
    {
        let line = self.line;
        let refusal = *refusal;
        self.faults.push(RefusedLine { line, refusal })?;
        writeln!(self.lines, "{refusal}")
    }

    /// Prints what an event answered: what it tells and its messages, or its refusal, which is noted.
    fn print(&mut self, answer: &Result<ClusterStep, ClusterFault>) -> Result<(), AllocError>
        ensures noted { OnOk result (seen self.new ≡ record (seen self.old) { faults = or_refused self.old.line answer.now self.old.faults.items }) }
        ensures lines { OnOk result (string_bytes self.new.lines ≡ string_bytes self.old.lines ++ printed self.old.cluster answer.now) }
    {
        match answer {
            Ok(stepped) => {
                print_told(&mut self.lines, &stepped.told)?;
                print_messages(&mut self.lines, &self.cluster, stepped.sent)
            }
            Err(fault) => self.refuse(&Refusal::Cluster(*fault)),
        }
    }
}

/// The event that a line of a script is, and nothing else: not of `program`, whose bytes are checked first, and not of
/// `store`, which may have more bytes than an event has.
pub fn event_of(line: &ScriptLine) -> Option<ClusterEvent>
    ensures { result ≡ event_of line.now }
{
    match line {
        ScriptLine::Call(line) => event_of_call(line),
        ScriptLine::Deliver { message, node } => Some(ClusterEvent::Deliver {
            message: *message as usize,
            node: *node,
        }),
        ScriptLine::Hand { node } => Some(called(*node, Call::HandOut)),
        ScriptLine::Run { job } => Some(ClusterEvent::Finish(*job as usize)),
        ScriptLine::Enter { node } => Some(ClusterEvent::Enter(*node)),
        ScriptLine::Leave { node } => Some(called(*node, Call::Leave)),
        ScriptLine::Crash { node } => Some(ClusterEvent::Crash(*node)),
        ScriptLine::All { .. } | ScriptLine::Pairs | ScriptLine::Journal { .. } => None,
    }
}

/// The same of a line that calls a node.
fn event_of_call(line: &CallLine) -> Option<ClusterEvent>
    ensures { result ≡ event_of (ScriptLine.Call line.now) }
{
    match line {
        CallLine::Ask {
            node,
            program,
            start,
        } => {
            let program = ProgramId::of_number(*program);
            let start = *start;
            Some(called(*node, Call::Ask { program, start }))
        }
        CallLine::Program { .. } | CallLine::Store { .. } => None,
    }
}

/// The node takes the call.
fn called(node: u64, call: Call) -> ClusterEvent
    ensures { result ≡ ClusterEvent.Call node call }
{
    ClusterEvent::Call { node, call }
}
