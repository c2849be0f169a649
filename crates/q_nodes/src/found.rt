//! What the calls of lines came to, looked up in the gathered cluster.

ghost use Rattle.std.specs.Prelude.{◌≡◌, ◌&&◌, ℕ, nat_eq, is_some, option_map, if◌then◌else◌, Some, None, IfOk, MatchBool, MatchOption};
ghost use Rattle.std.specs.List.{AllZip};
ghost use Rattle.indexmap.specs.IndexMap.{get};
ghost use Rattle.bq_insn.specs.Slots.{spelling};
ghost use Rattle.sc_operations.specs.declared.session.OperationKind.TheVariants as kind;
ghost use Rattle.sc_operations.specs.Sessions.{kind_of};
ghost use Rattle.sc_view.specs.declared.view.Stored.{Stored as Entry};
ghost use Rattle.sc_world.specs.declared.op.Op.{Op as Record};
ghost use Rattle.q_session.specs.declared.query.Query.{Query as QueryValue};
ghost use Rattle.q_desk.specs.Desks.{answer_in};
ghost use Rattle.q_nodes.specs.Found.{AreFiled, Finds, FindsAll};
ghost use Rattle.q_nodes.specs.Lines.{ComesTo, IsProgramOf, IsQueryOf, IsStoreOf};
ghost use Rattle.q_nodes.specs.declared.outcome.Outcome.TheVariants as outcome;
ghost use Rattle.q_nodes.specs.declared.report.Report.TheVariants as report;

use crate::ops_by_tag::OpsByTag;
use crate::outcome::Outcome;
use crate::report::Report;
use bq_insn::encode;
use q_cluster::Cluster;
use q_script::CallLine;
use q_session::{Phase, Ran};
use q_table::{Program, ProgramId};
use sc_node::OperationKind;
use sc_world::Op;
use std::alloc::{AllocError, Global};

/// Whether these bytes spell the program.
fn is_spelled(alloc: Global, program: &Program, code: &[u8]) -> Result<bool, AllocError>
    ensures { IfOk result (λ is. MatchBool is (code.now ≡ spelling program.now.text) (code.now ≡ spelling program.now.text → ⊥)) }
{
    let bytes = encode(alloc, program.certified().text())?;
    Ok(bytes.as_slice() == code)
}

/// Whether the program with this id at the node is the one that these bytes spell.
fn has_program(
    alloc: Global,
    cluster: &Cluster,
    node: u64,
    id: ProgramId,
    code: &[u8],
) -> Result<bool, AllocError>
    ensures { IfOk result (λ has. MatchBool has (IsProgramOf cluster.now node id code.now) (IsProgramOf cluster.now node id code.now → ⊥)) }
{
    let Some(book) = cluster.book(node) else {
        return Ok(false);
    };
    match book.desk().program(id) {
        Some(program) => is_spelled(alloc, program, code),
        None => Ok(false),
    }
}

/// Whether the operation is a store of these bytes.
fn stores(op: &Op, bytes: &[u8]) -> bool
    ensures { MatchBool result
        ((e : Entry) × (kind_of op.now.session ≡ kind.Store e) × (e.value ≡ bytes.now))
        ((e : Entry) → kind_of op.now.session ≡ kind.Store e → e.value ≡ bytes.now → ⊥) }
{
    match op.session.kind() {
        OperationKind::Store(stored) => stored.value().bytes() == bytes,
        OperationKind::Collect => false,
    }
}

/// The store of these bytes by the node under this tag.
fn store_of<'a>(
    cluster: &'a Cluster,
    places: &OpsByTag,
    node: u64,
    tag: u64,
    bytes: &[u8],
) -> Option<&'a Op>
    requires { AreFiled cluster.now.past.ops (get (λ a b. nat_eq a.0 b.0 && nat_eq a.1 b.1) places.now.by_tag) }
    ensures { MatchOption result
        ((o : Record) → IsStoreOf cluster.now node tag bytes.now o → ⊥)
        (λ op. IsStoreOf cluster.now node tag bytes.now op.now) }
{
    let Some(op) = places.find(cluster.ops(), node, tag) else {
        return None;
    };
    if stores(op, bytes) { Some(op) } else { None }
}

/// The answer that the phase has, if there is one.
fn answer_in(phase: &Phase) -> Option<Ran>
    ensures { result ≡ answer_in phase.now }
{
    match phase {
        Phase::Answered(_, ran) => Some(*ran),
        _ => None,
    }
}

/// The phase of the query of this number at the node, if it asks for this program from this start.
fn query_of<'a>(
    cluster: &'a Cluster,
    node: u64,
    query: usize,
    program: ProgramId,
    start: u64,
) -> Option<&'a Phase>
    ensures { MatchOption result
        ((q : QueryValue) → IsQueryOf cluster.now node query program start q → ⊥)
        (λ phase. (q : QueryValue) × IsQueryOf cluster.now node query program start q × (phase.now ≡ q.phase)) }
{
    let Some(book) = cluster.book(node) else {
        return None;
    };
    let Some(asked) = book.desk().queries().get(query) else {
        return None;
    };
    if asked.program == program && asked.start == start {
        Some(&asked.phase)
    } else {
        None
    }
}

/// What a line tells by whether the cluster has its program.
fn registered(has: bool, id: ProgramId) -> Option<Report>
    ensures { result ≡ (if has then Some (report.Registered id) else None) }
{
    if has {
        Some(Report::Registered(id))
    } else {
        None
    }
}

/// What a line tells that was answered with this program.
fn find_program(
    alloc: Global,
    cluster: &Cluster,
    line: &CallLine,
    id: ProgramId,
) -> Result<Option<Report>, AllocError>
    ensures { (nodes : ℕ) → ComesTo nodes line.now (outcome.Registered id) → IfOk result (Finds nodes cluster.now line.now (outcome.Registered id)) }
{
    match line {
        CallLine::Program { node, code } => {
            let has = has_program(alloc, cluster, *node, id, code.as_slice())?;
            Ok(registered(has, id))
        }
        CallLine::Store { .. } | CallLine::Ask { .. } => Ok(None),
    }
}

/// What a line tells that was answered with this tag.
fn find_store(cluster: &Cluster, places: &OpsByTag, line: &CallLine, tag: u64) -> Option<Report>
    requires { AreFiled cluster.now.past.ops (get (λ a b. nat_eq a.0 b.0 && nat_eq a.1 b.1) places.now.by_tag) }
    ensures { (nodes : ℕ) → ComesTo nodes line.now (outcome.Stored tag) → Finds nodes cluster.now line.now (outcome.Stored tag) result }
{
    match line {
        CallLine::Store { node, value } => {
            match store_of(cluster, places, *node, tag, value.as_slice()) {
                Some(op) => Some(Report::Stored {
                    tag,
                    ended: op.end.is_some(),
                }),
                None => None,
            }
        }
        CallLine::Program { .. } | CallLine::Ask { .. } => None,
    }
}

/// What a line tells that was answered with the query of this number.
fn find_query(cluster: &Cluster, line: &CallLine, query: usize) -> Option<Report>
    ensures { (nodes : ℕ) → ComesTo nodes line.now (outcome.Asked query) → Finds nodes cluster.now line.now (outcome.Asked query) result }
{
    match line {
        CallLine::Ask {
            node,
            program,
            start,
        } => match query_of(
            cluster,
            *node,
            query,
            ProgramId::of_number(*program),
            *start,
        ) {
            Some(phase) => Some(Report::Asked {
                node: *node,
                query,
                answer: answer_in(phase),
            }),
            None => None,
        },
        CallLine::Program { .. } | CallLine::Store { .. } => None,
    }
}

/// What a line tells whose call came to this; none where the cluster lacks that.
fn find_line(
    alloc: Global,
    cluster: &Cluster,
    places: &OpsByTag,
    line: &CallLine,
    outcome: Outcome,
) -> Result<Option<Report>, AllocError>
    requires { AreFiled cluster.now.past.ops (get (λ a b. nat_eq a.0 b.0 && nat_eq a.1 b.1) places.now.by_tag) }
    ensures { (nodes : ℕ) → ComesTo nodes line.now outcome → IfOk result (Finds nodes cluster.now line.now outcome) }
{
    match outcome {
        Outcome::Refused(fault) => Ok(Some(Report::Refused(fault))),
        Outcome::Registered(id) => find_program(alloc, cluster, line, id),
        Outcome::Stored(tag) => Ok(find_store(cluster, places, line, tag)),
        Outcome::Asked(query) => Ok(find_query(cluster, line, query)),
    }
}

/// What the lines tell whose calls came to these, in turn; none where the cluster lacks what one came to. The one error
/// is that memory ran out.
pub(crate) fn find_all(
    alloc: Global,
    cluster: &Cluster,
    nodes: u64,
    lines: &[CallLine],
    outcomes: &[Outcome],
) -> Result<Option<Vec<Report>>, AllocError>
    requires { AllZip (ComesTo nodes) lines.now outcomes.now }
    ensures { IfOk result (λ found. FindsAll nodes cluster.now lines.now (option_map (λ reports. reports.items) found)) }
{
    let places = OpsByTag::of(alloc, cluster.ops())?;
    let mut reports = Vec::new(alloc);
    for (place, line) in lines.iter().enumerate() {
        // There are as many as lines.
        let Some(outcome) = outcomes.get(place) else {
            return Err(AllocError);
        };
        match find_line(alloc, cluster, &places, line, *outcome)? {
            Some(report) => reports.push(report)?,
            None => return Ok(None),
        }
    }
    Ok(Some(reports))
}
