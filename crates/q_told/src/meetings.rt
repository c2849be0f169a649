//! The lines of stores and collects that met or did not.

ghost use Rattle.std.specs.Prelude.{◌≡◌, [], ◌∷◌, ◌++◌, OnOk, string_bytes};
ghost use Rattle.q_told.specs.Printing as printing;
ghost use Rattle.q_told.specs.Printing.{AddsPairs, pair_line, pairs_by, pairs_with, pairs_of, ended_pairs_of};
ghost use Rattle.q_told.specs.Meetings.{is_told};

use sc_node::Session;
use sc_world::{Op, meets};
use std::alloc::AllocError;

/// Which pairs of an ended store and an ended collect are printed.
#[derive(Clone, Copy)]
pub enum Pairs {
    /// Those whose collect began after the store's end.
    Later,
    /// All, whichever did first.
    Ended,
}

fn is_store(session: &Session) -> bool
    ensures { result ≡ printing.is_store session.now }
{
    matches!(session, Session::Store { .. })
}

fn is_over(end: Option<usize>, place: usize) -> bool
    ensures { result ≡ printing.is_over end place }
{
    match end {
        Some(end) => end < place,
        None => false,
    }
}

/// Whether these are an ended store and an ended collect that began after the store's end.
fn is_pair(store: &Op, collect: &Op) -> bool
    ensures { result ≡ printing.is_pair store.now collect.now }
{
    is_store(&store.session)
        && !is_store(&collect.session)
        && collect.end.is_some()
        && is_over(store.end, collect.begin)
}

/// Whether these are a store and a collect that have ended.
fn is_ended_pair(store: &Op, collect: &Op) -> bool
    ensures { result ≡ printing.is_ended_pair store.now collect.now }
{
    is_store(&store.session)
        && store.end.is_some()
        && !is_store(&collect.session)
        && collect.end.is_some()
}

/// Whether this pair is printed.
fn is_told(pairs: Pairs, store: &Op, collect: &Op) -> bool
    ensures { result ≡ is_told pairs store.now collect.now }
{
    match pairs {
        Pairs::Later => is_pair(store, collect),
        Pairs::Ended => is_ended_pair(store, collect),
    }
}

/// Prints that a store and a collect meet at this node, or that they do not meet.
fn print_meeting(
    lines: &mut String,
    store: &Op,
    collect: &Op,
    least: Option<u64>,
) -> Result<(), AllocError>
    ensures { OnOk result (string_bytes lines.new ≡ string_bytes lines.old ++ pair_line store.now collect.now least) }
{
    let node = store.node;
    let tag = store.tag;
    let asking = collect.node;
    let asked = collect.tag;
    match least {
        Some(id) => writeln!(
            lines,
            "store {node} {tag} collect {asking} {asked} meet {id}"
        ),
        None => writeln!(lines, "store {node} {tag} collect {asking} {asked} apart"),
    }
}

/// Prints the least node where a store and a collect meet, or that there is none.
fn print_pair(lines: &mut String, store: &Op, collect: &Op) -> Result<(), AllocError>
    ensures { OnOk result (AddsPairs ((store.now, collect.now) ∷ []) (string_bytes lines.old) (string_bytes lines.new)) }
{
    print_meeting(lines, store, collect, meets(store, collect))
}

/// Prints these pairs of a store.
fn print_pairs_with(
    lines: &mut String,
    pairs: Pairs,
    store: &Op,
    ops: &[Op],
) -> Result<(), AllocError>
    ensures { OnOk result (AddsPairs (pairs_with (is_told pairs) store.now ops.now) (string_bytes lines.old) (string_bytes lines.new)) }
{
    for collect in ops {
        if is_told(pairs, store, collect) {
            print_pair(lines, store, collect)?;
        }
    }
    Ok(())
}

/// Prints these pairs, by the order in which the stores and then the collects began.
fn print_pairs_by(lines: &mut String, pairs: Pairs, ops: &[Op]) -> Result<(), AllocError>
    ensures { OnOk result (AddsPairs (pairs_by (is_told pairs) ops.now) (string_bytes lines.old) (string_bytes lines.new)) }
{
    for store in ops {
        print_pairs_with(lines, pairs, store, ops)?;
    }
    Ok(())
}

/// Prints each pair of an ended store and an ended collect that began after the store's end, by the order in which the
/// stores and then the collects began: where they meet, or that they do not.
pub fn print_pairs(lines: &mut String, ops: &[Op]) -> Result<(), AllocError>
    ensures { OnOk result (AddsPairs (pairs_of ops.now) (string_bytes lines.old) (string_bytes lines.new)) }
{
    print_pairs_by(lines, Pairs::Later, ops)
}

/// Prints each pair of a store and a collect that have ended, whichever did first, by the order in which the stores and
/// then the collects began: where they meet, or that they do not.
pub fn print_ended_pairs(lines: &mut String, ops: &[Op]) -> Result<(), AllocError>
    ensures { OnOk result (AddsPairs (ended_pairs_of ops.now) (string_bytes lines.old) (string_bytes lines.new)) }
{
    print_pairs_by(lines, Pairs::Ended, ops)
}
