//! What lines tell of nodes whose books make no cluster of the script.

ghost use Rattle.std.specs.Prelude.{◌≡◌, length, IfOk, Some};
ghost use Rattle.std.specs.List.{AllZip};
ghost use Rattle.q_nodes.specs.Books.{AreBooksOf, own_book, recorded};
ghost use Rattle.q_nodes.specs.Lines.{ComesTo, IsNode, IsToldApart};

use crate::outcome::Outcome;
use crate::report::Report;
use q_book::Book;
use q_script::CallLine;
use q_session::Ran;
use std::alloc::{AllocError, Global};

/// The book of this node.
fn own_book(books: &[Book], node: u64) -> &Book
    requires { IsNode (length books.now) node }
    ensures { Some result.now ≡ own_book books.now node }
{
    &books[(node - 1) as usize]
}

/// The answer of a query, if the book has recorded one.
fn answer(book: &Book, query: usize) -> Option<Ran>
    ensures { result ≡ recorded book.now query }
{
    match book.answer(query) {
        Ok(answer) => answer,
        Err(_) => None,
    }
}

/// What a line tells whose call came to this.
fn tell_line(books: &[Book], nodes: u64, line: &CallLine, outcome: Outcome) -> Report
    requires books { AreBooksOf nodes books.now }
    requires came { ComesTo nodes line.now outcome }
    ensures { IsToldApart nodes books.now line.now result }
{
    let node = line.node();
    match outcome {
        Outcome::Refused(fault) => Report::Refused(fault),
        Outcome::Registered(id) => Report::Registered(id),
        Outcome::Stored(tag) => Report::Stored {
            tag,
            ended: !own_book(books, node).is_open(tag),
        },
        Outcome::Asked(query) => Report::Asked {
            node,
            query,
            answer: answer(own_book(books, node), query),
        },
    }
}

/// What the lines tell whose calls came to these, in turn. The one error is that memory ran out.
pub(crate) fn tell_apart(
    alloc: Global,
    books: &[Book],
    nodes: u64,
    lines: &[CallLine],
    outcomes: &[Outcome],
) -> Result<Vec<Report>, AllocError>
    requires books { AreBooksOf nodes books.now }
    requires came { AllZip (ComesTo nodes) lines.now outcomes.now }
    ensures { IfOk result (λ reports. AllZip (IsToldApart nodes books.now) lines.now reports.items) }
{
    let mut reports = Vec::new(alloc);
    for (place, line) in lines.iter().enumerate() {
        // There are as many as lines.
        let Some(outcome) = outcomes.get(place) else {
            return Err(AllocError);
        };
        reports.push(tell_line(books, nodes, line, *outcome))?;
    }
    Ok(reports)
}
