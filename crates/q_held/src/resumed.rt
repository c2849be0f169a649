//! What a node that comes back asks again, and which jobs it offers again.

ghost use Rattle.std.specs.Prelude.{◌≡◌, ◌++◌, ◌∷◌, [], Some, IfOk, OnOk, if◌then◌else◌, map};
ghost use Rattle.std.specs.List.{filter_map};
ghost use Rattle.sc_node.specs.Nodes.{message_from};
ghost use Rattle.q_desk.specs.Desks.{running_job};
ghost use Rattle.q_board.specs.BoardId.{board_id};
ghost use Rattle.q_held.specs.Resumed.{OffersFirst, OffersOrIsFull, asked_in, asked_under, membership_asked, operations_asked, running_jobs, still_asked};

use q_board::{AskerSeat, Board};
use q_book::Book;
use sc_msg::{Body, Message, Store};
use sc_node::{Node, Session, StoreBack};
use std::alloc::{AllocError, Global};

/// The message that stores this view under this tag.
fn store_of(tag: u64, back: &StoreBack) -> Result<Body, AllocError>
    ensures { IfOk result (λ body. body ≡ Body.Store (record { tag = tag; view = back.now.view })) }
{
    let view = back.view.clone()?;
    Ok(Body::Store(Store { tag, view }))
}

/// What the open phase of an operation with this tag asks.
fn asked_in(tag: u64, session: &Session) -> Result<Body, AllocError>
    ensures { IfOk result (λ body. asked_in tag (Some session.now) ≡ body ∷ []) }
{
    match session {
        Session::Store { back, .. } => store_of(tag, back),
        Session::Querying(_) => Ok(Body::CollectQuery { tag }),
        Session::StoringBack { back, .. } => store_of(tag, back),
    }
}

/// Appends what the operation with this tag asks, if it is open.
fn push_asked(asked: &mut Vec<Message>, id: u64, node: &Node, tag: u64) -> Result<(), AllocError>
    ensures { OnOk result (asked.new.items ≡ asked.old.items ++ map (message_from id) (asked_under node.now tag)) }
{
    let Some(session) = node.session(tag) else {
        return Ok(());
    };
    let body = asked_in(tag, session)?;
    asked.push(Message { from: id, body })?;
    Ok(())
}

/// Appends what all open operations ask, by rising tags.
fn push_operations(asked: &mut Vec<Message>, id: u64, node: &Node) -> Result<(), AllocError>
    ensures { OnOk result (asked.new.items ≡ asked.old.items ++ map (message_from id) (operations_asked node.now)) }
{
    for tag in 0..node.operations() {
        push_asked(asked, id, node, tag)?;
    }
    Ok(())
}

/// What a node that entered says of its membership.
fn membership_of(node: &Node) -> Body
    ensures { result ≡ (if node.now.joined then Body.Join else Body.Enter) }
{
    if node.has_joined() {
        Body::Join
    } else {
        Body::Enter
    }
}

/// Appends what a node that entered says of its membership. A founder says nothing of it.
fn push_membership(asked: &mut Vec<Message>, book: &Book) -> Result<(), AllocError>
    ensures { OnOk result (asked.new.items ≡ asked.old.items ++ map (message_from book.now.id) (membership_asked book.now.founders book.now.node)) }
{
    if book.founders().is_some() {
        return Ok(());
    }
    let body = membership_of(book.node());
    asked.push(Message {
        from: book.id(),
        body,
    })?;
    Ok(())
}

/// The messages whose answers a node with this book still waits for.
pub(crate) fn still_asked(alloc: Global, book: &Book) -> Result<Vec<Message>, AllocError>
    ensures { IfOk result (λ asked. asked.items ≡ still_asked book.now) }
{
    let id = book.id();
    let mut asked = Vec::new(alloc);
    if book.node().is_gone() {
        asked.push(Message {
            from: id,
            body: Body::Leave,
        })?;
        return Ok(asked);
    }
    push_membership(&mut asked, book)?;
    push_operations(&mut asked, id, book.node())?;
    Ok(asked)
}

/// Offers the job of the query with this number, if it runs. Whether the row had room for it.
fn offer_next(
    board: &Board,
    asker: &mut AskerSeat,
    book: &Book,
    query: usize,
) -> Result<bool, AllocError>
    requires { asker.old.table ≡ board_id board.now }
    ensures offered { IfOk result (λ fits. OffersOrIsFull (filter_map (running_job book.now.desk book.now.id) (query ∷ [])) fits asker.old asker.new) }
    ensures table { asker.new.table ≡ asker.old.table }
{
    let Some(job) = book.running_job(query)? else {
        return Ok(true);
    };
    match board.offer(asker, job) {
        Ok(_) => Ok(true),
        Err(_) => Ok(false),
    }
}

/// Offers the jobs of the queries that run at the board, by rising numbers, as long as the row has room.
pub(crate) fn offer_running(
    board: &Board,
    asker: &mut AskerSeat,
    book: &Book,
) -> Result<(), AllocError>
    requires { asker.old.table ≡ board_id board.now }
    ensures offered { OnOk result (OffersFirst (running_jobs book.now) asker.old asker.new) }
    ensures table { asker.new.table ≡ asker.old.table }
{
    for query in 0..book.desk().queries().len() {
        if !offer_next(board, asker, book, query)? {
            return Ok(());
        }
    }
    Ok(())
}
