//! What explains why journals do not gather, for a person. No contract speaks of it, and that the notes take none
//! changes nothing.

use q_book::Book;
use q_desk::Entry;
use q_gather::GatherFault;
use q_replay::ReplayFault;
use sc_msg::Body;
use std::io::Write;

/// Says of the file with this name why it begins with no journal.
pub(crate) fn note_journal<N: Write>(notes: &mut N, name: &str, fault: ReplayFault) {
    let _ = match fault {
        ReplayFault::Form { event: 0 } => {
            writeln!(
                notes,
                "{name}: It does not begin with the head of a journal."
            )
        }
        ReplayFault::Form { event } => writeln!(
            notes,
            "{name}: Event {event} is whole, and of no form of an event."
        ),
        ReplayFault::Mismatch { event: 0 } => writeln!(
            notes,
            "{name}: No node begins with this head: its fractions or founders are refused."
        ),
        ReplayFault::Mismatch { event } => writeln!(
            notes,
            "{name}: Event {event} does not follow: no node's calls give it there, or its answer is wrong."
        ),
        ReplayFault::OutOfMemory => Ok(()),
    };
}

/// The place of the first book of the node with this id, from a place on.
fn book_of(books: &[Book], id: u64, from: usize) -> Option<usize> {
    for (place, book) in books.iter().enumerate().skip(from) {
        if book.id() == id {
            return Some(place);
        }
    }
    None
}

/// The place of the first book of which a later book is of the same node, and the place of that.
fn twice(books: &[Book]) -> Option<(usize, usize)> {
    for (place, book) in books.iter().enumerate() {
        if let Some(later) = book_of(books, book.id(), place + 1) {
            return Some((place, later));
        }
    }
    None
}

/// The name of the file at this place.
fn name_at<'a>(names: &[&'a str], place: usize) -> &'a str {
    match names.get(place) {
        Some(name) => name,
        None => "",
    }
}

fn note_twice<N: Write>(notes: &mut N, names: &[&str], books: &[Book]) {
    let Some((place, later)) = twice(books) else {
        return;
    };
    let first = name_at(names, place);
    let second = name_at(names, later);
    let _ = writeln!(notes, "{first}, {second}: Both are journals of one node.");
}

/// Whether the books have the same version and the same fractions.
fn is_alike(book: &Book, other: &Book) -> bool {
    book.version() == other.version() && book.config() == other.config()
}

/// The founders that the first head names that names some, and the place of its book.
fn named_founders(books: &[Book]) -> Option<(usize, &[u64])> {
    for (place, book) in books.iter().enumerate() {
        if let Some(founders) = book.founders() {
            return Some((place, founders));
        }
    }
    None
}

/// The place of the first book whose head names other founders than these.
fn other_founders(books: &[Book], founders: &[u64]) -> Option<usize> {
    for (place, book) in books.iter().enumerate() {
        if book.founders().is_some_and(|others| others != founders) {
            return Some(place);
        }
    }
    None
}

/// The first of these founders that has no book.
fn missing_founder(books: &[Book], founders: &[u64]) -> Option<u64> {
    for founder in founders {
        if book_of(books, *founder, 0).is_none() {
            return Some(*founder);
        }
    }
    None
}

/// Says which head names other founders than the first that names some, or of which founder there is no journal.
fn note_founders<N: Write>(notes: &mut N, names: &[&str], books: &[Book]) {
    let Some((place, founders)) = named_founders(books) else {
        let _ = writeln!(notes, "None of these journals is that of a founder.");
        return;
    };
    let first = name_at(names, place);
    if let Some(place) = other_founders(books, founders) {
        let name = name_at(names, place);
        let _ = writeln!(notes, "{name}: It names other founders than {first}.");
    } else if let Some(founder) = missing_founder(books, founders) {
        let _ = writeln!(
            notes,
            "{first}: It names a founder, node {founder}, whose journal is missing."
        );
    }
}

fn note_heads<N: Write>(notes: &mut N, names: &[&str], books: &[Book]) {
    for (place, book) in books.iter().enumerate() {
        if !is_alike(book, &books[0]) {
            let name = name_at(names, place);
            let first = name_at(names, 0);
            let _ = writeln!(
                notes,
                "{name}: It has another version or other fractions than {first}."
            );
            return;
        }
    }
    note_founders(notes, names, books);
}

/// What the book of its sender lacks of a message: no such book is there, or it has not come as far.
#[derive(Clone, Copy)]
enum Lack {
    /// There is no journal of the sender.
    Journal,
    /// There is one, at this place, in which the message is not sent.
    Event(usize),
}

/// Whether a node with this book has not sent this, as far as the book shows that.
fn is_ahead(book: &Book, body: &Body) -> bool {
    let node = book.node();
    match body {
        Body::Store(store) => node.operations() <= store.tag,
        Body::CollectQuery { tag } => node.operations() <= *tag,
        Body::Join => !node.has_joined(),
        Body::Leave => !node.is_gone(),
        _ => false,
    }
}

/// What is lacking of the message of an entry, if something is.
fn lack_of(books: &[Book], entry: &Entry) -> Option<Lack> {
    let Entry::Deliver(message) = entry else {
        return None;
    };
    let Some(place) = book_of(books, message.from, 0) else {
        return Some(Lack::Journal);
    };
    let sender = books.get(place)?;
    if is_ahead(sender, &message.body) {
        return Some(Lack::Event(place));
    }
    None
}

/// The first event of a book whose message nobody sent, counted from 1, with its sender and what is lacking.
fn first_unsent(books: &[Book], book: &Book) -> Option<(usize, u64, Lack)> {
    for (before, entry) in book.journal().iter().enumerate() {
        if let Some(lack) = lack_of(books, entry)
            && let Entry::Deliver(message) = entry
        {
            return Some((before + 1, message.from, lack));
        }
    }
    None
}

/// Says which event of which journal delivers a message that none of these journals sent, as far as that is found.
fn note_unsent<N: Write>(notes: &mut N, names: &[&str], books: &[Book]) {
    for (place, book) in books.iter().enumerate() {
        let Some((event, sender, lack)) = first_unsent(books, book) else {
            continue;
        };
        let name = name_at(names, place);
        let _ = write!(
            notes,
            "{name}: Event {event} delivers a message of node {sender}, "
        );
        let _ = match lack {
            Lack::Journal => writeln!(notes, "whose journal is missing. Name that too."),
            Lack::Event(other) => {
                let other = name_at(names, other);
                writeln!(
                    notes,
                    "which {other} does not send: that file is shorter than the journal was. Copy it again, whole."
                )
            }
        };
        return;
    }
    let _ = writeln!(
        notes,
        "A message was delivered that none of these journals sent: one of them is shorter than it was, or of another run. Copy all journals again, whole, once their nodes have ended."
    );
}

/// Says why the journals of the files with these names do not gather.
pub(crate) fn note_gather<N: Write>(
    notes: &mut N,
    names: &[&str],
    books: &[Book],
    fault: GatherFault,
) {
    match fault {
        GatherFault::IdUsed => note_twice(notes, names, books),
        GatherFault::BadFounders => note_heads(notes, names, books),
        GatherFault::NeverSent => {
            note_unsent(notes, names, books);
        }
        GatherFault::Journal { .. } | GatherFault::OutOfMemory => {}
    }
}
