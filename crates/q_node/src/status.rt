//! What the console tells of a node.

ghost use Rattle.std.specs.Prelude.{◌≡◌};
ghost use Rattle.q_node.specs.Console.{status_of};

use q_book::Book;

/// What the console tells of a node.
#[derive(Clone, Copy)]
pub struct Status {
    /// Whether it has joined.
    pub joined: bool,
    /// How many nodes have entered and not left, as far as it knows.
    pub present: usize,
    /// How many events its journal has.
    pub events: usize,
    /// How many queries its book has.
    pub queries: usize,
    /// How many of its operations are open.
    pub underway: usize,
}

impl Status {
    /// The status of the node whose book this is.
    pub fn of(book: &Book) -> Status
        ensures { result ≡ status_of book.now }
    {
        let node = book.node();
        Status {
            joined: node.has_joined(),
            present: node.facts().present(),
            events: book.events(),
            queries: book.desk().queries().len(),
            underway: node.open_operations(),
        }
    }
}
