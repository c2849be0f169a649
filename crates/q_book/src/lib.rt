//! Books: a node of a store-collect object with its desk, as one value.
//!
//! A [`Book`] is what the lock of a running node guards. Its calls are those of the node and of the desk, put together:
//! a query begins with a collect, and the view that the collect returns goes to that query. Each call is exact:
//! `specs/Books` says what it answers and which book it leaves, or with which fault it refuses. After a refusal, 99
//! OutOfMemory among them, the book is as it was. Why a call is refused first of all is a list of tests there, in the
//! order of the refusals.
//!
//! A call by who uses the node is also a value, [`q_desk::Call`]: [`Book::call`] makes it, whichever it is, and answers
//! a [`Reply`] (`specs/Called`). It is what the journal keeps of the call, and what an event of a cluster holds.
//!
//! A book has a version, which is that of its journal and of the messages that it takes: in the first each value has 48
//! bytes, and programs are checked for records of 64; in the second a value has 0 to 112 bytes, and programs are
//! checked for records of 16 to 128 ([`record_lengths`]). A new book has the second.
//!
//! [`is_of`] tells whose book it is, and [`read_notes`] reads the notes of a program in the form of a version.
//!
//! Its type keeps that a book is the replay of its journal: the calls that the journal names, from the first state of
//! its node, lead to this book and to no other entry of the journal. So each recorded answer is the meaning of its
//! query's program, folded over the view that its own collect returned.
//!
//! A caller, proved in `callers`: a query is asked of a program that is registered first.
//!
//! ```rust
//! pub fn register_and_ask(book: &mut Book, program: &Program, start: u64) -> Result<Asked, BookFault>
//!     ensures { IfOk result (λ query. (id : ℕ) × (between : BookState)
//!         × (registered book.old program.now ≡ Ok (id, between)) × (asked between id start ≡ Ok (query, book.new))) }
//! {
//!     let id = book.register(program)?;
//!     let query = book.ask(id, start)?;
//!     Ok(query)
//! }
//! ```
#![tactic(auto)]

mod answer;
mod book;
pub mod laws;
mod lengths;
mod notes;
mod own;
mod reply;
pub mod worked;

pub use answer::{Asked, Delivery};
pub use book::{Book, BookFault};
pub use lengths::record_lengths;
pub use notes::read_notes;
pub use own::is_of;
pub use reply::Reply;
