//! Journals of books as bytes, and books out of them.
//!
//! [`journal_bytes`] writes the journal of a book in the book's version: its head and its entries in turn.
//! [`head_bytes`] and [`entries_bytes`] write these alone, for a journal that is written piece by piece. [`replay`]
//! makes each call that the events of a journal name, from the first state of the node, runs each job anew, and answers
//! the book that this leads to. It answers a book for just the bytes that are the journal of one, and then that very
//! book: of a journal of version 1 a book of version 1, which goes on as such. Else it names the first faulty event: 57
//! where no event of the form stands there, 58 where the event is refused or its answer is not right; the head is event
//! 0. Bytes have one such fault at most.
//!
//! So whoever trusts the definitions need not trust whoever wrote the bytes: an answer in a journal that is replayed is
//! the meaning of its query's program over the view that the node collected.
//!
//! A journal begins with a head: 42 51 4a, the byte of the version, the node's id in eight bytes, the numerators and
//! the denominators of beta and gamma in two bytes each, and then a byte 0, the number of founders in two bytes and
//! their ids, or a byte 1 where the node entered. Behind it stand the events in turn: the byte of the kind, the length
//! of the body in four bytes, and the body. Numbers have their lowest byte first.
//!
//! | Kind | Body |
//! |---|---|
//! | 1 leave, 6 hand-out | none |
//! | 2 register | the length of the program's text in four bytes, the text, its notes |
//! | 3 ask | the program's number in four bytes, the start in eight |
//! | 4 store | the bytes of the value, and nothing more |
//! | 5 deliver | a message |
//! | 7 post | the query's number, the accumulator, the steps, eight bytes each |
//!
//! What differs in the versions:
//!
//! | | Version 1 | Version 2 |
//! |---|---|---|
//! | the fourth byte | 01 | 02 |
//! | notes | of the first form: for records of 64 bytes | of the second form, which tells the lengths of records |
//! | the value of a store | 48 bytes | 0 to 112 bytes |
//! | a message | of version 1 | of version 2 |
//!
//! For all bytes, [`read_head`] and [`read_event`] answer what stands first in the bytes, with what stands behind it;
//! and they find nothing only where nothing of the form stands there. The head tells in which version the events are
//! read. What is written is just the spelling in its version. Bytes begin with one head at most and, in a version, with
//! one event at most ([`laws`]), so a journal has one spelling. Whether a program passes the checker, whether founders
//! are taken and what the events do is for the replay.
//!
//! A caller, proved in `callers`: a journal's bytes back to a book, whose recorded answers are right.
//!
//! ```rust
//! pub fn book_again(alloc: Global, bytes: &[u8]) -> Result<Book, ReplayFault>
//!     ensures book { IfOk result (λ book. bytes.now ≡ journal_of book) }
//!     ensures right { IfOk result (λ book. AnswersAreRight book.desk) }
//!     ensures fault { IfErr result (IsFault bytes.now) }
//! {
//!     let book = replay(alloc, bytes)?;
//!     let _right = book.desk();
//!     Ok(book)
//! }
//! ```
#![tactic(auto)]

mod body;
mod bytes;
mod call;
mod fault;
mod head;
pub mod laws;
mod raw_entry;
mod read;
mod reader;
mod refusal;
mod replayer;
pub mod worked;
mod write;
mod writer;

pub use bytes::{entries_bytes, head_bytes};
pub use fault::ReplayFault;
pub use head::Head;
pub use raw_entry::RawEntry;
pub use read::{ReadFault, read_event, read_head};
pub use replayer::replay;
pub use write::journal_bytes;
