//! Client requests to a book, from any reader to any writer.
//!
//! A request begins with the byte of its kind. Numbers have their lowest byte first. The kinds, each with what stands
//! behind that byte, and with the bytes of the reply:
//!
//! - 1, register: the length of a text in four bytes, the text, the length of notes in four bytes, and the notes. Reply:
//!   0, and the program's number in four bytes.
//! - 2, ask: the program's number in four bytes, and the start in eight. Reply: 0, and the query's number in eight bytes.
//! - 3, store: 48 bytes. Reply: 0, and the operation's tag in eight bytes.
//! - 4, answer: the query's number in eight bytes. Reply: 0 0 where it has none yet; else 0 1, the accumulator and the
//!   steps, eight bytes each.
//! - 5, store: the length of a value in one byte, and the value. Reply: as for 3.
//!
//! A request that is refused is replied to by one byte, the number of the refusal. A registration is decoded, its notes
//! are read and checked against the text, and only then the book is asked. Notes have the form of the book's version,
//! and are checked for the records of its programs: the first form for records of 64 bytes in version 1, the second for
//! 16 to 128 in version 2, so no registration is refused 59. A store of a value with another length than the book's
//! version has (48 bytes in version 1, at most 112 in version 2) is refused 50 by the book: its bytes are read, and the
//! next request follows. Four replies end the requests, and change nothing: 84 at a kind that is none of these, 85
//! where the input ends within a request, 2 at a text of more than 32,768 bytes and 31 at notes of more than 778,244,
//! or of more than 770,052 to a book of version 1. After a reply of 99 nothing has changed, the request was read to its
//! end, and the next one follows.
//!
//! Promised by [`serve`], if it returns, of the bytes of a reader and a writer that are known: the input begins with
//! the spellings of requests and how they ended, what was written is the replies to them one behind the other, the book
//! is the one that its own calls make of them in turn, and the messages of these calls stand in order behind those that
//! were there. Where a read or a write fails (86) the same holds of the requests before, and the one at hand was done
//! whole or not at all; and just one failure was counted, at the reader or at the writer.
//!
//! [`read_byte`], [`read_short`] and [`read_long`] read the next number of an input, of requests or of replies.
//!
//! A caller, proved in `callers`: a client of a book is served, from the bytes of its requests to those of the replies.
//!
//! ```rust
//! pub fn serve_client<T: Wait, R: Read, W: Write>(
//!     rt: &T,
//!     alloc: Global,
//!     book: &mut Book,
//!     input: &mut Counted<R>,
//!     out: &mut Counted<W>,
//!     sent: &mut Vec<Message>,
//! ) -> Result<usize, TransportFailed>
//!     ensures served { OnOk result (IsServed (R.remaining input.old.inner) (R.remaining input.new.inner)
//!         (W.contents out.old.inner) (W.contents out.new.inner) book.old book.new sent.old.items sent.new.items) }
//!     ensures entries { IfOk result (λ entries. entries ≡ length book.new.desk.journal) }
//! {
//!     serve(rt, alloc, book, input, out, sent)?;
//!     Ok(book.events())
//! }
//! ```
#![tactic(auto)]

mod incoming;
mod pieces;
mod replies;
mod request;
mod served;
mod server;
pub mod worked;

pub use incoming::{Incoming, read_next};
pub use pieces::{read_byte, read_long, read_short};
pub use replies::Reply;
pub use request::{Blob, Request, Short, StreamEnd};
pub use served::{Registered, reply};
pub use server::serve;
