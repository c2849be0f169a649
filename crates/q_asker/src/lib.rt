//! A client of a node that runs by itself: it registers programs, stores values and asks, as the lines of a script say.
//!
//! | Line | Prints |
//! |---|---|
//! | `program HEX` | `program P` |
//! | `store VALUE` | `store TAG` |
//! | `ask PROGRAM START` | `query Q`, and then `answer Q ACC STEPS`, or `unanswered` |
//!
//! HEX, VALUE and the numbers are written as in scripts of a cluster (`q_script`). A program is decoded and verified
//! here, for records of 16 to 128 bytes, and sent with the notes that the verifier finds: one that is refused is not
//! sent. What is sent and read are the bytes of requests and replies of `q_net`, version 2. A refused line prints
//! `refused N Name`, with ` at U` where a program was refused here at a unit, and the script goes on. The answer of a
//! query is asked for until it stands, 1,000 times and for 30 seconds at most. A node with no place for one more client
//! sends `61` in place of the reply to the first request and closes the connection, so that line prints
//! `refused 61 RowFull`.
//!
//! Promised, of the bytes of a reader and two writers that are known:
//!
//! - [`request_bytes`]: the spelling of a request.
//! - [`read_reply`]: a reply is answered exactly where its bytes stand at the front of the input, and it is one that
//!   the request may have; for an input that begins with none it answers none.
//! - [`exchange`]: the spelling of a request was written, and the reply that was read is answered.
//! - [`read_client_script`]: the lines that a text spells, or its least line that spells none (9).
//! - [`run_client`]: requests in the order of the lines were written, replies to them read, and printed is, line for
//!   line, what these tell. Refused with 86, printed last, where a read or a write of the connection fails, where the
//!   node ends it, or where what came is no reply.
//!
//! [`run_file`] reads the script, connects and runs it. What a socket holds no contract says. Tested alone: that a
//! reply comes in time, and what the notes tell of refused lines.
#![tactic(auto)]

mod bytes;
mod clock;
mod command;
mod connect;
mod connection;
mod ending;
mod line;
mod looks;
mod making;
mod notes;
mod operands;
mod printing;
mod replies;
mod run;
mod script;
mod step;
pub mod worked;

pub use bytes::request_bytes;
pub use command::{FileRun, run_file, run_text};
pub use connection::{Connection, ExchangeFault, exchange};
pub use ending::{ClientEnding, print_refusal};
pub use making::{registration, storing};
pub use replies::{ReplyKind, expected, read_reply, reason_of};
pub use run::run_client;
pub use script::{ClientLine, read_client_script};
