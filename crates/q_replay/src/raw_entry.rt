//! Entries as the bytes of a journal spell them.

use bq_check::Notes;
use bq_insn::Text;
use sc_msg::Message;
use sc_view::Value;

/// An entry of a journal as its bytes spell it. That a node took it is not looked at.
#[derive(Drop)]
pub enum RawEntry {
    /// The node left for good.
    Leave,
    /// A program was registered, with these notes.
    Register { text: Text, notes: Notes },
    /// A query of this program began.
    Ask { program: u32, start: u64 },
    /// A store of this value began.
    Store(Value),
    /// A message was delivered.
    Deliver(Message),
    /// A job was handed out.
    HandOut,
    /// The answer of a query was recorded.
    Post { query: u64, acc: u64, steps: u64 },
}
