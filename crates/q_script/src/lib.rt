//! Scripts of a simulated cluster, lists of records, and the file of a cluster, read from their texts.
//!
//! All are lines, each ended by a line feed (the last need not be). A line is words with one space between. A number
//! is a u64 in decimal, with no zero in front of other digits and no sign.
//!
//! - [`Script::read`] reads a script. Its first line founds the cluster, as `nodes 3 4/5 4/5`: founders 1 to 3 and the
//!   fractions beta and gamma. Each other line is an event ([`ScriptLine`]). Refused is 9 Syntax, with the least line
//!   that is of another form; an empty text is one empty line.
//! - [`read_script`] reads the first line and then lines of any other kind ([`Line`]), as those that call a node alone
//!   ([`CallLine`]); [`read_lines`] reads such lines alone.
//! - [`read_records`] reads lines `ID SEQ VALUE`, one for each record of a view, and gives the view. An empty text has
//!   no line. Refused is what is wrong with the least faulty line, with its number: in this order 9 Syntax, 75 Unsorted
//!   for an id not above the one before, 77 BadField for a sequence number 0, 50 BadValue for a record (16 bytes, and
//!   those of the value) of another length than the caller allows, 46 ViewFull for a 257th record. No length above 128
//!   is allowed, so a value of more than 112 bytes is 50.
//! - [`number`] reads a number, [`code`] the bytes of a program, [`value`] those of a VALUE, however many.
//!
//! A VALUE, in a record and behind `store NODE`, is a number, of which a value of 48 bytes is made (its eight bytes,
//! little-endian, before zeros), or `x` and two hexadecimal digits for each byte, small or capital: `x` alone is a
//! value of no byte. A line `store NODE VALUE` may have any number of bytes: more than 112 are refused when it is run.
//!
//! The file that all machines of a cluster read has the number of the run, the fractions, and who its nodes are:
//!
//! ```text
//! cluster 7310582 2/3 2/3
//! founder 1 10.88.0.1:7000
//! node 4 [2001:db8::4]:7000
//! ```
//!
//! Its first line is the number of this run and the fractions beta and gamma. Each other line is a node, with its id
//! and the address of its socket; founders begin the cluster, others enter it later. There are no comments and no
//! empty lines.
//!
//! An address is what the library's parser of socket addresses accepts, as its definition has it: an IPv4 address, a
//! colon and a port, or an IPv6 address in brackets, perhaps with `%` and a scope inside, a colon and a port. A port
//! may have zeros in front. It is not 0: nothing can be sent to that port, so a line with it is refused with 9.
//!
//! [`read_cluster`] gives the [`ClusterFile`] that a text spells. Refused is, in this order:
//!
//! - 9 Syntax, with the least line that is of another form, counted from 1, or that lists a 1025th node; an empty text
//!   is one empty line;
//! - 45 BadFraction where a fraction isn't num / den with 1 <= num <= den <= 1,000;
//! - 49 BadFounders where there is no founder, there are more than 256, or their ids do not rise from line to line;
//! - 44 IdUsed where two lines have one id or one address;
//!
//! That a text which spells a file is never refused but for want of memory is a law: [`laws`]. Whether a node can be
//! reached at its address is not judged here.
//!
//! Lines are counted from 1, and all are judged before anything runs. 99 OutOfMemory may stand in place of any other
//! answer. What a line spells is defined in `specs/`, apart from the code. Whether founders, fractions and programs are
//! good is not judged here. The program that runs scripts stands on this crate.
#![tactic(auto)]

mod call_line;
mod command;
mod fault;
mod file;
mod founding;
pub mod laws;
mod line;
mod node_line;
mod node_words;
mod numeral;
mod operands;
mod records;
mod script;
mod text;
pub mod worked;

pub use call_line::CallLine;
pub use fault::ClusterFileFault;
pub use file::{ClusterFile, read_cluster};
pub use founding::Founding;
pub use line::{Line, LineFault, ScriptLine};
pub use node_line::{Heading, NodeLine};
pub use node_words::NodeWords;
pub use numeral::{leading, number, pair};
pub use operands::{code, value};
pub use records::{RecordFault, RecordsFault, read_records, value_bytes};
pub use script::{Script, ScriptFault, read_lines, read_script};
pub use text::without_last_feed;
