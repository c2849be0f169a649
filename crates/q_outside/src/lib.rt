//! What carries bytes to a node and from it, and files by name: each failed call is counted.
//!
//! - [`Transport`] carries datagrams between nodes: [`UdpTransport`] over UDP on loopback, [`MemoryTransport`] over
//!   mailboxes in memory. A failed call is answered 86 and counted once. Nothing is said of what a datagram holds when
//!   it comes, or of whether it comes.
//! - [`Counted`] is a reader or a writer whose failed calls are counted. A line goes to it as a list of [`Piece`]s,
//!   words and numbers, with no text put together in memory.
//! - [`Files`] is what a command asks of the folder that it runs in. Its contracts say what a read and a write may
//!   answer by two relations of the implementing type, and count the calls that failed. It is told how far long work
//!   is.
//! - [`Folder`] is the machine's files, of which no contract says what they hold. [`MemoryFiles`] is files in memory,
//!   of which each call's contract does.
//!
//! Whatever talks to the outside stands on it: requests of clients, nodes in threads and apart, the commands.
#![tactic(auto)]

mod counted;
mod fault;
mod files;
mod folder;
mod memory;
mod memory_files;
mod pieces;
mod transport;
mod udp;
pub mod worked;
pub mod worked_files;

pub use counted::Counted;
pub use fault::{TransportFailed, TransportFault};
pub use files::{FileFault, Files, LONGEST_TEXT};
pub use folder::Folder;
pub use memory::{Hub, Mailbox, MemoryTransport};
pub use memory_files::MemoryFiles;
pub use pieces::Piece;
pub use transport::{Transport, put_at_start};
pub use udp::{Peer, UdpTransport};
