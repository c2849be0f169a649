//! A cluster whose nodes run in threads of their own, each with a transport and with its book behind a lock; and its
//! scripts: what the calls of their lines come to, and what the lines tell of one cluster.
//!
//! [`run_cluster`] takes a script ([`ClusterScript`]): the founders and, in turn, programs, stores and queries. The
//! thread of a node (module `node`) waits for a datagram, delivers its message to its book under the lock, and sends
//! what the book gives with the lock free: an acknowledgement and a reply to their addressee alone
//! (`q_held::addressee`), all else to all. What an open operation asks is sent again, ever less often (module `asked`).
//! The caller's thread takes one line of the script after the other (module `line`): it makes the call of the book
//! under its lock, wakes the node's thread by an empty datagram, and sleeps until a bell says that an operation has
//! ended or an answer is there (module `flight`), four seconds at most. Where a collect has ended, the node's thread
//! offers the query's job to a board of jobs, which four runners run in threads of their own. At the end all threads
//! are joined. [`run_file`] gives each node a UDP socket of loopback, and runs the script of a file.
//!
//! What each call came to ([`Outcome`]) is what some book of the line's node answered, the replay of its journal. Once
//! the nodes have ended, their books are gathered into one cluster, and what a line tells ([`Report`]) is looked up in
//! it, by what its call came to ([`Telling`]). How the run ends, and with which exit status, follows from that
//! ([`ClusterEnding`]). In these modules (from `script` to `telling` and `ending`) there are no threads and no locks. A
//! second writer is told how many datagrams changed nothing and what was not sent (`q_held::LossCounts`), why lines
//! were refused, how many are unanswered, and why a thread or a socket is missing.
//!
//! Proved of a run that ended with a gathered cluster (`IsWritten` in `specs/Runs.antt`): there is one cluster, a
//! history of the founders 1 to N with the script's fractions, into which the books of the nodes gather, one of each,
//! each the replay of its journal. Of it each line of the script tells, in turn, and nothing else is written. `program
//! P` is told of a program that the line's node has under that number, and whose bytes the line spells. `store TAG` is
//! told of an operation of the node that stores the line's value under that tag, with nothing behind it exactly where
//! the operation has ended, and else `unanswered`. `query Q` is told of the node's query of that number, which asks for
//! the line's program from its start, with the recorded answer behind it exactly where there is one, and else
//! `unanswered`. A refusal is 81 exactly where there is no such node, unless the bytes of the line are no program; else
//! it is that of the bytes, or one with which some book of the node refuses the line's call. How many lines were
//! refused or are unanswered is counted, and a strict run has the exit status 0 exactly where none is.
//!
//! So each printed answer is an answer of one cluster, and true: that is a law of the definition
//! ([`laws::every_printed_answer_is_true`]).
//!
//! Proved of a run that ended with a refusal: it stands alone, where memory ran out, where there are not 1 to 16 nodes,
//! or where a lock kept the book of another node (49; none does, but no contract of a lock says so); or it stands
//! behind what the lines tell, where the nodes' books do not gather, with that reason, or gather into a cluster that is
//! not the script's, or lacks what the call of a line came to (49). What the lines tell then is what their calls were
//! answered, and what the node's own book has of it.
//!
//! Proved of how a script is read: a text is a script exactly where its first line founds 1 to 16 nodes and each other
//! line is one of the three kinds; else what is first wrong is named.
//!
//! What is done under a lock is proved by `q_held`. What other threads did between two looks no contract can say.
//! Tested alone: that the nodes' threads send, hear and end, that operations end, that the books which gather, one of
//! each node, are those of the locks, and what the second writer is told.
#![tactic(auto)]

mod apart;
mod asked;
mod bell;
mod calls;
mod clock;
mod ending;
mod fault;
mod flight;
mod found;
mod halt;
pub mod laws;
mod line;
mod lock;
mod node;
mod ops_by_tag;
mod outcome;
mod own;
mod report;
mod run;
mod script;
mod sockets;
mod telling;
pub mod worked;

pub use calls::{Calls, make_calls};
pub use ending::{ClusterEnding, print_refusal, print_telling, print_untold};
pub use fault::ClusterRunFault;
pub use halt::Halt;
pub use outcome::Outcome;
pub use own::are_of_nodes;
pub use report::{Report, Tally, texts};
pub use run::run_cluster;
pub use script::{ClusterScript, MOST_NODES, is_node};
pub use sockets::{FileRun, open_sockets, run_file, run_over_sockets};
pub use telling::{Telling, tell};
