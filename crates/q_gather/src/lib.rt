//! Journals of nodes that ran apart, gathered into a cluster: when they merge, and what cluster they merge to.
//!
//! [`gather`] replays each journal to its book, and gathers the books; [`gather_books`] gathers books that stand. It
//! looks whether they are of different nodes and agree on their version, fractions and founders, of whom each has a
//! book. It begins with the founders, whose books have that version, and takes, again and again, the next event of a
//! node that can go on: an event that delivers nothing, or a message that was sent. A node goes on for as long as it
//! can, and then the first behind it in a round over all; one that was found waiting is not looked at again until more
//! was sent. So the time is linear in the journals. Which event goes first makes no difference to whether all can go,
//! and to the books that come out: [`laws`] say so. So it answers the cluster of these books just where their events
//! can be taken in some order in which each message that is delivered was sent before; else it says why not.
//!
//! A journal says in turn what its node did. Each entry wants at most one message, which it delivers, and gives those
//! that its call sends: the steps of a journal are its trace, of which there is one. The journals of several nodes
//! merge where all their steps can be taken in some order that keeps the order of each, so that each message was sent
//! before it is delivered. That order is free: a step that can go may go at once. And in every history of a cluster an
//! entry that its book can take next is an event that the cluster accepts. So books of different nodes, which agree on
//! their version, fractions and founders, are the books of one cluster where their traces merge; and whoever takes the
//! steps one by one, as they can go, takes all of them just there. All of this is said by [`laws`].
//!
//! A process that is killed, or whose disk is full, leaves a file that holds a beginning of its journal: the head and
//! the first entries, perhaps none, or no file at all. Where each process writes an entry before a message leaves it
//! that the entry gave, no message is delivered of which the entry that gave it is lost. So the beginnings hold what
//! they deliver: each message that one of their entries delivers is given by an entry that is held too, or by the head
//! of a book, which tells that its node enters. Of books that gather into a cluster, such beginnings gather into one
//! too, so all that is true of gathered journals is true of them. And nothing less would do: beginnings that merge hold
//! what they deliver. All of this is said by [`beginnings`], over the definitions of `specs/Beginnings`.
//!
//! A message is known by its bytes in version 2, in which each has some, whatever the cluster's version is; and it is
//! delivered by the least number at which it was sent: [`MessageNumbers`].
#![tactic(auto)]

pub mod beginnings;
mod fault;
mod gatherer;
mod gathering;
mod heads;
mod jobs;
pub mod laws;
mod message_numbers;
mod rounds;
pub mod worked;

pub use fault::GatherFault;
pub use gatherer::{gather, gather_books};
pub use message_numbers::MessageNumbers;
