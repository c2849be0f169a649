//! Laws of a node that was made of its own journal.
//!
//! A node writes a journal entry before it sends any message that results from it. So a process that is made of the
//! journal's file is a node that has waited: all that the process before it said is in that file.
//! [`a_resumed_node_has_waited`] is the step from bytes to books: where the bytes of one book's journal begin with
//! those of another's, the other is a beginning of the one, and the one gives each message that the other gave.
//! [`asked_again_was_given`] says that a resumed node asks nothing new.
//!
//! How they meet: let *b* be the book when the first process sent its last message, and *c* the book of the file. The
//! file then holds the journal of *b*, whole, and a file only grows; so *b* is a beginning of *c*. The resumed process
//! makes of *c* a book that grew. So all that was ever sent is given by the one book whose journal the file holds at
//! the end, and gathering and the headline speak of that book alone. They ask not how many processes wrote it.
//!
//! A law is the contract of a function that does nothing.
#![tactic(auto)]

ghost use Rattle.std.specs.Prelude.{◌≡◌, ◌++◌, ℕ, List};
ghost use Rattle.forms.specs.Lists.{Among};
ghost use Rattle.sc_msg.specs.declared.message.Message.{Message};
ghost use Rattle.q_book.specs.State.{BookState};
ghost use Rattle.q_book.specs.Replays.{IsReplay};
ghost use Rattle.q_replay.specs.Journal.{journal_of, IsJournalled};
ghost use Rattle.q_gather.specs.Beginnings.{IsBeginningOf, IsGivenBy};
ghost use Rattle.q_held.specs.Resumed.{still_asked};

use bq_flow::laws::one_longest;
use q_gather::beginnings::givers_are_senders;
use q_replay::laws::{one_event, one_head};

/// A law: a book whose journal's bytes begin those of another is a beginning of it, and what it gave the other gives.
pub fn a_resumed_node_has_waited()
    ensures beginning { (part whole : BookState) (more : List ℕ) → IsJournalled part → IsJournalled whole
        → journal_of whole ≡ journal_of part ++ more → IsBeginningOf part whole }
    ensures given { (part whole : BookState) (more : List ℕ) (m : Message) → IsJournalled part → IsJournalled whole
        → journal_of whole ≡ journal_of part ++ more → IsGivenBy m part → IsGivenBy m whole }
{
    one_longest();
    one_head();
    one_event();
    givers_are_senders();
}

/// A law: what a resumed node asks its journal gave, so gathering finds who sent it.
pub fn asked_again_was_given()
    ensures { (b : BookState) (m : Message) → IsReplay b → Among m (still_asked b) → IsGivenBy m b }
{}
