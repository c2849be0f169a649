//! Laws of what commands answer, and of every answer that is gathered.

ghost use Rattle.std.specs.Prelude.{◌≡◌, ℕ, List};
ghost use Rattle.q_book.specs.State.{BookState};
ghost use Rattle.q_gather.specs.Gather.{GathersBooks};
ghost use Rattle.q_history.specs.Headline.{ClusterState};
ghost use Rattle.q_command.specs.Listing.{listing_of};
ghost use Rattle.q_command.specs.Perform.{Disassembles, Lists};
ghost use Rattle.q_command.specs.Truth.{AnswersAreTrue};

use bq_asm::laws::{disassembly_spells_the_text, one_text};

/// What `asm` lists of the assembler text that `dis` prints is the units of the bytes that `dis` was given.
pub fn disassembled_and_listed()
    ensures { (source lines listed : List ℕ) → Disassembles source lines → Lists lines listed → listed ≡ listing_of source }
{
    disassembly_spells_the_text();
    one_text();
}

/// A law: whatever cluster the books gather into, by whatever order of their events, each answer that the books record
/// is recorded in it, and true. It is the meaning of the program that the query names, from the query's start, over the
/// view that is recorded with it. That view is the one that the query's own collect returned; it holds each store that
/// ended before the collect began and that meets it, and it has only what nodes began to store before the collect
/// ended.
pub fn every_gathered_answer_is_true()
    ensures { (books : List BookState) (c : ClusterState) → GathersBooks books c → AnswersAreTrue c books }
{}
