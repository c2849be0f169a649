//! Worked values of the numbers of messages, and what is a beginning. Each is the contract of a function that does
//! nothing.

ghost use Rattle.std.specs.Prelude.{◌≡◌, [], ◌∷◌, Some, None, ◌≤◌, ℕ, List, length, slice_get};
ghost use Rattle.sc_members.specs.Members.{Config};
ghost use Rattle.sc_msg.specs.declared.message.Message.{Message};
ghost use Rattle.sc_msg.specs.declared.version.Version.{Version};
ghost use Rattle.sc_node.specs.State.{NodeState};
ghost use Rattle.q_desk.specs.declared.journal.Entry.{Entry};
ghost use Rattle.q_book.specs.State.{BookState};
ghost use Rattle.q_book.specs.Books.{new_book, entered};
ghost use Rattle.q_book.specs.Replays.{IsFirst, IsReplay};
ghost use Rattle.q_gather.specs.Numbers.{number_of, added};
ghost use Rattle.q_gather.specs.Beginnings.{IsBeginningOf, IsGivenBy, IsGivenAmong, AreBeginnings, HoldWhatTheyDeliver, MayGather};

/// What the definitions say at telling operands: bytes keep the number that they got first.
pub fn worked()
    ensures of_the_first { number_of (1 ∷ []) ((1 ∷ [], 7) ∷ (2 ∷ [], 8) ∷ []) ≡ Some 7 }
    ensures of_the_second { number_of (2 ∷ []) ((1 ∷ [], 7) ∷ (2 ∷ [], 8) ∷ []) ≡ Some 8 }
    ensures of_none { number_of (2 ∷ 1 ∷ []) ((1 ∷ [], 7) ∷ (2 ∷ [], 8) ∷ []) ≡ None }
    ensures new { added (2 ∷ []) 9 ((1 ∷ [], 7) ∷ []) ≡ (1 ∷ [], 7) ∷ (2 ∷ [], 9) ∷ [] }
    ensures again { added (1 ∷ []) 9 ((1 ∷ [], 7) ∷ []) ≡ (1 ∷ [], 7) ∷ [] }
{}

/// Whole books are beginnings of themselves, and hold what they deliver.
pub fn wholes_are_beginnings()
    ensures one { (b : BookState) → IsReplay b → IsBeginningOf b b }
    ensures all { (books : List BookState) (version : Version) (config : Config) (founders : List ℕ) → MayGather books version config founders → AreBeginnings books books × HoldWhatTheyDeliver books }
{}

/// So is a head alone, without any entry; and heads alone hold what they deliver, which is nothing. The head of a node
/// that is no founder gives the message by which it enters.
pub fn heads_are_beginnings()
    ensures one { (b : BookState) (first : NodeState) → IsFirst b first b.founders → IsBeginningOf (new_book b.version b.id b.config b.founders first) b }
    ensures all { (books : List BookState) → ((k : ℕ) (b : BookState) → slice_get books k ≡ Some b → b.desk.journal ≡ []) → HoldWhatTheyDeliver books }
    ensures enter { (version : Version) (config : Config) (id : ℕ) (m : Message) → (entered version config id).1 ≡ m ∷ [] → IsGivenBy m (entered version config id).0 }
{}

/// No part of a book is longer than the book; and books of which one delivers a message that none of them gives do not
/// hold what they deliver.
pub fn beginnings_are_no_more()
    ensures brief { (part whole : BookState) → IsBeginningOf part whole → length part.desk.journal ≤ length whole.desk.journal }
    ensures lost { (books : List BookState) (k place : ℕ) (b : BookState) (m : Message) → slice_get books k ≡ Some b → slice_get b.desk.journal place ≡ Some (Entry.Deliver m) → (IsGivenAmong m books → ⊥) → HoldWhatTheyDeliver books → ⊥ }
{}
