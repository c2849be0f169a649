//! Laws of journals that are gathered: the contracts of functions that do nothing.

ghost use Rattle.std.specs.Prelude.{◌≡◌, ℕ, List, Some, slice_get, ◌++◌, ◌∷◌, [], length, slice_set, None};
ghost use Rattle.sc_members.specs.Members.{Config};
ghost use Rattle.sc_msg.specs.declared.message.Message.{Message};
ghost use Rattle.sc_msg.specs.declared.version.Version.{Version};
ghost use Rattle.sc_msg.specs.Messages.{message_bytes, IsMessage};
ghost use Rattle.q_desk.specs.Answers.{AnswersAreRight};
ghost use Rattle.q_desk.specs.declared.journal.Entry.{Entry};
ghost use Rattle.q_book.specs.State.{BookState};
ghost use Rattle.q_book.specs.Books.{entered};
ghost use Rattle.q_book.specs.Replays.{IsReplay};
ghost use Rattle.q_history.specs.declared.event.ClusterEvent.{ClusterEvent};
ghost use Rattle.q_history.specs.Headline.{ClusterState};
ghost use Rattle.q_history.specs.Clusters.{start};
ghost use Rattle.q_history.specs.Calls.{IsHistory};
ghost use Rattle.q_cluster.specs.Acts.{book_at};
ghost use Rattle.q_gather.specs.Gathered.{AreDistinct, AreRight, AgreeOn, AreTraces, IsGathered, IsUnderWay, Goes};
ghost use Rattle.q_gather.specs.Gather.{AreReplayed, Agree, IsRefused};
ghost use Rattle.q_gather.specs.declared.fault.GatherFault.{GatherFault as Fault};
ghost use Rattle.q_gather.specs.Merging.{Step, CanGo, AreOver, Merges};
ghost use Rattle.q_book.specs.Sends.{sends};
ghost use Rattle.q_gather.specs.Traces.{step_of, IsTrace};
ghost use Rattle.q_gather.specs.Turns.{IsEventOf, IsNext, Makes};
ghost use Rattle.q_gather.specs.Numbers.{NumberList, added, AreNumbers};

use q_replay::laws::{one_book, one_fault};
use sc_msg::laws::one_spelling;

/// A law: journals are refused for one reason at most besides want of memory.
pub fn one_refusal()
    ensures { (journals : List (List ℕ)) (d e : Fault) → IsRefused journals d → IsRefused journals e → (d ≡ Fault.OutOfMemory → ⊥) → (e ≡ Fault.OutOfMemory → ⊥) → d ≡ e }
{
    one_book();
    one_fault();
}

/// A law: books that agree have one version. So journals of different nodes, of which two are of different versions,
/// are refused with 49.
pub fn one_version()
    ensures same { (books : List BookState) (i k : ℕ) (a b : BookState) → Agree books → slice_get books i ≡ Some a → slice_get books k ≡ Some b → a.version ≡ b.version }
    ensures refused { (journals : List (List ℕ)) (books : List BookState) (i k : ℕ) (a b : BookState) → AreReplayed journals books → AreDistinct books → slice_get books i ≡ Some a → slice_get books k ≡ Some b → (a.version ≡ b.version → ⊥) → IsRefused journals Fault.BadFounders }
{}

/// A law: whether lists of steps merge does not depend on which step goes first. A first step that can go may go at
/// once; and where none can go, the lists merge only if all are over.
pub fn order_is_free()
    ensures next { (given : List Message) (lists : List (List (Step Message))) (k : ℕ) (s : Step Message) (rest : List (Step Message)) → slice_get lists k ≡ Some (s ∷ rest) → CanGo given s → Merges Message given lists → Merges Message (given ++ s.gives) (slice_set lists k rest) }
    ensures stuck { (given : List Message) (lists : List (List (Step Message))) → ((k : ℕ) (s : Step Message) (rest : List (Step Message)) → slice_get lists k ≡ Some (s ∷ rest) → CanGo given s → ⊥) → Merges Message given lists → AreOver lists }
{}

/// A law of every history: an entry that the book of a node can take next, where what it wants was sent, is an event of
/// the cluster. The event is accepted; then the node's book is the one that the entry leads to, the others are as they
/// were, and what the entry gives was sent. So is it where a node enters that was never there.
pub fn entries_are_events()
    ensures event { (c : ClusterState) (id : ℕ) (b d : BookState) (e : Entry) → IsHistory c → IsNext c id b e d → CanGo c.past.sent (step_of b e) → (ev : ClusterEvent) × IsEventOf c id e ev }
    ensures makes { (c : ClusterState) (id : ℕ) (b d : BookState) (e : Entry) (ev : ClusterEvent) → IsHistory c → IsNext c id b e d → AnswersAreRight d.desk → IsEventOf c id e ev → Makes c ev id d (sends b e) }
    ensures enters { (c : ClusterState) (id : ℕ) → book_at c id ≡ None → Makes c (ClusterEvent.Enter id) id (entered c.version c.past.config id).0 (entered c.version c.past.config id).1 }
{}

/// A law: each book that is the replay of its journal has one trace.
pub fn one_trace()
    ensures some { (b : BookState) → IsReplay b → (steps : List (Step Message)) × IsTrace b steps }
    ensures one { (b : BookState) (steps others : List (Step Message)) → IsTrace b steps → IsTrace b others → steps ≡ others }
    ensures all { (books : List BookState) (lists others : List (List (Step Message))) → AreTraces books lists → AreTraces books others → lists ≡ others }
{}

/// A law: books of different nodes, whose answers are right and which agree on their heads, are gathered in one
/// cluster where their steps merge. They begin with the founders, before any event; each first step that can go is an
/// event of the cluster, after which one step less is left; and where none is left, the books of the cluster are these.
pub fn books_gather()
    ensures begins { (books : List BookState) (version : Version) (config : Config) (founders : List ℕ) (lists : List (List (Step Message))) → AreDistinct books → AreRight books → AgreeOn books version config founders → AreTraces books lists → IsUnderWay books (start version config founders) lists }
    ensures goes { (books : List BookState) (c : ClusterState) (lists : List (List (Step Message))) (k : ℕ) (s : Step Message) (rest : List (Step Message)) → IsUnderWay books c lists → slice_get lists k ≡ Some (s ∷ rest) → CanGo c.past.sent s → (event : ClusterEvent) × Goes books c lists k s rest event }
    ensures over { (books : List BookState) (c : ClusterState) (lists : List (List (Step Message))) → IsUnderWay books c lists → AreOver lists → IsGathered books c }
    ensures gathers { (books : List BookState) (version : Version) (config : Config) (founders : List ℕ) (lists : List (List (Step Message))) → AreDistinct books → AreRight books → AgreeOn books version config founders → AreTraces books lists → Merges Message [] lists → (c : ClusterState) × IsGathered books c }
{}

/// A law: where each message that is sent gets its number as it is sent, if it has none, each has its least number. The
/// numbers go by the bytes of version 2, in which each message has some.
pub fn numbers_are_least()
    ensures none { AreNumbers [] [] }
    ensures next { (sent : List Message) (numbers : NumberList) (m : Message) → AreNumbers sent numbers → IsMessage Version.Second m → AreNumbers (sent ++ m ∷ []) (added (message_bytes Version.Second m) (length sent) numbers) }
{
    one_spelling();
}
