//! Laws of the beginnings of journals. Each is the contract of a function that does nothing.

ghost use Rattle.std.specs.Prelude.{◌≡◌, ℕ, List, [], take};
ghost use Rattle.sc_members.specs.Members.{Config};
ghost use Rattle.sc_msg.specs.declared.message.Message.{Message};
ghost use Rattle.sc_msg.specs.declared.version.Version.{Version};
ghost use Rattle.q_book.specs.State.{BookState};
ghost use Rattle.q_book.specs.Replays.{IsReplay};
ghost use Rattle.q_history.specs.Headline.{ClusterState, AnswersAreTrue};
ghost use Rattle.q_gather.specs.Merging.{Step, Merges};
ghost use Rattle.q_gather.specs.Gathered.{AreDistinct, AreTraces, IsGathered};
ghost use Rattle.q_gather.specs.Beginnings.{IsBeginningOf, IsGivenBy, AnswersStay, AreBeginnings, HoldWhatTheyDeliver, MayGather};

use crate::laws::books_gather;
use q_history::laws::every_answer_is_true;

/// A law: a book has one beginning of each number of entries, and a beginning of a beginning is one of the book.
pub fn each_beginning_is_one()
    ensures some { (whole : BookState) (entries : ℕ) → IsReplay whole → (part : BookState) × IsBeginningOf part whole × (part.desk.journal ≡ take entries whole.desk.journal) }
    ensures one { (part other whole : BookState) → IsBeginningOf part whole → IsBeginningOf other whole → part.desk.journal ≡ other.desk.journal → part ≡ other }
    ensures again { (part more whole : BookState) → IsBeginningOf part more → IsBeginningOf more whole → IsBeginningOf part whole }
{}

/// A law: a message that a book gives names the node of the book as its sender, and what holds more of the book gives
/// it too.
pub fn givers_are_senders()
    ensures sender { (m : Message) (b : BookState) → IsGivenBy m b → m.from ≡ b.id }
    ensures more { (m : Message) (part whole : BookState) → IsReplay whole → IsBeginningOf part whole → IsGivenBy m part → IsGivenBy m whole }
{}

/// A law: of books of different nodes whose steps merge, beginnings merge too that hold what they deliver. And any
/// books whose steps merge hold what they deliver, so no weaker premise would do.
pub fn beginnings_merge()
    ensures merges { (wholes parts : List BookState) (lists held : List (List (Step Message))) → AreDistinct wholes → AreTraces wholes lists → Merges Message [] lists → AreBeginnings parts wholes → AreTraces parts held → HoldWhatTheyDeliver parts → Merges Message [] held }
    ensures only { (books : List BookState) (lists : List (List (Step Message))) → AreTraces books lists → Merges Message [] lists → HoldWhatTheyDeliver books }
{}

/// A law: the books of a cluster may be gathered, where each is there once. So books gather into some cluster just
/// where they are of different nodes, have right answers, agree on their heads, and merge.
pub fn gathered_books_merge()
    ensures may { (books : List BookState) (c : ClusterState) → IsGathered books c → AreDistinct books → MayGather books c.version c.past.config c.past.founders }
    ensures gathers { (books : List BookState) (version : Version) (config : Config) (founders : List ℕ) → MayGather books version config founders → (c : ClusterState) × IsGathered books c }
{
    books_gather();
}

/// A law: where the books of nodes gather into a cluster, beginnings gather into one too that hold what they deliver.
/// Its books are these beginnings, and nobody has crashed; each answer that they record is true in it, and the whole
/// books record the same answers.
pub fn beginnings_gather()
    ensures gathers { (wholes parts : List BookState) (c : ClusterState) → IsGathered wholes c → AreDistinct wholes → AreBeginnings parts wholes → HoldWhatTheyDeliver parts → (d : ClusterState) × IsGathered parts d × AnswersAreTrue d }
    ensures may { (wholes parts : List BookState) (version : Version) (config : Config) (founders : List ℕ) → MayGather wholes version config founders → AreBeginnings parts wholes → HoldWhatTheyDeliver parts → MayGather parts version config founders }
    ensures stay { (part whole : BookState) → IsReplay whole → IsBeginningOf part whole → AnswersStay part whole }
{
    gathered_books_merge();
    every_answer_is_true();
}
