//! What is true of every history.

ghost use Rattle.std.specs.Prelude.{◌≡◌, ℕ, List, All, Ok};
ghost use Rattle.sc_members.specs.Members.{Config};
ghost use Rattle.sc_msg.specs.Lengths.{Fits};
ghost use Rattle.sc_msg.specs.declared.version.Version.{Version};
ghost use Rattle.sc_world.specs.Worlds.{IsHistory as IsWorldHistory};
ghost use Rattle.q_history.specs.declared.event.ClusterEvent.{ClusterEvent};
ghost use Rattle.q_history.specs.Headline.{ClusterState, AnswersAreTrue, AnswersStay, ViewsAreReturned};
ghost use Rattle.q_history.specs.World.{world};
ghost use Rattle.q_history.specs.Clusters.{start, started};
ghost use Rattle.q_history.specs.Calls.{Reaches};
ghost use Rattle.q_history.specs.Books.{BooksAreReplays};

/// A law: whatever the founders are, and whatever list of events is accepted, in which messages are lost, repeated and
/// reordered, nodes enter, leave and crash, and jobs are finished in any order or never, each recorded answer is right.
/// It is the meaning of the program that its query names, folded from the query's start over the records of the view
/// that the query's own collect returned; and that view holds each store that ended before the collect began and that
/// meets it. The program is one that the checker accepts, and the steps are at most its longest path times the
/// records of the view.
pub fn every_answer_is_true()
    ensures { (version : Version) (config : Config) (founders : List ℕ) (events : List ClusterEvent) (c : ClusterState) → Reaches (start version config founders) events c → AnswersAreTrue c }
{}

/// A law: in every history each view over which a query is to run, runs or ran is the one that the query's own collect
/// returned; and it holds each store that ended before the collect began and that meets it.
pub fn every_view_is_returned()
    ensures { (version : Version) (config : Config) (founders : List ℕ) (events : List ClusterEvent) (c : ClusterState) → Reaches (start version config founders) events c → ViewsAreReturned c }
{}

/// A law: in every history a recorded answer stays as it is, whatever is accepted after it.
pub fn answers_stay()
    ensures { (version : Version) (config : Config) (founders : List ℕ) (before after : List ClusterEvent) (c later : ClusterState) → Reaches (start version config founders) before c → Reaches c after later → AnswersStay c later }
{}

/// A law: in every history of founders that are not refused, each node with its desk is the replay of its own journal,
/// also where the node has left or crashed. The calls that the journal names, from the node's first state, lead to this
/// node and this desk.
pub fn every_book_is_a_replay()
    ensures { (version : Version) (config : Config) (founders : List ℕ) (events : List ClusterEvent) (c : ClusterState) → started version config founders ≡ Ok (start version config founders) → Reaches (start version config founders) events c → BooksAreReplays c }
{}

/// A law: in every history of founders that are not refused, each message that was sent fits the cluster's version, so
/// no delivery is refused with 50.
pub fn every_message_fits()
    ensures { (version : Version) (config : Config) (founders : List ℕ) (events : List ClusterEvent) (c : ClusterState) → started version config founders ≡ Ok (start version config founders) → Reaches (start version config founders) events c → All (Fits version) c.past.sent }
{}

/// A law: in every history the cluster's world is what its own accepted events made of its founders. So all that is
/// true of every history of a world is true of a cluster's (`sc_world::laws::regular`): its views are regular and its
/// records true; each message was sent by the sender that it names, so each sender that a record counts sent its
/// answer; what an event of the world tells of an operation that ended is what the operation's record then says, and an
/// operation whose record ends at an event is told by it.
pub fn every_world_is_a_history()
    ensures { (version : Version) (config : Config) (founders : List ℕ) (events : List ClusterEvent) (c : ClusterState) → Reaches (start version config founders) events c → IsWorldHistory (world c) }
{}
