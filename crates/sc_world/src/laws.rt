//! What is true of every history, and of quorums of one membership.

ghost use Rattle.std.specs.Prelude.{◌≡◌, ℕ, List, Option, is_some, true};
ghost use Rattle.sc_members.specs.Ids.{Ids};
ghost use Rattle.sc_members.specs.Members.{Config};
ghost use Rattle.sc_world.specs.declared.event.WorldEvent.{WorldEvent};
ghost use Rattle.sc_world.specs.declared.op.Op.{Op};
ghost use Rattle.sc_world.specs.State.{WorldState};
ghost use Rattle.sc_world.specs.Worlds.{Reaches, start};
ghost use Rattle.sc_world.specs.Records.{AreRecords, AreSent};
ghost use Rattle.sc_world.specs.Regular.{IsRegular, EndsAreRecorded, EndsAreTold};
ghost use Rattle.sc_world.specs.Operations.{IsMeeting};
ghost use Rattle.sc_world.specs.Quorums.{IsQuorumPair};

/// A law: whatever the founders are, and whatever list of events was accepted, in which messages are lost, repeated
/// and reordered and nodes enter, leave and crash, the world that they lead to is regular, and the records of its
/// operations are true. What the next event tells of an operation that ends, also the view that it returns, is what the
/// operation's record then says. An operation whose record ends at that event is one that the event tells of, and its
/// node is the event's. And each message was sent by an event of the node that it names as its sender.
pub fn regular()
    ensures regular { (c : Config) (founders : List ℕ) (events : List WorldEvent) (w : WorldState) → Reaches (start c founders) events w → IsRegular w }
    ensures records { (c : Config) (founders : List ℕ) (events : List WorldEvent) (w : WorldState) → Reaches (start c founders) events w → AreRecords w }
    ensures answers { (c : Config) (founders : List ℕ) (events : List WorldEvent) (w : WorldState) → Reaches (start c founders) events w → EndsAreRecorded w }
    ensures told { (c : Config) (founders : List ℕ) (events : List WorldEvent) (w : WorldState) → Reaches (start c founders) events w → EndsAreTold w }
    ensures senders { (c : Config) (founders : List ℕ) (events : List WorldEvent) (w : WorldState) → Reaches (start c founders) events w → AreSent w }
{}

/// A law: where the acknowledgers of one operation and the repliers of another are quorums of one membership, `meets`
/// answers an id.
pub fn one_membership_meets()
    ensures { (num den : ℕ) (members : Ids) (a b : Op) (least : Option ℕ) → IsQuorumPair num den members a b → IsMeeting a b least → is_some least ≡ true }
{}
