//! Worked values of what a node says, and of how its run ends.

ghost use Rattle.std.specs.Prelude.{◌≡◌, ◌++◌, ◌∷◌, ℕ, List, [], Option, Some, Ok, true, codes, length};
ghost use Rattle.reasons.specs.Table as table;
ghost use Rattle.reasons.specs.declared.Reason.TheVariants as reasons;
ghost use Rattle.q_script.specs.declared.file.ClusterFile.{ClusterFile as File};
ghost use Rattle.q_script.specs.declared.fault.ClusterFileFault.TheVariants as cluster_fault;
ghost use Rattle.q_kept.specs.declared.fault.Unrecorded.TheVariants as unrecorded;
ghost use Rattle.q_kept.specs.Sample.{leave};
ghost use Rattle.q_told.specs.declared.refusal.RefusalPlace.TheVariants as place;
ghost use Rattle.q_book.specs.State.{BookState};
ghost use Rattle.q_book.specs.Replays.{IsBookOf};
ghost use Rattle.q_node.specs.Console as console;
ghost use Rattle.q_node.specs.Console.{IsSaidTo, IsSaidToLeave, command_of, said_line, status_line};
ghost use Rattle.q_node.specs.Faults.{IsUnbegun, place_of, reason};
ghost use Rattle.q_node.specs.Journal.{HoldsJournal, IsKept};
ghost use Rattle.q_journal.specs.declared.start.Resumed.{Resumed};
ghost use Rattle.q_replay.specs.declared.fault.ReplayFault.TheVariants as replay_fault;
ghost use Rattle.q_journal.specs.declared.fault.JournalFault.TheVariants as journal_fault;
ghost use Rattle.q_node.specs.Runs.{EndsRefused, IsJournal, IsWritten, first_of, front_of, status_of};
ghost use Rattle.q_told.specs.Printing.{journal_line};
ghost use Rattle.q_node.specs.declared.console.Command.TheVariants as command;
ghost use Rattle.q_node.specs.declared.console.Said.{Said as Told};
ghost use Rattle.q_node.specs.declared.console.Said.TheVariants as said;
ghost use Rattle.q_node.specs.declared.ending.NodeEnding.TheVariants as ending;
ghost use Rattle.q_node.specs.declared.fault.StartFault.TheVariants as fault;

/// The lines that are printed and read.
#[tactic(auto, unfolding(q_script::proofs::OnLiterals::digits_on_literals))]
pub fn worked()
    ensures status { status_line (record { joined = true; present = 3; events = 4142; queries = 82; underway = 0 }) ≡ codes "status joined true present 3 events 4142 of 65536 queries 82 of 4096 open 0\n" }
    ensures journal { journal_line 4142 ≡ codes "journal 4142 events\n" }
    ensures done { said_line said.Done ≡ codes "ok\n" }
    ensures refused { said_line (said.Refused reasons.Syntax) ≡ codes "refused 9 Syntax\n" }
    ensures leave { command_of (codes "leave") command.Leave }
    ensures no_other { command_of (codes "leave ") command.Leave → ⊥ }
    ensures not_unknown { command_of (codes "end") command.Unknown → ⊥ }
    ensures no_end { command_of (codes "stop") command.End → ⊥ }
    ensures nothing_to_end { (node : ℕ) (s : Told) → IsSaidTo node command.End s → ⊥ }
    ensures unknown { (node : ℕ) (s : Told) → IsSaidTo node command.Unknown s → s ≡ said.Refused reasons.Syntax }

    // A status tells events as events and queries as queries.
    ensures events { (b : BookState) → length b.desk.journal ≡ 4 → length b.desk.queries ≡ 1
        → (console.status_of b).events ≡ 4 }
    ensures queries { (b : BookState) → length b.desk.journal ≡ 4 → length b.desk.queries ≡ 1
        → (console.status_of b).queries ≡ 1 }

    // A leave is done where a book of the node took it, and that is the last event of its journal.
    ensures left { (node : ℕ) → IsSaidToLeave node said.Done
        → (b c : BookState) × IsBookOf node b × (c.desk.journal ≡ b.desk.journal ++ leave ∷ []) }
{}

/// How a run ends.
#[tactic(auto, unfolding(q_script::proofs::OnLiterals::digits_on_literals))]
pub fn worked_endings()
    ensures ended { (events : ℕ) → status_of (ending.Ended events) ≡ 0 }
    ensures mute { status_of (ending.Stopped unrecorded.Failed) ≡ 1 }
    ensures whole { (node : ℕ) (first given file : Option (List ℕ)) (events : ℕ) → IsJournal node first given file (ending.Ended events) → HoldsJournal node first file events }

    // The whole journal is not told of a file in which it does not stand, nor as one of another length.
    ensures unwritten { (node events : ℕ) → HoldsJournal node (Some []) (Some []) events → ⊥ }
    ensures counted { (node : ℕ) (first file : Option (List ℕ)) (holds : HoldsJournal node first file 3)
        → length holds.book.desk.journal ≡ 3 }
    ensures kept { (node events : ℕ) (first file : Option (List ℕ)) → IsKept node first file (Ok events)
        → HoldsJournal node first file events }

    // Where the output failed before, the last line alone is no end of a run, nor is nothing.
    ensures not_greeted { (node : ℕ) (greeting : List ℕ)
        → IsWritten node greeting (ending.Ended 3) (Some []) (Some (journal_line 3)) → ⊥ }
    ensures not_told { (node : ℕ) (greeting : List ℕ) → IsWritten node greeting (ending.Ended 3) (Some []) (Some []) → ⊥ }
    ensures untouched { (node : ℕ) (first given file : Option (List ℕ)) → IsJournal node first given file (ending.Refused fault.NoSuchNode) → file ≡ given }

    // A node that comes back says so first, with the number of its events and of the bytes that were cut; and its journal
    // is all that its file held, so nothing was there before it.
    ensures resumed { (r : Resumed) → length r.book.desk.journal ≡ 9 → r.cut ≡ 3 → front_of (Some r) (codes "node 1") ≡ codes "resumed 9 events cut 3 bytes\nnode 1" }
    ensures begins { front_of None (codes "node 1") ≡ codes "node 1" }
    ensures all_of_it { (r : Resumed) → first_of (Some r) (Some (7 ∷ [])) ≡ Some [] }
    ensures after_it { first_of {A = Resumed} None (Some (7 ∷ [])) ≡ Some (7 ∷ []) }
    ensures alone { (node : ℕ) (greeting after : List ℕ) → IsWritten node greeting (ending.Refused fault.NoSuchNode) (Some []) (Some after) → after ≡ codes "refused 81 NoSuchNode\n" }
    ensures line { (node : ℕ) (greeting after : List ℕ) → IsWritten node greeting (ending.Refused (fault.Cluster (cluster_fault.Syntax 3))) (Some []) (Some after) → after ≡ codes "refused 9 Syntax line 3\n" }
{}

/// Why a node does not begin.
pub fn worked_faults()
    ensures no_such_node { table.number (reason fault.NoSuchNode) ≡ 81 }
    ensures runners { table.number (reason fault.BadCount) ≡ 62 }
    ensures transport { table.number (reason fault.TransportFailed) ≡ 86 }
    ensures journal { table.number (reason (fault.Journal journal_fault.Failed)) ≡ 87 }
    ensures another_node { table.number (reason (fault.Journal journal_fault.OtherNode)) ≡ 49 }
    ensures no_event { place_of (fault.Journal (journal_fault.Journal (replay_fault.Form 3))) ≡ place.Event 3 }
    ensures unread { table.number (reason fault.FileFailed) ≡ 87 }
    ensures memory { table.number (reason fault.OutOfMemory) ≡ 99 }
    ensures line { place_of (fault.Cluster (cluster_fault.Syntax 3)) ≡ place.Line 3 }
    ensures not_unread { (before after : Option (List ℕ))
        → EndsRefused (fault.Cluster (cluster_fault.Syntax 3)) (ending.Refused fault.FileFailed) before after → ⊥ }
    ensures begins { (file : File) (id : ℕ) → IsUnbegun file id 2 fault.BadCount → ⊥ }
    ensures not_read { (file : File) (id runners : ℕ) → IsUnbegun file id runners fault.FileFailed → ⊥ }
{}
