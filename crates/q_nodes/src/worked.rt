//! Worked values of refusals, of lines, of scripts and of endings.

ghost use Rattle.std.specs.Prelude.{◌≡◌, ℕ, true, false, List, [], ◌∷◌, codes, Option, Some, None, Ok, Err, Vec};
ghost use Rattle.std.specs.declared.alloc.Global.{Global};
ghost use Rattle.reasons.specs.Table as table;
ghost use Rattle.bq_check.specs.Certificate.{Certificate};
ghost use Rattle.sc_msg.specs.declared.version.Version.TheVariants as version;
ghost use Rattle.sc_node.specs.declared.answer.Begun.{Begun as Started};
ghost use Rattle.q_session.specs.declared.query.Query.{Query};
ghost use Rattle.q_session.specs.declared.ran.Ran.{Ran};
ghost use Rattle.q_desk.specs.Desks.{answer_in};
ghost use Rattle.q_book.specs.State.{BookState};
ghost use Rattle.q_book.specs.Books.{registered, stored};
ghost use Rattle.reasons.specs.declared.Reason.TheVariants as reasons;
ghost use Rattle.q_cluster.specs.Acts.{book_at};
ghost use Rattle.q_outside.specs.declared.files.FileFault.TheVariants as file;
ghost use Rattle.q_gather.specs.Gather.{Agree};
ghost use Rattle.q_gather.specs.declared.fault.GatherFault.TheVariants as gather;
ghost use Rattle.q_history.specs.Headline.{ClusterState};
ghost use Rattle.q_script.specs.declared.call_line.CallLine.TheVariants as line;
ghost use Rattle.q_script.specs.declared.founding.Founding.{Founding};
ghost use Rattle.q_script.specs.declared.script.ScriptFault.TheVariants as script_fault;
ghost use Rattle.q_script.specs.Line.{SpellsCall};
ghost use Rattle.q_script.specs.Records.{value_bytes};
ghost use Rattle.q_script.specs.Script.{IsScriptOf};
ghost use Rattle.sc_members.specs.Members.{AreFractions};
ghost use Rattle.q_told.specs.declared.refusal.Refusal.TheVariants as refusal;
ghost use Rattle.q_told.specs.declared.refusal.RefusalPlace.TheVariants as place;
ghost use Rattle.q_nodes.specs.Books.{BeginsStore, Registers};
ghost use Rattle.q_book.specs.Replays.{IsBookOf};
ghost use Rattle.q_nodes.specs.Faults as faults;
ghost use Rattle.q_nodes.specs.Lines.{ComesTo, IsNode, IsQueryOf, IsTold, refused_line, tally_of, text_of};
ghost use Rattle.q_nodes.specs.Runs.{IsRefusedAlone, IsTelling, IsWrittenFile, IsWrittenOf, failures_after, ids_to, status_of};
ghost use Rattle.q_nodes.specs.Scripts.{Fits, IsClusterScript, IsUnfit};
ghost use Rattle.q_nodes.specs.declared.ending.ClusterEnding.TheVariants as ending;
ghost use Rattle.q_nodes.specs.declared.fault.ClusterRunFault.{ClusterRunFault};
ghost use Rattle.q_nodes.specs.declared.fault.ClusterRunFault.TheVariants.{BadCount, TransportFailed, Script};
ghost use Rattle.q_nodes.specs.declared.outcome.Outcome.TheVariants as outcome;
ghost use Rattle.q_nodes.specs.declared.report.Report.{Report as Tells};
ghost use Rattle.q_nodes.specs.declared.report.Report.TheVariants as report;
ghost use Rattle.q_nodes.specs.declared.report.Tally.{Tally as Counts};
ghost use Rattle.q_nodes.specs.declared.script.ClusterScript.{ClusterScript};

/// As what refusals are told, and how runs end.
pub fn worked()
    // The numbers of refusals, and their places.
    ensures bad_count { table.number (faults.reason BadCount) ≡ 62 }
    ensures transport_failed { table.number (faults.reason TransportFailed) ≡ 86 }
    ensures no_such_node { table.number (faults.reason faults.no_such_node) ≡ 81 }
    ensures bad_founders { table.number (faults.reason faults.bad_founders) ≡ 49 }
    ensures out_of_memory { table.number (faults.reason faults.memory) ≡ 99 }
    ensures file_failed { table.number (faults.reason (Script refusal.FileFailed)) ≡ 87 }
    ensures bad_value { table.number (faults.reason (faults.of_fault reasons.BadValue)) ≡ 50 }
    ensures id_used { table.number (faults.reason (faults.of_gather gather.IdUsed)) ≡ 44 }
    ensures never_sent { table.number (faults.reason (faults.of_gather gather.NeverSent)) ≡ 82 }
    ensures at_a_line { faults.place (Script (refusal.Script (script_fault.Syntax 7))) ≡ place.Line 7 }
    ensures nowhere { faults.place BadCount ≡ place.Untold }

    // The nodes are counted from 1.
    ensures first { IsNode 3 1 }
    ensures last { IsNode 3 3 }
    ensures fourth { IsNode 3 4 → ⊥ }

    // The ids of the founders.
    ensures three { ids_to 3 ≡ 1 ∷ 2 ∷ 3 ∷ [] }

    // How many lines were refused, and how many are unanswered.
    ensures tally { tally_of (report.Refused BadCount ∷ report.Registered 0 ∷ report.Stored 3 false ∷ report.Stored 4 true ∷ report.Asked 1 0 None ∷ report.Asked 1 1 (Some (record { acc = 7; steps = 9 })) ∷ []) ≡ record { refused = 1; unanswered = 2 } }

    // The exit status, and how many calls of the writer failed.
    ensures gathered { status_of false (ending.Gathered (record { refused = 1; unanswered = 1 })) ≡ 0 }
    ensures strict { status_of true (ending.Gathered (record { refused = 0; unanswered = 0 })) ≡ 0 }
    ensures strict_refused { status_of true (ending.Gathered (record { refused = 1; unanswered = 0 })) ≡ 1 }
    ensures strict_unanswered { status_of true (ending.Gathered (record { refused = 0; unanswered = 1 })) ≡ 1 }
    ensures refused_run { status_of false (ending.Refused BadCount) ≡ 1 }
    ensures unwritten { status_of false ending.Unwritten ≡ 1 }
    ensures written { failures_after (ending.Refused BadCount) 7 ≡ 7 }
    ensures failed { failures_after ending.Unwritten 7 ≡ 8 }
{}

/// Which lines are printed.
#[tactic(auto, unfolding(q_script::proofs::OnLiterals::digits_on_literals))]
pub fn worked_texts()
    ensures refused { refused_line faults.no_such_node ≡ codes "refused 81 NoSuchNode\n" }
    ensures refused_count { refused_line BadCount ≡ codes "refused 62 BadCount\n" }
    ensures unended { text_of (report.Stored 3 false) ≡ codes "store 3\nunanswered\n" }
    ensures ended { text_of (report.Stored 3 true) ≡ codes "store 3\n" }
    ensures unanswered { text_of (report.Asked 1 0 None) ≡ codes "query 0\nunanswered\n" }
    ensures answered { text_of (report.Asked 1 0 (Some (record { acc = 7; steps = 9 }))) ≡ codes "query 0\nanswer 1 0 7 9\n" }
{}

/// What calls of books come to.
pub fn worked_calls()
    ensures no_such_store { (tag : ℕ) → ((b c : BookState) (a : Started) → IsBookOf 1 b → stored b (value_bytes 7) ≡ Ok (a, c) → ⊥) → BeginsStore 1 (value_bytes 7) (outcome.Stored tag) → ⊥ }
    ensures no_such_program { (program : Certificate) → ((b c : BookState) → IsBookOf 1 b → registered b program ≡ Ok (0, c) → ⊥) → Registers 1 program (outcome.Registered 0) → ⊥ }
{}

/// What lines tell.
pub fn worked_lines()
    ensures outside { (nodes node : ℕ) (value : Vec ℕ Global) (c : ClusterState) (r : Tells) → (IsNode nodes node → ⊥) → IsTold nodes c (line.Store node value) r → r ≡ report.Refused faults.no_such_node }
    ensures inside { (nodes node : ℕ) (value : Vec ℕ Global) (c : ClusterState) → IsNode nodes node → IsTold nodes c (line.Store node value) (report.Refused faults.no_such_node) → ⊥ }
    ensures answered { (nodes : ℕ) (c : ClusterState) (r : Ran) → IsTold nodes c (line.Ask 2 3 7) (report.Asked 2 0 (Some r)) → (q : Query) × IsQueryOf c 2 0 3 7 q × (Some r ≡ answer_in q.phase) }
    ensures another_program { (nodes : ℕ) (c : ClusterState) (b : BookState) (q : Query) (answer : Option Ran)
        → book_at c 2 ≡ Some b → b.desk.queries ≡ q ∷ [] → q.program ≡ 7
        → IsTold nodes c (line.Ask 2 3 7) (report.Asked 2 0 answer) → ⊥ }
    ensures another_line { (nodes tag : ℕ) (c : ClusterState) → IsTold nodes c (line.Ask 2 3 7) (report.Stored tag true) → ⊥ }
    ensures another_outcome { (nodes tag : ℕ) → ComesTo nodes (line.Ask 2 3 7) (outcome.Stored tag) → ⊥ }
{}

/// Of which books lines are told as of one cluster.
pub fn worked_books()
    // Of books of two versions they never are; and of a lone founder whose book agrees with its script, it is never
    // told that it does not gather.
    ensures ungathered { (s : ClusterScript) (b c : BookState) (t : Counts) (text : List ℕ)
        → b.version ≡ version.First → c.version ≡ version.Second → IsTelling s (b ∷ c ∷ []) t None text → ⊥ }
    ensures gathers { (s : ClusterScript) (b : BookState) (t : Counts) (text : List ℕ) → s.nodes ≡ 1
        → s.config ≡ b.config → s.lines.items ≡ [] → b.founders ≡ Some (1 ∷ []) → Agree (b ∷ [])
        → IsTelling s (b ∷ []) t (Some faults.bad_founders) text → ⊥ }
{}

/// Which scripts are taken, and how runs end.
pub fn worked_runs()
    ensures seventeen { (f : Founding) (s : ClusterScript) → f.count ≡ 17 → Fits f s → ⊥ }
    ensures none_founds { (f : Founding) (s : ClusterScript) → f.count ≡ 0 → Fits f s → ⊥ }
    ensures too_many { (f : Founding) → f.count ≡ 17 → AreFractions f.beta f.gamma → IsUnfit f BadCount }
    ensures sixteen { (f : Founding) → f.count ≡ 16 → IsUnfit f BadCount → ⊥ }
    ensures second_line { (f : Founding) → IsScriptOf SpellsCall (97 ∷ 10 ∷ 98 ∷ []) f [] → ⊥ }
    ensures refusal_is_told { (f : ClusterRunFault) (t : Counts) (before after : Option (List ℕ)) → IsRefusedAlone f (ending.Gathered t) before after → ⊥ }
    ensures no_script { (source : List ℕ) (t : Counts) (before after : Option (List ℕ)) → ((s : ClusterScript) → IsClusterScript source s → ⊥) → IsWrittenOf source (ending.Gathered t) before after → ⊥ }
    ensures no_file { (name source : List ℕ) (t : Counts) (before after : Option (List ℕ)) → IsWrittenFile (λ (old : ℕ) called read (new : ℕ). read ≡ Err file.Failed) name 0 0 source (ending.Gathered t) before after → ⊥ }
{}
