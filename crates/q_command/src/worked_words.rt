//! Worked values of what words say.

ghost use Rattle.std.specs.Prelude.{◌≡◌, ℕ, List, [], ◌∷◌, Bool, Some, None, Ok, true, false, codes, map, option_map};
ghost use Rattle.std.specs.IoError.{error_kind};
ghost use Rattle.std.specs.declared.io.ErrorKind.TheVariants as kind;
ghost use Rattle.clap.specs.Words.{Row, fault_of, first_of, subcommand_of};
ghost use Rattle.clap.specs.declared.error.kind.ErrorKind.TheVariants as clap_kind;
ghost use Rattle.bq_range.specs.Interval.{Interval};
ghost use Rattle.q_script.specs.Words.{IsNumeral};
ghost use Rattle.q_command.specs.Words.{AreGiven, AreOverProgram, HasCommand, HasLineFault, HasNode, HasProgram, IsMet, IsRunners, Reads, TellsUngiven, bqview, exit_status, form_of, is_given, is_strict, operand_of, operands_of};
ghost use Rattle.q_command.specs.declared.words.ProgramForm.TheVariants as form;
ghost use Rattle.q_command.specs.declared.words.FileCommand.TheVariants as line;
ghost use Rattle.q_command.specs.declared.words.Invocation.TheVariants as invocation;
ghost use Rattle.q_command.specs.declared.words.WordsFault.TheVariants as fault;

/// Which command each word names, with its operands and its flag, and which numbers are the lengths of records. No two
/// words name the same. What the system says where it gives no words.
#[tactic(auto, unfolding(clap::proofs::OnLiterals::clap_on_literals))]
pub fn worked()
    ensures asm { (rows : List Row) (file : _) → file.now ≡ operand_of (codes "FILE") rows → HasCommand (line.Asm file) (codes "asm", rows) }
    ensures dis { (rows : List Row) (file : _) → file.now ≡ operand_of (codes "FILE") rows → HasCommand (line.Dis file) (codes "dis", rows) }
    ensures dis_is_no_asm { (rows : List Row) (file : _) → HasCommand (line.Asm file) (codes "dis", rows) → ⊥ }
    ensures check { (rows : List Row) (file held lengths states notes : _) → HasProgram file held lengths rows → states ≡ is_given (codes "states") rows → option_map (λ name. name.now) notes ≡ first_of (codes "notes") rows → ¬ (AreOverProgram rows) → HasCommand (line.Check file held lengths states notes) (codes "check", rows) }
    ensures check_is_no_asm { (rows : List Row) (file : _) → HasCommand (line.Asm file) (codes "check", rows) → ⊥ }
    ensures run { (rows : List Row) (file held start records lengths : _) → HasProgram file held lengths rows → IsNumeral (operand_of (codes "START") rows) start → records.now ≡ operand_of (codes "RECORDS") rows → HasCommand (line.Run file held start records lengths) (codes "run", rows) }
    ensures run_over_the_records { (rows : List Row) (file held start records lengths : _) → HasCommand (line.Run file held start records lengths) (codes "run", rows) → records.now ≡ operand_of (codes "RECORDS") rows }
    ensures bytes { option_map (λ met. form_of met.1) (subcommand_of bqview (codes "bqview" ∷ codes "check" ∷ codes "--bytes" ∷ codes "a" ∷ [])) ≡ Some form.Bytes }
    ensures text { option_map (λ met. form_of met.1) (subcommand_of bqview (codes "bqview" ∷ codes "check" ∷ codes "a" ∷ [])) ≡ Some form.Text }
    ensures notes { option_map (λ met. first_of (codes "notes") met.1) (subcommand_of bqview (codes "bqview" ∷ codes "check" ∷ codes "--notes" ∷ codes "b" ∷ codes "a" ∷ [])) ≡ Some (Some (codes "b")) }
    ensures no_notes { option_map (λ met. first_of (codes "notes") met.1) (subcommand_of bqview (codes "bqview" ∷ codes "check" ∷ codes "a" ∷ [])) ≡ Some None }
    ensures notes_over_program { (rows : List Row) (file held lengths states notes : _) → AreOverProgram rows → HasCommand (line.Check file held lengths states notes) (codes "check", rows) → ⊥ }
    ensures bad_lengths { (rows : List Row) (command least most : _) → HasLineFault (fault.BadLengths command least most) (codes "run", rows) → (command.now ≡ codes "run") × (least.now ≡ operand_of (codes "least") rows) }
    ensures least { (rows : List Row) (lengths : Interval) → AreGiven rows lengths → IsNumeral (operand_of (codes "least") rows) lengths.lo }
    ensures most { (rows : List Row) (lengths : Interval) → AreGiven rows lengths → IsNumeral (operand_of (codes "most") rows) lengths.hi }
    ensures sim { (rows : List Row) (script : _) (strict : Bool) → script.now ≡ operand_of (codes "SCRIPT") rows → strict ≡ is_given (codes "strict") rows → HasCommand (line.Sim script strict) (codes "sim", rows) }
    ensures cluster { (rows : List Row) (script : _) (strict : Bool) → script.now ≡ operand_of (codes "SCRIPT") rows → strict ≡ is_given (codes "strict") rows → IsMet (invocation.Cluster script strict) (codes "cluster", rows) }
    ensures cluster_is_no_sim { (rows : List Row) (script : _) (strict : Bool) → IsMet (invocation.Cluster script strict) (codes "sim", rows) → ⊥ }
    ensures sim_is_no_cluster { (rows : List Row) (script : _) (strict : Bool) → IsMet (invocation.FileCommand (line.Sim script strict)) (codes "cluster", rows) → ⊥ }
    ensures strict { option_map (λ met. is_given (codes "strict") met.1) (subcommand_of bqview (codes "bqview" ∷ codes "sim" ∷ codes "--strict" ∷ codes "a" ∷ [])) ≡ Some true }
    ensures not_strict { option_map (λ met. is_given (codes "strict") met.1) (subcommand_of bqview (codes "bqview" ∷ codes "cluster" ∷ codes "a" ∷ [])) ≡ Some false }
    ensures strict_sim { (script : _) (strict : Bool) → is_strict (line.Sim script strict) ≡ strict }
    ensures audits_are_not_strict { (journal : _) → is_strict (line.Audit journal) ≡ false }
    ensures audit { (rows : List Row) (journal : _) → journal.now ≡ operand_of (codes "JOURNAL") rows → HasCommand (line.Audit journal) (codes "audit", rows) }
    ensures gather { (rows : List Row) (journals : _) (pairs : Bool) → map (λ name. name.now) journals.items ≡ operands_of (codes "JOURNAL") rows → pairs ≡ is_given (codes "pairs") rows → IsMet (invocation.Gather journals pairs) (codes "gather", rows) }
    ensures gather_is_no_audit { (rows : List Row) (journals : _) (pairs : Bool) → IsMet (invocation.Gather journals pairs) (codes "audit", rows) → ⊥ }
    ensures journals { option_map (λ met. operands_of (codes "JOURNAL") met.1) (subcommand_of bqview (codes "bqview" ∷ codes "gather" ∷ codes "b" ∷ codes "a" ∷ codes "b" ∷ [])) ≡ Some (codes "b" ∷ codes "a" ∷ codes "b" ∷ []) }
    ensures pairs { option_map (λ met. is_given (codes "pairs") met.1) (subcommand_of bqview (codes "bqview" ∷ codes "gather" ∷ codes "a" ∷ codes "--pairs" ∷ [])) ≡ Some true }
    ensures no_pairs { option_map (λ met. is_given (codes "pairs") met.1) (subcommand_of bqview (codes "bqview" ∷ codes "gather" ∷ codes "a" ∷ [])) ≡ Some false }
    ensures node { (rows : List Row) (line : _) → HasNode line rows → IsMet (invocation.Node line) (codes "node", rows) }
    ensures node_is_no_client { (rows : List Row) (line : _) → IsMet (invocation.Node line) (codes "client", rows) → ⊥ }
    ensures id { option_map (λ met. operand_of (codes "ID") met.1) (subcommand_of bqview (codes "bqview" ∷ codes "node" ∷ codes "a" ∷ codes "7" ∷ codes "--clients" ∷ codes "b" ∷ codes "--journal" ∷ codes "c" ∷ [])) ≡ Some (codes "7") }
    ensures clients { option_map (λ met. operand_of (codes "clients") met.1) (subcommand_of bqview (codes "bqview" ∷ codes "node" ∷ codes "a" ∷ codes "7" ∷ codes "--clients" ∷ codes "b" ∷ codes "--journal" ∷ codes "c" ∷ [])) ≡ Some (codes "b") }
    ensures two_runners { option_map (λ met. operand_of (codes "runners") met.1) (subcommand_of bqview (codes "bqview" ∷ codes "node" ∷ codes "a" ∷ codes "7" ∷ codes "--clients" ∷ codes "b" ∷ codes "--journal" ∷ codes "c" ∷ [])) ≡ Some (codes "2") }
    ensures sync { option_map (λ met. is_given (codes "sync") met.1) (subcommand_of bqview (codes "bqview" ∷ codes "node" ∷ codes "a" ∷ codes "7" ∷ codes "--clients" ∷ codes "b" ∷ codes "--journal" ∷ codes "c" ∷ codes "--sync" ∷ [])) ≡ Some true }
    ensures resume { option_map (λ met. is_given (codes "resume") met.1) (subcommand_of bqview (codes "bqview" ∷ codes "node" ∷ codes "a" ∷ codes "7" ∷ codes "--clients" ∷ codes "b" ∷ codes "--journal" ∷ codes "c" ∷ codes "--resume" ∷ [])) ≡ Some true }
    ensures console { option_map (λ met. first_of (codes "console") met.1) (subcommand_of bqview (codes "bqview" ∷ codes "node" ∷ codes "a" ∷ codes "7" ∷ codes "--clients" ∷ codes "b" ∷ codes "--journal" ∷ codes "c" ∷ codes "--console" ∷ codes "d" ∷ [])) ≡ Some (Some (codes "d")) }
    ensures no_sync { option_map (λ met. is_given (codes "sync") met.1) (subcommand_of bqview (codes "bqview" ∷ codes "node" ∷ codes "a" ∷ codes "7" ∷ codes "--clients" ∷ codes "b" ∷ codes "--journal" ∷ codes "c" ∷ [])) ≡ Some false }
    ensures a_journal_is_demanded { fault_of bqview (codes "bqview" ∷ codes "node" ∷ codes "a" ∷ codes "7" ∷ codes "--clients" ∷ codes "b" ∷ []) ≡ clap_kind.MissingRequiredArgument ∷ [] }
    ensures clients_are_demanded { fault_of bqview (codes "bqview" ∷ codes "node" ∷ codes "a" ∷ codes "7" ∷ codes "--journal" ∷ codes "c" ∷ []) ≡ clap_kind.MissingRequiredArgument ∷ [] }
    ensures no_runners { IsRunners (codes "0") 0 → ⊥ }
    ensures too_many_runners { IsRunners (codes "65") 65 → ⊥ }
    ensures bad_id { (rows : List Row) (id : _) → HasLineFault (fault.BadId id) (codes "node", rows) → id.now ≡ operand_of (codes "ID") rows }
    ensures bad_runners { (rows : List Row) (runners : _) → HasLineFault (fault.BadRunners runners) (codes "node", rows) → runners.now ≡ operand_of (codes "runners") rows }
    ensures client { (rows : List Row) (place script : _) (strict : Bool) → place.now ≡ operand_of (codes "ADDR") rows → script.now ≡ operand_of (codes "SCRIPT") rows → strict ≡ is_given (codes "strict") rows → IsMet (invocation.Client place script strict) (codes "client", rows) }
    ensures client_is_no_cluster { (rows : List Row) (place script : _) (strict : Bool) → IsMet (invocation.Client place script strict) (codes "cluster", rows) → ⊥ }
    ensures place { option_map (λ met. operand_of (codes "ADDR") met.1) (subcommand_of bqview (codes "bqview" ∷ codes "client" ∷ codes "a" ∷ codes "b" ∷ [])) ≡ Some (codes "a") }
    ensures client_script { option_map (λ met. operand_of (codes "SCRIPT") met.1) (subcommand_of bqview (codes "bqview" ∷ codes "client" ∷ codes "--strict" ∷ codes "a" ∷ codes "b" ∷ [])) ≡ Some (codes "b") }
    ensures not_utf8 { (error : _) → error_kind error ≡ kind.InvalidData → TellsUngiven error fault.NotUtf8 }
    ensures no_memory { (error : _) → error_kind error ≡ kind.OutOfMemory → TellsUngiven error fault.OutOfMemory }
    ensures no_memory_is_told_as_such { (error : _) → error_kind error ≡ kind.OutOfMemory → TellsUngiven error fault.NotUtf8 → ⊥ }
    ensures not_utf8_status { exit_status fault.NotUtf8 ≡ 2 }
    ensures no_memory_status { exit_status fault.OutOfMemory ≡ 1 }
{}

/// What whole command lines are read as: no word stands in another's place, and no flag is lost.
#[tactic(auto, unfolding(clap::proofs::OnLiterals::clap_on_literals))]
pub fn worked_lines()
    // A client finds its node at the first word, and not at that of its script; it is strict where that is asked.
    ensures place { (place script : _) (strict : Bool)
        → Reads (codes "bqview" ∷ codes "client" ∷ codes "a" ∷ codes "b" ∷ []) (Ok (invocation.Client place script strict))
        → place.now ≡ codes "a" }
    ensures strict_client { (place script : _)
        → Reads (codes "bqview" ∷ codes "client" ∷ codes "--strict" ∷ codes "a" ∷ codes "b" ∷ [])
        (Ok (invocation.Client place script false)) → ⊥ }

    // A node writes its journal to the file that `--journal` names, and not over the file of the cluster.
    ensures journal { (line : _)
        → Reads (codes "bqview" ∷ codes "node" ∷ codes "a" ∷ codes "7" ∷ codes "--clients" ∷ codes "b"
        ∷ codes "--journal" ∷ codes "c" ∷ []) (Ok (invocation.Node line))
        → line.journal.now ≡ codes "c" }

    // It keeps its journal on the disk where that is asked, and runs programs by no more than 64 threads.
    ensures sync { (line : _)
        → Reads (codes "bqview" ∷ codes "node" ∷ codes "a" ∷ codes "7" ∷ codes "--clients" ∷ codes "b"
        ∷ codes "--journal" ∷ codes "c" ∷ codes "--sync" ∷ []) (Ok (invocation.Node line))
        → line.sync ≡ true }
    ensures sixty_four { IsRunners (codes "64") 64 }
    ensures sixty_five { (line : _)
        → Reads (codes "bqview" ∷ codes "node" ∷ codes "a" ∷ codes "7" ∷ codes "--clients" ∷ codes "b"
        ∷ codes "--journal" ∷ codes "c" ∷ codes "--runners" ∷ codes "65" ∷ []) (Ok (invocation.Node line)) → ⊥ }
{}
