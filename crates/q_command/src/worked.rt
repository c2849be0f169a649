//! Worked values of what commands answer, refuse and tell.

ghost use Rattle.std.specs.Prelude.{◌≡◌, ◌++◌, ℕ, Bool, List, [], ◌∷◌, Option, Some, None, Ok, true, false, codes, replicate, IsUtf8};
ghost use Rattle.bq_asm.specs.Source.{IsSource};
ghost use Rattle.bq_insn.specs.declared.insn.Insn.{Insn};
ghost use Rattle.bq_insn.specs.declared.insn.Insn.TheVariants as insn;
ghost use Rattle.bq_range.specs.Interval.{Interval};
ghost use Rattle.q_desk.specs.Desks.{answer_in};
ghost use Rattle.q_outside.specs.Memory.{Reads, Writes, bytes_of, fails_next};
ghost use Rattle.q_outside.specs.declared.memory_files.MemoryFiles.{MemoryFiles as Memory};
ghost use Rattle.q_session.specs.declared.query.Query.{Query};
ghost use Rattle.q_told.specs.declared.refusal.Refusal.TheVariants as refused;
ghost use Rattle.q_command.specs.declared.words.FileCommand.{FileCommand};
ghost use Rattle.q_command.specs.declared.words.FileCommand.TheVariants as command;
ghost use Rattle.q_command.specs.declared.words.ProgramForm.TheVariants as form;
ghost use Rattle.bq_check.specs.Spelling.{notes_bytes};
ghost use Rattle.bq_check.specs.declared.form.NotesForm.TheVariants.{Second};
ghost use Rattle.bq_insn.specs.Slots.{spelling};
ghost use Rattle.bq_state.specs.Kinds.{StateKinds};
ghost use Rattle.q_command.specs.Advice.{IsToldOf};
ghost use Rattle.q_command.specs.Audit.{answer_lines};
ghost use Rattle.q_command.specs.Listing.{listing_of};
ghost use Rattle.q_command.specs.Perform.{Accepts, Answers, AnswersRun, Disassembles, Ends, IsProgram, IsUnaccepted, IsUnspelled, Refuses, RefusesFile, SavesNotes, Spells, acceptance, end_of, failures_after, status_of};
ghost use Rattle.q_command.specs.declared.check.Check.{Check as Checking};
ghost use Rattle.q_command.specs.declared.refused_command.RefusedCommand.{RefusedCommand};
ghost use Rattle.q_command.specs.declared.perform.CommandEnding.TheVariants as ending;

/// What the definitions say of programs, journals, answers, refusals and ends, over files in memory.
#[tactic(auto, unfolding(q_script::proofs::OnLiterals::digits_on_literals))]
pub fn worked()
    // Programs and their listings.
    ensures of_the_text { (source : List ℕ) (text : List Insn) → IsProgram source text → IsSource source text }
    ensures no_text { (source : List ℕ) → (IsUtf8 source → ⊥) → IsUnspelled form.Text source refused.OutOfMemory → ⊥ }
    ensures bytes_are_no_text { (source : List ℕ) → IsUnspelled form.Bytes source refused.FileFailed → ⊥ }
    ensures of_the_bytes { (text : List Insn) → Spells form.Bytes [] text → spelling text ≡ [] }
    ensures listed { listing_of (149 ∷ replicate 7 0) ≡ codes "9500000000000000\n" }

    // `dis` writes the assembler text of a program of which it is given the bytes, and does not read these as text.
    ensures disassembled { (lines : List ℕ) → Disassembles (149 ∷ replicate 7 0) lines → lines ≡ codes "exit\n" }
    ensures dis_is_of_bytes { (file command_refused : _) (old new : Memory) → file.now ≡ codes "a"
        → fails_next old.passing ≡ false → bytes_of old.files (codes "a") ≡ Some (149 ∷ replicate 7 0)
        → command_refused.refusal ≡ refused.FileFailed → Refuses Reads (command.Dis file) old command_refused new → ⊥ }

    // `check` reads the form that is asked for: of bytes those of a program, which it does not refuse as no text.
    ensures checked_as_bytes { (asked : Checking) (source lines : List ℕ) (unsaved : Bool) (old new : Memory)
        → asked.form ≡ form.Bytes → Accepts (Writes {X = Unit {0}}) asked source old lines unsaved new
        → (text : List Insn) × (source ≡ spelling text) }
    ensures not_checked_as_text { (lengths : Interval) (source : List ℕ)
        → IsUnaccepted form.Bytes lengths source refused.FileFailed → ⊥ }

    // What `check` tells and writes: states only where they are asked for, and that notes are not written.
    ensures accepted_alone { (text : List Insn) (notes : List (Option StateKinds))
        → acceptance false text notes 7 ≡ codes "accepted longest 7\n" }
    ensures accepted_with_states { acceptance true (insn.Exit ∷ []) (None ∷ []) 1
        ≡ codes "accepted longest 1\nunit 0: exit\n" }
    ensures unasked { (asked : Checking) (source lines : List ℕ) (unsaved : Bool) (old new : Memory)
        → asked.states ≡ false → asked.notes ≡ None
        → (h : Accepts (Writes {X = Unit {0}}) asked source old lines unsaved new)
        → h.longest ≡ 1 → lines ≡ codes "accepted longest 1\n" }
    ensures failed_is_unsaved { (old new : Memory) (name notes told : _)
        → SavesNotes (Writes {X = Unit {0}}) (Some name) notes told old (told ++ codes "refused 87 FileFailed\n") false new
        → ⊥ }
    ensures saved { (old new : Memory) (name notes told lines : _) → name.now ≡ codes "a" → SavesNotes (Writes {X = Unit {0}}) (Some name) notes told old lines false new → bytes_of new.files (codes "a") ≡ Some (notes_bytes Second notes) }
    ensures unsaved { (old new : Memory) (name notes told lines : _) → SavesNotes (Writes {X = Unit {0}}) (Some name) notes told old lines true new → lines ≡ told ++ codes "refused 87 FileFailed\n" }

    // Journals.
    ensures audited { (query : Query) → answer_in query.phase ≡ Some (record { acc = 5; steps = 9 }) → answer_lines 4 (query ∷ []) ≡ codes "answer 4 5 9\n" }

    // Answers and refusals.
    ensures records_of_their_file { (lengths : Interval) (program records lines : List ℕ) (start : ℕ) (old new : Memory) → AnswersRun (Reads 99) form.Text lengths program start records old lines false false new → (between : Memory) × (bytes : List ℕ) × Reads 99 between records (Ok bytes) new }
    ensures refused_bytes { (command_refused : RefusedCommand) (old new : Memory) → fails_next old.passing ≡ false → bytes_of old.files (codes "a") ≡ Some (255 ∷ []) → command_refused.refusal ≡ refused.FileFailed → RefusesFile (Reads 99) (IsUnspelled form.Text) (codes "a") old command_refused new → command_refused.bytes.items ≡ 255 ∷ [] }
    ensures no_advice_of_text { (told text : List ℕ) → IsUtf8 text → IsToldOf refused.FileFailed text (Some told) → ⊥ }

    // Ends.
    ensures written_once { (line : FileCommand) (old new : Memory) (out : List ℕ) → Ends Reads (Writes {X = Unit {0}}) line old (Some []) ending.Answered new (Some out) → (refused : Bool) × Answers Reads (Writes {X = Unit {0}}) line old out false refused new }
    ensures unsaved_first { (strict refused : Bool) → end_of strict true refused ≡ ending.Unsaved }
    ensures strict { end_of true false true ≡ ending.LineRefused }
    ensures not_strict { (refused : Bool) → end_of false false refused ≡ ending.Answered }
    ensures none_refused { (strict : Bool) → end_of strict false false ≡ ending.Answered }
    ensures after_a_refused_line { status_of ending.LineRefused ≡ 1 }
    ensures given_up { failures_after ending.Unwritten 4 ≡ 5 }
    ensures went_well { failures_after ending.Answered 4 ≡ 4 }
    ensures after_a_refusal { (command_refused : RefusedCommand) → status_of (ending.Refused command_refused) ≡ 1 }
{}
