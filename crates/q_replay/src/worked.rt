//! Worked values of journals and of what is wrong with them.

ghost use Rattle.std.specs.Prelude.{◌≡◌, ◌++◌, [], ◌∷◌, ℕ, List, replicate, Some, None};
ghost use Rattle.bq_insn.specs.declared.insn.Insn.TheVariants as insn;
ghost use Rattle.bq_state.specs.Kinds.{state_of, all_lengths};
ghost use Rattle.bq_state.specs.declared.kind.Kind.TheVariants as kind;
ghost use Rattle.spelling.specs.Codes.{BeginsNone};
ghost use Rattle.sc_msg.specs.declared.version.Version.{Version};
ghost use Rattle.sc_msg.specs.declared.message.Body.TheVariants as body;
ghost use Rattle.sc_msg.specs.declared.version.Version.TheVariants.{First, Second};
ghost use Rattle.q_desk.specs.declared.journal.Call.TheVariants as call;
ghost use Rattle.q_desk.specs.declared.journal.Entry.TheVariants as entry;
ghost use Rattle.q_replay.specs.Head.{Head};
ghost use Rattle.q_replay.specs.Spelling.{head_bytes, IsHead, event_bytes, IsWritten};
ghost use Rattle.q_replay.specs.Journal.{entries_bytes};
ghost use Rattle.q_replay.specs.Replayed.{IsFault};
ghost use Rattle.q_replay.specs.declared.fault.ReplayFault.TheVariants.{Form};
ghost use Rattle.q_replay.specs.declared.raw_entry.RawEntry.TheVariants as written;

/// What the definitions say at telling operands: the bytes of entries, and that the event which is named is not one
/// that was taken.
#[tactic(auto, unfolding(spelling::specs::Numbers::number_bytes))]
pub fn worked()
    ensures entries { (version : Version) → entries_bytes version (entry.Call call.HandOut ∷ entry.Call call.Leave ∷ entry.Post 0 (record { acc = 1; steps = 3 }) ∷ []) ≡ 6 ∷ 0 ∷ 0 ∷ 0 ∷ 0 ∷ 1 ∷ 0 ∷ 0 ∷ 0 ∷ 0 ∷ 7 ∷ 0x18 ∷ 0 ∷ 0 ∷ 0 ∷ 0 ∷ 0 ∷ 0 ∷ 0 ∷ 0 ∷ 0 ∷ 0 ∷ 0 ∷ 1 ∷ 0 ∷ 0 ∷ 0 ∷ 0 ∷ 0 ∷ 0 ∷ 0 ∷ 3 ∷ 0 ∷ 0 ∷ 0 ∷ 0 ∷ 0 ∷ 0 ∷ 0 ∷ [] }
    ensures not_the_first { (h : Head) → IsHead h → IsFault (head_bytes h ++ (1 ∷ 0 ∷ 0 ∷ 0 ∷ 0 ∷ 9 ∷ [])) (Form 1) → ⊥ }
{}

/// What the definitions say of the bytes of a head and of events.
#[tactic(auto, unfolding(spelling::specs::Numbers::number_bytes, bq_insn::specs::Insn::unit_bytes))]
pub fn worked_bytes()
    ensures head_of_a_founder { head_bytes (record { version = Second; id = 1; config = record { beta_num = 4; beta_den = 5; gamma_num = 4; gamma_den = 5 }; founders = Some (1 ∷ []) }) ≡ 0x42 ∷ 0x51 ∷ 0x4a ∷ 2 ∷ 1 ∷ 0 ∷ 0 ∷ 0 ∷ 0 ∷ 0 ∷ 0 ∷ 0 ∷ 4 ∷ 0 ∷ 5 ∷ 0 ∷ 4 ∷ 0 ∷ 5 ∷ 0 ∷ 0 ∷ 1 ∷ 0 ∷ 1 ∷ 0 ∷ 0 ∷ 0 ∷ 0 ∷ 0 ∷ 0 ∷ 0 ∷ [] }
    ensures head_of_a_founder_v1 { head_bytes (record { version = First; id = 1; config = record { beta_num = 4; beta_den = 5; gamma_num = 4; gamma_den = 5 }; founders = Some (1 ∷ []) }) ≡ 0x42 ∷ 0x51 ∷ 0x4a ∷ 1 ∷ 1 ∷ 0 ∷ 0 ∷ 0 ∷ 0 ∷ 0 ∷ 0 ∷ 0 ∷ 4 ∷ 0 ∷ 5 ∷ 0 ∷ 4 ∷ 0 ∷ 5 ∷ 0 ∷ 0 ∷ 1 ∷ 0 ∷ 1 ∷ 0 ∷ 0 ∷ 0 ∷ 0 ∷ 0 ∷ 0 ∷ 0 ∷ [] }
    ensures leave { (version : Version) → event_bytes version written.Leave ≡ 1 ∷ 0 ∷ 0 ∷ 0 ∷ 0 ∷ [] }
    ensures register { (version : Version) → event_bytes version (written.Register (insn.Exit ∷ []) (None ∷ [])) ≡ 2 ∷ 17 ∷ 0 ∷ 0 ∷ 0 ∷ 8 ∷ 0 ∷ 0 ∷ 0 ∷ 0x95 ∷ 0 ∷ 0 ∷ 0 ∷ 0 ∷ 0 ∷ 0 ∷ 0 ∷ 1 ∷ 0 ∷ 0 ∷ 0 ∷ 0 ∷ [] }
    ensures register_a_state { event_bytes Second (written.Register (insn.Exit ∷ []) (Some (state_of (replicate 11 kind.Unset) all_lengths) ∷ [])) ≡ 2 ∷ 30 ∷ 0 ∷ 0 ∷ 0 ∷ 8 ∷ 0 ∷ 0 ∷ 0 ∷ 0x95 ∷ 0 ∷ 0 ∷ 0 ∷ 0 ∷ 0 ∷ 0 ∷ 0 ∷ 1 ∷ 0 ∷ 0 ∷ 0 ∷ 1 ∷ 16 ∷ 128 ∷ replicate 11 0 }
    ensures ask { (version : Version) → event_bytes version (written.Ask 0 7) ≡ 3 ∷ 12 ∷ 0 ∷ 0 ∷ 0 ∷ 0 ∷ 0 ∷ 0 ∷ 0 ∷ 7 ∷ 0 ∷ 0 ∷ 0 ∷ 0 ∷ 0 ∷ 0 ∷ 0 ∷ [] }
    ensures store { event_bytes Second (written.Store (7 ∷ 8 ∷ 9 ∷ [])) ≡ 4 ∷ 3 ∷ 0 ∷ 0 ∷ 0 ∷ 7 ∷ 8 ∷ 9 ∷ [] }
    ensures store_v1 { event_bytes First (written.Store (replicate 48 9)) ≡ 4 ∷ 48 ∷ 0 ∷ 0 ∷ 0 ∷ replicate 48 9 }
    ensures deliver { event_bytes Second (written.Deliver (record { from = 3; body = body.Enter })) ≡ 5 ∷ 12 ∷ 0 ∷ 0 ∷ 0 ∷ 0x42 ∷ 0x51 ∷ 2 ∷ 1 ∷ 3 ∷ 0 ∷ 0 ∷ 0 ∷ 0 ∷ 0 ∷ 0 ∷ 0 ∷ [] }
    ensures deliver_v1 { event_bytes First (written.Deliver (record { from = 3; body = body.Enter })) ≡ 5 ∷ 12 ∷ 0 ∷ 0 ∷ 0 ∷ 0x42 ∷ 0x51 ∷ 1 ∷ 1 ∷ 3 ∷ 0 ∷ 0 ∷ 0 ∷ 0 ∷ 0 ∷ 0 ∷ 0 ∷ [] }
    ensures hand_out { (version : Version) → event_bytes version written.HandOut ≡ 6 ∷ 0 ∷ 0 ∷ 0 ∷ 0 ∷ [] }
    ensures post { (version : Version) → event_bytes version (written.Post 0 1 3) ≡ 7 ∷ 0x18 ∷ 0 ∷ 0 ∷ 0 ∷ 0 ∷ 0 ∷ 0 ∷ 0 ∷ 0 ∷ 0 ∷ 0 ∷ 0 ∷ 1 ∷ 0 ∷ 0 ∷ 0 ∷ 0 ∷ 0 ∷ 0 ∷ 0 ∷ 3 ∷ 0 ∷ 0 ∷ 0 ∷ 0 ∷ 0 ∷ 0 ∷ 0 ∷ [] }

    // A third version is no head, a value of 3 bytes is none of version 1, a body has no further byte, and posts are
    // events.
    ensures another_version { (h : Head) (rest more : List ℕ) → 0x42 ∷ 0x51 ∷ 0x4a ∷ 3 ∷ more ≡ head_bytes h ++ rest → ⊥ }
    ensures short_value { IsWritten First (written.Store (7 ∷ 8 ∷ 9 ∷ [])) → ⊥ }
    ensures longer_body { (version : Version) (rest : List ℕ) → 1 ∷ 1 ∷ 0 ∷ 0 ∷ 0 ∷ 9 ∷ [] ≡ event_bytes version written.Leave ++ rest → ⊥ }
    ensures post_is_there { (version : Version) → BeginsNone (event_bytes version) (IsWritten version) (event_bytes version (written.Post 0 1 3)) → ⊥ }
{}
