//! Worked values of messages and their bytes.

ghost use Rattle.std.specs.Prelude.{◌≡◌, ℕ, List, length, [], ◌∷◌, Some, None, true, codes};
ghost use Rattle.std.specs.FinMap as fin;
ghost use Rattle.sc_view.specs.Values.{lengths};
ghost use Rattle.sc_msg.specs.Entries.{count_fault, id_fault};
ghost use Rattle.sc_msg.specs.Fault.{head_fault};
ghost use Rattle.sc_msg.specs.Kinds.{code, kind_at, kind_of, name_of};
ghost use Rattle.sc_msg.specs.Lengths.{has_values_within, view_of, MessageHasValuesWithin};
ghost use Rattle.sc_msg.specs.Messages.{message_bytes};
ghost use Rattle.sc_msg.specs.Values.{length_fault, value_bytes, value_fault, IsLength};
ghost use Rattle.sc_msg.specs.declared.fault.MessageFault.TheVariants as fault;
ghost use Rattle.sc_msg.specs.declared.kind.MessageKind.TheVariants as kind;
ghost use Rattle.sc_msg.specs.declared.message.Body.TheVariants as body;
ghost use Rattle.sc_msg.specs.declared.message.CollectReply.{CollectReply};
ghost use Rattle.sc_msg.specs.declared.message.StoreAck.{StoreAck};
ghost use Rattle.sc_msg.specs.declared.version.Version.TheVariants.{First, Second};

/// What the definitions say of kinds, of the messages by which node 3 enters and tells that node 7 joined or that it
/// knows of no store, of the values that messages tell, and of bytes that are none.
#[tactic(auto, unfolding(spelling::specs::Numbers::number_bytes, spelling::specs::Numbers::first_number))]
pub fn worked()
    ensures kind_of_join_echo { kind_of (body.JoinEcho 7) ≡ kind.JoinEcho }
    ensures kind_of_leave_echo { kind_of (body.LeaveEcho 7) ≡ kind.LeaveEcho }
    ensures kind_of_ack { (ack : StoreAck) → kind_of (body.StoreAck ack) ≡ kind.StoreAck }
    ensures fourth_byte { kind_at 9 ≡ Some kind.StoreEcho }
    ensures no_kind { kind_at 12 ≡ None }
    ensures last_kind { code kind.CollectReply ≡ 11 }
    ensures word { name_of kind.CollectQuery ≡ codes "collect-query" }
    ensures enter { message_bytes First (record { from = 3; body = body.Enter }) ≡ 66 ∷ 81 ∷ 1 ∷ 1 ∷ 3 ∷ 0 ∷ 0 ∷ 0 ∷ 0 ∷ 0 ∷ 0 ∷ 0 ∷ [] }
    ensures join_echo { message_bytes First (record { from = 3; body = body.JoinEcho 7 }) ≡ 66 ∷ 81 ∷ 1 ∷ 4 ∷ 3 ∷ 0 ∷ 0 ∷ 0 ∷ 0 ∷ 0 ∷ 0 ∷ 0 ∷ 7 ∷ 0 ∷ 0 ∷ 0 ∷ 0 ∷ 0 ∷ 0 ∷ 0 ∷ [] }
    ensures store_echo { message_bytes First (record { from = 3; body = body.StoreEcho fin.empty }) ≡ 66 ∷ 81 ∷ 1 ∷ 9 ∷ 3 ∷ 0 ∷ 0 ∷ 0 ∷ 0 ∷ 0 ∷ 0 ∷ 0 ∷ 0 ∷ 0 ∷ [] }
    ensures second_enter { message_bytes Second (record { from = 3; body = body.Enter }) ≡ 66 ∷ 81 ∷ 2 ∷ 1 ∷ 3 ∷ 0 ∷ 0 ∷ 0 ∷ 0 ∷ 0 ∷ 0 ∷ 0 ∷ [] }
    ensures second_store_echo { message_bytes Second (record { from = 3; body = body.StoreEcho fin.empty }) ≡ 66 ∷ 81 ∷ 2 ∷ 9 ∷ 3 ∷ 0 ∷ 0 ∷ 0 ∷ 0 ∷ 0 ∷ 0 ∷ 0 ∷ 0 ∷ 0 ∷ [] }
    ensures value { value_bytes Second (5 ∷ 0 ∷ 7 ∷ []) ≡ 3 ∷ 5 ∷ 0 ∷ 7 ∷ [] }
    ensures no_bytes { value_bytes Second [] ≡ 0 ∷ [] }
    ensures view_of_reply { (reply : CollectReply) → view_of (body.CollectReply reply) ≡ Some reply.view }
    ensures view_of_ack { (ack : StoreAck) → view_of (body.StoreAck ack) ≡ None }
    ensures values_of_no_view { has_values_within (lengths 48 48) (record { from = 3; body = body.Enter }) ≡ true }
    ensures sender_0 { MessageHasValuesWithin (lengths 48 48) (record { from = 0; body = body.Enter }) }
    ensures first_lengths { IsLength First 48 × (IsLength First 47 → ⊥) × (IsLength First 49 → ⊥) }
    ensures second_lengths { IsLength Second 0 × IsLength Second 112 × (IsLength Second 113 → ⊥) }
    ensures long { (bytes : List ℕ) → length bytes ≡ 60001 → head_fault First bytes ≡ Some fault.TooLong }
    ensures cut { head_fault First (66 ∷ 81 ∷ 1 ∷ 1 ∷ 3 ∷ 0 ∷ 0 ∷ 0 ∷ 0 ∷ 0 ∷ 0 ∷ []) ≡ Some fault.Short }
    ensures other_version { head_fault First (66 ∷ 81 ∷ 2 ∷ 1 ∷ 3 ∷ 0 ∷ 0 ∷ 0 ∷ 0 ∷ 0 ∷ 0 ∷ 0 ∷ []) ≡ Some fault.BadHead }
    ensures this_version { head_fault Second (66 ∷ 81 ∷ 2 ∷ 1 ∷ 3 ∷ 0 ∷ 0 ∷ 0 ∷ 0 ∷ 0 ∷ 0 ∷ 0 ∷ []) ≡ None }
    ensures first_version { head_fault Second (66 ∷ 81 ∷ 1 ∷ 1 ∷ 3 ∷ 0 ∷ 0 ∷ 0 ∷ 0 ∷ 0 ∷ 0 ∷ 0 ∷ []) ≡ Some fault.BadHead }
    ensures other_kind { head_fault First (66 ∷ 81 ∷ 1 ∷ 12 ∷ 3 ∷ 0 ∷ 0 ∷ 0 ∷ 0 ∷ 0 ∷ 0 ∷ 0 ∷ []) ≡ Some fault.BadKind }
    ensures full { count_fault 256 (0 ∷ 1 ∷ []) ≡ None }
    ensures over_full { count_fault 256 (1 ∷ 1 ∷ []) ≡ Some fault.BadField }
    ensures id_twice { id_fault (Some 3) (3 ∷ 0 ∷ 0 ∷ 0 ∷ 0 ∷ 0 ∷ 0 ∷ 0 ∷ []) ≡ Some fault.Unsorted }
    ensures id_above { id_fault (Some 3) (4 ∷ 0 ∷ 0 ∷ 0 ∷ 0 ∷ 0 ∷ 0 ∷ 0 ∷ []) ≡ None }
    ensures longest { length_fault Second (112 ∷ []) ≡ None }
    ensures too_long { length_fault Second (113 ∷ []) ≡ Some fault.BadField }
    ensures untold { length_fault Second [] ≡ Some fault.Short }
    ensures value_cut { value_fault Second (2 ∷ 7 ∷ []) ≡ Some fault.Short }
    ensures value_ends { value_fault Second (1 ∷ 7 ∷ []) ≡ None }
{}
