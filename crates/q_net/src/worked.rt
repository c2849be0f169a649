//! Worked values of requests, of replies and of how requests end.

ghost use Rattle.std.specs.Prelude.{◌≡◌, ℕ, List, [], ◌∷◌, length, Option, Some, None, Ok, replicate};
ghost use Rattle.q_book.specs.State.{BookState};
ghost use Rattle.q_desk.specs.Desks.{answer_of};
ghost use Rattle.q_outside.specs.Counts.{Counts};
ghost use Rattle.q_outside.specs.declared.fault.TransportFailed.{TransportFailed};
ghost use Rattle.sc_msg.specs.declared.message.Message.{Message};
ghost use Rattle.sc_msg.specs.declared.version.Version.{Version};
ghost use Rattle.q_net.specs.Requests.{IsNext, IsRead, IsRequest, spelling};
ghost use Rattle.q_net.specs.Replies.{Registers, Replies, of_answer, reply_bytes, stop_number};
ghost use Rattle.q_net.specs.Serves.{IsLast, last_reply};
ghost use Rattle.q_net.specs.declared.incoming.Incoming.TheVariants as next;
ghost use Rattle.q_net.specs.declared.request.Request.TheVariants as request;
ghost use Rattle.q_net.specs.declared.request.StreamEnd.{StreamEnd};
ghost use Rattle.q_net.specs.declared.request.StreamEnd.TheVariants as stop;
ghost use Rattle.q_net.specs.declared.replies.Reply.{Reply};
ghost use Rattle.q_net.specs.declared.replies.Reply.TheVariants as reply;

/// What the definitions say at telling operands.
#[tactic(auto, unfolding(spelling::specs::Numbers::number_bytes))]
pub fn worked()
    ensures register { spelling (request.Register (7 ∷ 8 ∷ []) (9 ∷ [])) ≡ 1 ∷ 2 ∷ 0 ∷ 0 ∷ 0 ∷ 7 ∷ 8 ∷ 1 ∷ 0 ∷ 0 ∷ 0 ∷ 9 ∷ [] }
    ensures ask { spelling (request.Ask 0 7) ≡ 2 ∷ 0 ∷ 0 ∷ 0 ∷ 0 ∷ 7 ∷ 0 ∷ 0 ∷ 0 ∷ 0 ∷ 0 ∷ 0 ∷ 0 ∷ [] }
    ensures ask_a_program { spelling (request.Ask 258 0) ≡ 2 ∷ 2 ∷ 1 ∷ replicate 10 0 }
    ensures store { spelling (request.Store (replicate 48 9)) ≡ 3 ∷ replicate 48 9 }
    ensures store_of { spelling (request.StoreOf (7 ∷ 8 ∷ [])) ≡ 5 ∷ 2 ∷ 7 ∷ 8 ∷ [] }
    ensures store_of_no_byte { spelling (request.StoreOf []) ≡ 5 ∷ 0 ∷ [] }
    ensures answer { spelling (request.Answer 258) ≡ 4 ∷ 2 ∷ 1 ∷ 0 ∷ 0 ∷ 0 ∷ 0 ∷ 0 ∷ 0 ∷ [] }
    ensures program { reply_bytes (reply.Program 0) ≡ replicate 5 0 }
    ensures number { reply_bytes (reply.Number 0) ≡ replicate 9 0 }
    ensures open { reply_bytes reply.Open ≡ 0 ∷ 0 ∷ [] }
    ensures answered { reply_bytes (reply.Answer 1 3) ≡ 0 ∷ 1 ∷ 1 ∷ 0 ∷ 0 ∷ 0 ∷ 0 ∷ 0 ∷ 0 ∷ 0 ∷ 3 ∷ 0 ∷ 0 ∷ 0 ∷ 0 ∷ 0 ∷ 0 ∷ 0 ∷ [] }
    ensures refused { reply_bytes (reply.Refused 51) ≡ 51 ∷ [] }
    ensures unknown { stop_number stop.Unknown ≡ 84 }
    ensures cut { stop_number stop.Cut ≡ 85 }
    ensures long_text { stop_number stop.LongText ≡ 2 }
    ensures long_notes { stop_number stop.LongNotes ≡ 31 }
    ensures answer_of_that_query { (b c : BookState) (said : Reply) (sent : List Message) → Replies b (request.Answer 7) said sent c → said ≡ of_answer (answer_of b.desk 7) }
    ensures registers_all_bytes { (b c : BookState) (said : Reply) (sent : List Message) → Replies b (request.Register (7 ∷ []) (9 ∷ [])) said sent c → (r : _) × Registers b (7 ∷ []) (9 ∷ []) r c }
    ensures text_cut_short { (version : Version) → IsNext version (1 ∷ 2 ∷ 0 ∷ 0 ∷ 0 ∷ 7 ∷ 0 ∷ 0 ∷ 0 ∷ 0 ∷ []) next.Lost → ⊥ }
    ensures kind_alone { (version : Version) → IsLast version (3 ∷ []) None → ⊥ }
    ensures long_value { (version : Version) (value : List ℕ) → length value ≡ 113 → IsRequest version (request.StoreOf value) }
    ensures cut_in_a_value { (version : Version) → IsNext version (5 ∷ 2 ∷ 7 ∷ []) (next.Ended stop.Cut) }
    ensures fifth_kind { (version : Version) → IsNext version (5 ∷ []) (next.Ended stop.Unknown) → ⊥ }
    ensures cut_before_the_end { IsRead (Some (7 ∷ [])) (Some stop.Cut) → ⊥ }
    ensures told_at_the_end { last_reply (Some stop.Cut) ≡ 85 ∷ [] }
    ensures no_end_at_99 { (ended : Option StreamEnd) → last_reply ended ≡ 99 ∷ [] → ⊥ }
    ensures failed_write { Counts {A = Unit {0}} {E = TransportFailed} (Ok (tt {0})) 0 0 4 5 → ⊥ }
{}
