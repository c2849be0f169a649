//! Worked values of a client's lines, requests, replies, steps and endings.

ghost use Rattle.std.specs.Prelude.{◌≡◌, ℕ, List, [], ◌∷◌, ◌++◌, codes, false, true, Option, Some, Ok};
ghost use Rattle.q_outside.specs.declared.files.FileFault.TheVariants as file_fault;
ghost use Rattle.q_net.specs.declared.replies.Reply.TheVariants as reply;
ghost use Rattle.q_net.specs.declared.request.Request.TheVariants as request;
ghost use Rattle.q_script.specs.Records.{record_lines};
ghost use Rattle.q_script.specs.declared.script.ScriptFault.TheVariants as script_fault;
ghost use Rattle.q_told.specs.Refusal.{refusal_of};
ghost use Rattle.q_told.specs.declared.refusal.Refusal.TheVariants as refusal;
ghost use Rattle.q_asker.specs.Exchanges.{Exchanges};
ghost use Rattle.q_asker.specs.Makes.{IsRegistration};
ghost use Rattle.q_asker.specs.Replies.{CanBe, MayReply, expected};
ghost use Rattle.q_asker.specs.Runs.{IsRefusedAlone, PrintsLost, status_of};
ghost use Rattle.q_asker.specs.Script.{AreLines, IsFault, SpellsLine};
ghost use Rattle.q_asker.specs.Steps.{AreOf, Exchanged, GaveUp, StepTells, Tells, all_done, heard_by, most_looks, sent_by};
ghost use Rattle.q_asker.specs.declared.ending.ClientEnding.TheVariants as ending;
ghost use Rattle.q_asker.specs.declared.replies.ReplyKind.TheVariants as kind;
ghost use Rattle.q_asker.specs.declared.script.ClientLine.TheVariants as line;

/// What the definitions say of telling lines, replies, steps and endings.
#[tactic(auto, unfolding(spelling::specs::Numbers::number_bytes, q_script::proofs::OnLiterals::digits_on_literals))]
pub fn worked()
    // Lines: no node stands in them, and an empty text has none.
    ensures stored { (value : _) → value.items ≡ 5 ∷ 255 ∷ [] → SpellsLine (codes "store x05fF") (line.Store value) }
    ensures asked { SpellsLine (codes "ask 3 7") (line.Ask 3 7) }
    ensures no_line { AreLines [] [] }

    // Replies: what a reply may be goes by its request.
    ensures look { expected (request.Answer 7) ≡ kind.Answer }
    ensures stores { expected (request.StoreOf []) ≡ kind.Number }
    ensures still_open { CanBe kind.Answer reply.Open }
    ensures open_store { CanBe kind.Number reply.Open → ⊥ }
    ensures number_of_a_program { CanBe kind.Program (reply.Number 7) → ⊥ }

    // What replies tell.
    ensures program { (text : List ℕ) → Tells (request.Register [] []) (reply.Program 3) text → text ≡ codes "program 3\n" }
    ensures tag { (text : List ℕ) → Tells (request.StoreOf []) (reply.Number 8) text → text ≡ codes "store 8\n" }
    ensures query { (text : List ℕ) → Tells (request.Ask 0 5) (reply.Number 2) text → text ≡ codes "query 2\n" }
    ensures answer { (text : List ℕ) → Tells (request.Answer 2) (reply.Answer 9 6) text → text ≡ codes "answer 2 9 6\n" }
    ensures no_answer { (text : List ℕ) → Tells (request.Answer 2) reply.Open text → text ≡ [] }
    ensures gave_up { (text : List ℕ) → StepTells GaveUp text → text ≡ codes "unanswered\n" }

    // A node with no place for a client says so in place of any reply.
    ensures no_place { MayReply (request.Register [] []) (reply.Refused 61) }
    ensures no_place_line { Tells (request.StoreOf []) (reply.Refused 61) (codes "refused 61 RowFull\n") }

    // Steps: what they send and hear, and that an ask is done only with its looks.
    ensures sent { sent_by (Exchanged (request.StoreOf (7 ∷ [])) (reply.Refused 50)) ≡ 5 ∷ 1 ∷ 7 ∷ [] }
    ensures heard { heard_by (Exchanged (request.StoreOf (7 ∷ [])) (reply.Refused 50)) ≡ 50 ∷ [] }
    ensures given_up_sends_nothing { sent_by GaveUp ≡ [] }
    ensures not_looked_for { AreOf (line.Ask 0 5) (Exchanged (request.Ask 0 5) (reply.Number 2) ∷ []) → ⊥ }
    ensures refused { all_done (Exchanged (request.Ask 0 5) (reply.Refused 51) ∷ []) ≡ false }
    ensures unanswered { all_done (GaveUp ∷ []) ≡ false }

    // The exit status.
    ensures done { status_of true (ending.Done true) ≡ 0 }
    ensures unclean { status_of false (ending.Done false) ≡ 0 }
    ensures strict { status_of true (ending.Done false) ≡ 1 }
    ensures lost { status_of false ending.Lost ≡ 1 }
{}

/// What the definitions say of lines and replies that are told wrongly, and of the last line of a run.
#[tactic(auto, unfolding(spelling::specs::Numbers::number_bytes, q_script::proofs::OnLiterals::digits_on_literals))]
pub fn worked_faults()
    // A text of one line is not refused at its second, and what is registered is the program's own bytes.
    ensures second_of_one { (source : List ℕ) → record_lines source ≡ codes "x" ∷ []
        → IsFault source (script_fault.Syntax 2) → ⊥ }
    ensures registered { (code text notes : List ℕ) → IsRegistration code (request.Register text notes) → text ≡ code }

    // A reply is that to a request which was written, and its numbers stand in their places.
    ensures unsent { (heard hearing : Option (List ℕ))
        → Exchanges (request.StoreOf (7 ∷ [])) (Some []) (Some []) heard hearing (Ok (reply.Refused 50)) → ⊥ }
    ensures answered { heard_by (Exchanged (request.Answer 2) (reply.Answer 1 3))
        ≡ 0 ∷ 1 ∷ 1 ∷ 0 ∷ 0 ∷ 0 ∷ 0 ∷ 0 ∷ 0 ∷ 0 ∷ 3 ∷ 0 ∷ 0 ∷ 0 ∷ 0 ∷ 0 ∷ 0 ∷ 0 ∷ [] }
    ensures looks { most_looks ≡ 1000 }

    // One refusal is enough, whatever comes behind it.
    ensures refused_before { all_done (Exchanged (request.Ask 0 5) (reply.Refused 51)
        ∷ Exchanged (request.StoreOf []) (reply.Number 8) ∷ []) ≡ false }

    // The last line of a run that does not come to its end.
    ensures lost { (after : List ℕ) → PrintsLost ending.Lost (Some []) (Some after)
        → after ≡ codes "refused 86 TransportFailed\n" }
    ensures refused { (after : List ℕ)
        → IsRefusedAlone refusal.FileFailed (ending.Refused refusal.FileFailed) (Some []) (Some after)
        → after ≡ codes "refused 87 FileFailed\n" }
    ensures failed_file { (before after : Option (List ℕ))
        → IsRefusedAlone (refusal_of file_fault.Failed) (ending.Refused refusal.OutOfMemory) before after → ⊥ }
{}
