//! Worked values of what the calls of a desk do.

ghost use Rattle.std.specs.Prelude.{◌≡◌, ℕ, List, [], ◌∷◌, length, true, Option, Some, None, Ok, Err};
ghost use Rattle.bq_range.specs.Interval.{Interval, between, single};
ghost use Rattle.bq_check.specs.Certificate.{Certificate};
ghost use Rattle.sc_msg.specs.declared.message.Message.{Message};
ghost use Rattle.sc_node.specs.State.{NodeState};
ghost use Rattle.sc_node.specs.declared.answer.Begun.{Begun};
ghost use Rattle.sc_operations.specs.declared.progress.OpResult.TheVariants as op_result;
ghost use Rattle.reasons.specs.declared.Reason.TheVariants as reasons;
ghost use Rattle.sc_view.specs.Views.{ViewMap};
ghost use Rattle.q_session.specs.Jobs.{job_over};
ghost use Rattle.q_session.specs.declared.query.Phase.TheVariants.{Collecting, Ready, Running, Answered};
ghost use Rattle.q_session.specs.declared.ran.Ran.{Ran};
ghost use Rattle.q_desk.specs.Desks as desk;
ghost use Rattle.q_desk.specs.Sample.{query};
ghost use Rattle.q_desk.specs.State.{DeskState, new_desk};
ghost use Rattle.q_desk.specs.declared.completed.Completed.TheVariants as completed;
ghost use Rattle.q_desk.specs.declared.journal.Call.TheVariants as call;
ghost use Rattle.q_desk.specs.declared.journal.Entry.TheVariants as entry;

/// What the definitions say at telling operands.
pub fn worked()
    // The journal goes on, up to its last entry.
    ensures noted { (s : DeskState) → desk.noted (record s { journal = entry.Call call.Leave ∷ [] }) (entry.Call call.HandOut) ≡ Ok (tt, record s { journal = entry.Call call.Leave ∷ entry.Call call.HandOut ∷ [] }) }
    ensures room { (s : DeskState) → length s.journal ≡ 65535 → desk.has_room s ≡ true }
    ensures no_room { (s : DeskState) → length s.journal ≡ 65536 → desk.noted s (entry.Call call.Leave) ≡ Err reasons.BookFull }

    // A call of the node is noted where the journal has room and the node accepts it. The desk is asked first.
    ensures noting { (s : DeskState) (n : NodeState) (outs : List Message) → desk.noting (record s { journal = [] }) (entry.Call call.Leave) (Ok (outs, n)) ≡ Ok (outs, (record s { journal = entry.Call call.Leave ∷ [] }, n)) }
    ensures not_noted { (s : DeskState) → desk.noting {A = Begun} (record s { journal = [] }) (entry.Call call.Leave) (Err reasons.Gone) ≡ Err reasons.Gone }
    ensures full_first { (s : DeskState) → length s.journal ≡ 65536 → desk.noting {A = Begun} s (entry.Call call.Leave) (Err reasons.Gone) ≡ Err reasons.BookFull }

    // Programs.
    ensures registered { (c : Certificate) → desk.registered (new_desk (single 64)) (record c { lengths = single 64 }) ≡ Ok (0, record { lengths = single 64; programs = record c { lengths = single 64 } ∷ []; queries = []; journal = entry.Call (call.Register (record c { lengths = single 64 })) ∷ [] }) }
    ensures wrong_bounds { (c : Certificate) → desk.registered (new_desk (between 16 128)) (record c { lengths = single 64 }) ≡ Err reasons.WrongBounds }
    ensures unknown { (c : Certificate) (l : Interval) → desk.asked (record (new_desk l) { programs = c ∷ [] }) 9 1 7 ≡ Err reasons.UnknownProgram }

    // Queries begin, and wait for their collects.
    ensures asked { (c : Certificate) (l : Interval) → desk.asked (record (new_desk l) { programs = c ∷ [] }) 9 0 7 ≡ Ok (0, record { lengths = l; programs = c ∷ []; queries = query 9 Collecting ∷ []; journal = entry.Call (call.Ask 0 7) ∷ [] }) }
    ensures too_many { (s : DeskState) → desk.knows s 0 ≡ true → length s.queries ≡ 4096 → desk.asked s 9 0 7 ≡ Err reasons.BookFull }
    ensures returned { (s : DeskState) (v : ViewMap) → desk.returned (record s { queries = query 8 Collecting ∷ query 9 Collecting ∷ [] }) 9 v ≡ (Some 1, record s { queries = query 8 Collecting ∷ query 9 (Ready v) ∷ [] }) }
    ensures stored { (s : DeskState) → desk.ends (Some (record { tag = 5; what = op_result.Stored })) s ≡ (None, s) }
    ensures completed { (query : Option ℕ) → desk.completed_by (Some (record { tag = 5; what = op_result.Stored })) query ≡ Some (completed.Stored 5) }

    // Jobs: the ready query with the least number is handed out, and runs.
    ensures handed_out { (c : Certificate) (v : ViewMap) (l : Interval) → desk.handed_out (record (new_desk l) { programs = c ∷ []; queries = query 8 (Running v) ∷ query 9 (Ready v) ∷ [] }) 3 ≡ Ok (Some (job_over 3 1 (query 9 (Ready v)) c v), record { lengths = l; programs = c ∷ []; queries = query 8 (Running v) ∷ query 9 (Running v) ∷ []; journal = entry.Call call.HandOut ∷ [] }) }
    ensures running { (c : Certificate) (v : ViewMap) (l : Interval) → desk.running_job (record (new_desk l) { programs = c ∷ []; queries = query 8 (Ready v) ∷ query 9 (Running v) ∷ [] }) 3 1 ≡ Some (record { node = 3; query = 1; program = 0; start = 7; certified = c; view = v }) }
    ensures not_running { (c : Certificate) (v : ViewMap) (l : Interval) → desk.running_job (record (new_desk l) { programs = c ∷ []; queries = query 8 (Ready v) ∷ query 9 (Running v) ∷ [] }) 3 0 ≡ None }

    // Answers.
    ensures answer { (s : DeskState) (v : ViewMap) (ran : Ran) → desk.answer_of (record s { queries = query 8 Collecting ∷ query 9 (Answered v ran) ∷ [] }) 1 ≡ Ok (Some ran) }
    ensures no_answer { (s : DeskState) (v : ViewMap) (ran : Ran) → desk.answer_of (record s { queries = query 8 Collecting ∷ query 9 (Answered v ran) ∷ [] }) 0 ≡ Ok None }
    ensures no_query { (s : DeskState) → desk.answer_of (record s { queries = query 8 Collecting ∷ [] }) 1 ≡ Err reasons.NoSuchQuery }
{}
