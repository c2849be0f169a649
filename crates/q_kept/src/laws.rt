//! Laws of what is done under the lock, each the contract of a function that does nothing. Whoever needs one at a step
//! calls it there.

ghost use Rattle.std.specs.Prelude.{ℕ, List, Option, Result};
ghost use Rattle.sc_msg.specs.declared.message.Message.{Message as Said};
ghost use Rattle.q_desk.specs.declared.completed.Completed.{Completed};
ghost use Rattle.q_book.specs.State.{BookState};
ghost use Rattle.reasons.specs.declared.Reason.{Reason as Fault};
ghost use Rattle.q_board.specs.AskerModel.{AskerModel};
ghost use Rattle.q_held.specs.LiveNodes.{Asks, Hears, Leaves, Receives, Stores};
ghost use Rattle.q_held.specs.declared.live_node.LossReason.{LossReason};
ghost use Rattle.q_held.specs.declared.losses.LossCounts.{LossCounts as Counts};
ghost use Rattle.q_kept.specs.Recording.{Grows};
ghost use Rattle.q_kept.specs.Settling.{Pumps};

use crate::laws_recorder::books_grow;

/// The book grows by each call under the lock, so what its file holds is of its journal still.
pub fn held_books_grow()
    ensures received { (bytes : List ℕ) (b c : BookState) (had has : List Said) (l k : Counts) (ended : Option Completed) →
        Receives bytes b had l ended c has k → Grows b c }
    ensures heard { (bytes : List ℕ) (b c : BookState) (had has : List Said) (r : Result (Option Completed) LossReason) →
        Hears bytes b had r c has → Grows b c }
    ensures stored { (value : List ℕ) (b c : BookState) (had has : List Said) (r : Result ℕ Fault) →
        Stores value b had r c has → Grows b c }
    ensures asked { (program start : ℕ) (b c : BookState) (had has : List Said) (r : Result ℕ Fault) →
        Asks program start b had r c has → Grows b c }
    ensures left { (b c : BookState) (had has : List Said) (r : Result (Unit {0}) Fault) →
        Leaves b had r c has → Grows b c }
    ensures pumped { (a a' : AskerModel) (b b' : BookState) → Pumps a b a' b' → Grows b b' }
{
    books_grow();
}
