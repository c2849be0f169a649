//! The rule that holds between any two steps, and what each step tells its seat.

ghost use Rattle.q_board.specs.Rule.{Orderly, maker};
ghost use Rattle.q_board.specs.Plays.{took_home, published, looked, taken, tried, ended, given_back, next_maker, first_asker, first_runner};

use crate::cell::Content;
use crate::view::Holder;
use atomic_table::{Play, Split, TableRule};

/// The rule. Its key is the number of slots.
pub struct Order;

impl TableRule<Content, Holder, u64> for Order {
    ghost holds = { Orderly };

    ghost first = { λ lanes. maker lanes 0 };
}

/// An asker takes a slot of its own as the board opens.
pub struct TakeHome;

impl Play<Content, Holder> for TakeHome {
    ghost then = { took_home };
}

/// The publish store: an asker's job is ready.
pub struct Publish;

impl Play<Content, Holder> for Publish {
    ghost then = { published };
}

/// The look load of an asker.
pub struct See;

impl Play<Content, Holder> for See {
    ghost then = { looked };
}

/// The take exchange: an asker has the result that its look showed.
pub struct Take;

impl Play<Content, Holder> for Take {
    ghost then = { taken };
}

/// The claim exchange: a runner has the job, where the slot was ready.
pub struct Try;

impl Play<Content, Holder> for Try {
    ghost then = { tried };
}

/// The finish store: a claimed job's result waits for its asker.
pub struct Finish;

impl Play<Content, Holder> for Finish {
    ghost then = { ended };
}

/// The give-back store: a claimed job is ready again.
pub struct GiveBack;

impl Play<Content, Holder> for GiveBack {
    ghost then = { given_back };
}

/// An asker's seat is cut off as the board opens.
pub struct MakeAsker;

impl Split<Holder> for MakeAsker {
    ghost left = { next_maker };

    ghost right = { first_asker };
}

/// A runner's seat is cut off as the board opens.
pub struct MakeRunner;

impl Split<Holder> for MakeRunner {
    ghost left = { next_maker };

    ghost right = { first_runner };
}
