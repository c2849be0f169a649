//! A board on which askers offer jobs, and runners claim, run and finish them, each in a thread of its own or not.
//!
//! A slot has a word, which shows in what state it is (`Found`), and a place for a job or a result (`Content`). Each
//! asker has a row of eight slots. A seat's view is what its holder has done (`Holder`). There is one rule (`Order`),
//! which six kinds of step keep: an asker publishes a job, looks at a word, takes a result; a runner tries to claim,
//! finishes a claim, gives one back. (Askers also take their slots and seats are cut while the board opens.)
//! [`accounted`] says of the rule where each job is. `specs/Phase` has the states of a slot, `specs/Rule` the rule,
//! `specs/Plays` what each step tells its seat, `specs/Account` where each job is.
//!
//! There is no lock: each change of a slot is one atomic step on its word, of those six kinds. What a call says of its
//! seat holds in every schedule. [`Board`] has the calls, [`AskerSeat`] and [`RunnerSeat`] are what a thread needs for
//! them, and [`Claim`] is the right to a job. Only [`Board::open`] takes memory.
//!
//! A runner's thread tries the slots of a board in turn, and runs and finishes each job that it claims: [`run_some`] is
//! its round, [`with_runners`] has the threads. The pump of a node carries results from its asker's row into its book,
//! and jobs from the book into the row: [`pump_once`]. A [`Gate`] is told of each run. `specs/Served` says what a round
//! makes of a runner's seat, and that each job that it finished passed the gate; `specs/Pumped` what the pump makes of
//! a row and a book, and `specs/Turns` of each turn. That a thread gets on is said nowhere.
//!
//! A seat is seen as the record of what its holder has done: `specs/AskerModel`, `specs/RunnerModel`; `specs/Calls`
//! says what each call makes of it.
//!
//! A caller, proved in `callers`: an asker offers a job, a runner runs it if it gets one, and the asker looks once.
//!
//! ```rust
//! pub fn offer_and_run(
//!     board: &Board,
//!     asker: &mut AskerSeat,
//!     runner: &mut RunnerSeat,
//!     block: &mut Block,
//!     job: Job,
//! ) -> Option<Done>
//!     requires boards { (asker.old.table ≡ board_id board.now) × (runner.old.table ≡ board_id board.now) }
//!     requires lanes { 8 * asker.old.number + 8 ≤ runner.old.lanes }
//!     ensures { IfSome result IsFinished }
//! {
//!     let Ok(slot) = board.offer(asker, job) else {
//!         return None;
//!     };
//!     if let Some(claim) = board.try_take(runner, slot) {
//!         let job = claim.job();
//!         let ran = run_fold(job.certified().certified(), job.view(), job.start(), block);
//!         board.finish(runner, claim, ran);
//!     }
//!     board.poll(asker, slot)
//! }
//! ```
#![tactic(auto)]

mod board;
mod cell;
mod claim;
mod drowsy;
mod fault;
mod found;
mod gate;
mod law;
mod pump;
mod rule;
mod runner;
mod runners;
mod seats;
mod view;
pub mod worked;
pub mod worked_runners;

pub use board::{Board, MOST_ASKERS, MOST_RUNNERS};
pub use claim::Claim;
pub use drowsy::Drowsy;
pub use fault::{OpenFault, RowFull};
pub use gate::{Gate, Open};
pub use law::accounted;
pub use pump::pump_once;
pub use runner::run_some;
pub use runners::with_runners;
pub use seats::{AskerSeat, ROW, RunnerSeat, Slot};
