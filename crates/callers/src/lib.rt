//! A small caller of each crate that others call first: what a caller has by the contracts alone. Most are proved with
//! no file of proof.
//!
//! The first line of a file names the crate that it calls. Its one function stands word for word on that crate's page;
//! `./check-documents` looks at that.
#![tactic(auto)]

mod asm;
mod board;
mod book;
mod check;
mod cluster;
mod insn;
mod net;
mod node;
mod replay;
mod run;
mod table;
mod verify;
mod view;

pub use asm::written_anew;
pub use board::offer_and_run;
pub use book::register_and_ask;
pub use check::safe_program;
pub use cluster::first_event;
pub use insn::instruction_at;
pub use net::serve_client;
pub use node::first_store;
pub use replay::book_again;
pub use run::run_once;
pub use table::table_of_one;
pub use verify::notes_if_any;
pub use view::learn;
