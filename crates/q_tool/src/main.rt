//! The program `bqview`: hands the machine to [`run`], whose contract says what the program does.
//!
//! [`run`]: q_bqview::run
#![tactic(auto)]

use q_bqview::run;
use q_outside::{Counted, Folder};
use std::io::IsTerminal;
use std::process::ExitCode;
use std::{env, io};

fn main(rt: HostRuntime) -> ExitCode {
    let mut notes = rt.stderr();
    let mut files = Folder::new(&rt, notes.is_terminal());
    let mut out = Counted::new(io::writer(&rt));
    let given = env::args(&rt);
    ExitCode::from(run(&rt, rt.alloc(), given, &mut files, &mut out, &mut notes))
}
