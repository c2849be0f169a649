//! The thread that asks again, and watches the limits of the book.

use crate::process::{NAP, Process};
use crate::start::Start;
use crate::watch::Watch;
use q_doors::Post;
use q_kept::{JournalFile, Letter};
use std::alloc::Global;
use std::io::Eprint;
use std::sync::Wait;
use std::thread;
use std::time::{Clock, Duration};

/// What is to be sent at a look: what waits since memory was short, and what goes again.
#[derive(Drop)]
struct ToSend {
    waiting: Option<Vec<Letter>>,
    again: Vec<Letter>,
}

/// Looks once, under the lock.
fn look_once<R: Wait, P, J: JournalFile, S: Start>(
    process: &Process<'_, '_, R, P, J, S>,
    alloc: Global,
    watch: &mut Watch,
) -> ToSend {
    let mut own = process.own.lock(process.rt);
    let is_altered = own.look();
    let waiting = if own.is_behind() {
        own.settle(alloc)
    } else {
        None
    };
    watch.look(own.status(), own.ids(), own.is_mute(), is_altered);
    ToSend {
        waiting,
        again: own.again(alloc, process.nodes),
    }
}

/// Looks ten times a second until the threads are to end.
pub(crate) fn look_again<R, P, J, S>(process: &Process<'_, '_, R, P, J, S>, alloc: Global)
where
    R: Wait + Clock + Eprint,
    P: Post,
    J: JournalFile,
    S: Start,
{
    let mut watch = Watch::new();
    for _ in process.rt.forever() {
        thread::sleep(process.rt, Duration::from_millis(NAP));
        if process.is_over() {
            break;
        }
        let ToSend { waiting, again } = look_once(process, alloc, &mut watch);
        process.send_settled(waiting);
        process.send(again.as_slice());
        watch.report(process.rt);
    }
}
