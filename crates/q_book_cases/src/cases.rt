//! The cases, and what comes of them.

ghost use Rattle.std.specs.Prelude.{◌≡◌, All};
ghost use Rattle.q_board.specs.BoardId.{board_id};

use crate::asker::{Asker, last_asker};
use crate::founder::{Founder, Served};
use crate::gate::holds_none_up;
use crate::many::right_answers;
use crate::muster::musters;
use crate::runner::{Runner, runners};
use crate::step::StepOutcome;
use q_board::{AskerSeat, Board, RunnerSeat};
use q_script::number;
use sc_msg::Version;
use std::alloc::Global;
use std::io;
use std::io::{ErrorKind, Write};
use std::sync::Wait;
use std::thread::Threads;
use std::time::Clock;

/// A founder, its seat and those of two runners at a board, and the requests that come next, with the places where a
/// read and a write fail.
#[derive(Drop)]
pub struct Cases<'b> {
    alloc: Global,
    founder: Option<Box<Founder>>,
    asker: Asker<'b>,
    runners: Vec<Runner<'b>>,
    input: Vec<u8>,
    read_limit: Option<usize>,
    write_limit: Option<usize>,
}

/// A number, or 0, and what stands behind it.
fn leading(words: &str) -> (u64, &str) {
    let (first, rest) = words.split_once(' ').unwrap_or((words, ""));
    (number(first).unwrap_or(0), rest)
}

/// Tells of requests that were served: the replies, how they ended, how many calls failed, and how many messages there
/// were.
fn tell_served<W: Write>(alloc: Global, out: &mut W, served: Option<&Served>) -> io::Result<()> {
    let Some(served) = served else {
        return Err(io::Error::from(ErrorKind::OutOfMemory));
    };
    let end = if served.has_ended {
        "ended"
    } else {
        "refused 86 TransportFailed"
    };
    let (reads, writes, messages) = (served.failed_reads, served.failed_writes, served.messages);
    let replies = hex::encode(alloc, served.replies.as_slice())?;
    writeln!(out, "replies {replies}")?;
    writeln!(out, "{end} failures {reads} {writes} messages {messages}")
}

/// Cases in these seats of a board, with no founder yet; none where there is no memory.
pub fn seated(
    alloc: Global,
    board: &Board,
    seats: Vec<AskerSeat>,
    runner_seats: Vec<RunnerSeat>,
) -> Option<Cases<'_>>
    requires askers { All (λ s. s.table ≡ board_id board.now) seats.items }
    requires runners { All (λ s. s.table ≡ board_id board.now) runner_seats.items }
{
    match (
        last_asker(board, seats),
        runners(alloc, board, runner_seats),
    ) {
        (Some(asker), Some(runners)) => Some(Cases {
            alloc,
            founder: None,
            asker,
            runners,
            input: Vec::new(alloc),
            read_limit: None,
            write_limit: None,
        }),
        _ => None,
    }
}

impl Cases<'_> {
    /// Takes a line, and writes what comes of it.
    pub fn take<R: Wait + Threads + Clock + Sync, W: Write>(
        &mut self,
        rt: &R,
        text: &str,
        out: &mut W,
    ) -> io::Result<()> {
        let (word, rest) = text.split_once(' ').unwrap_or((text, ""));
        match word {
            "--" => {
                self.founder = Founder::new(self.alloc).ok();
                self.input.clear();
                writeln!(out, "{text}")
            }
            "old" => {
                self.founder = Founder::of(self.alloc, Version::First).ok();
                Ok(())
            }
            "+" => self.add(1, rest),
            "*" => {
                let (count, digits) = leading(rest);
                self.add(count, digits)
            }
            "!" => {
                self.limit(rest);
                Ok(())
            }
            "serve" => self.serve_input(rt, out),
            _ => {
                let outcome = self.step(rt, word, rest);
                writeln!(out, "{text}: {outcome}")
            }
        }
    }

    /// Does a step with threads, or one of the book or of a runner.
    fn step<R: Wait + Threads + Clock + Sync>(
        &mut self,
        rt: &R,
        word: &str,
        rest: &str,
    ) -> StepOutcome {
        let (first, rest) = leading(rest);
        let (second, rest) = leading(rest);
        let third = number(rest).unwrap_or(0);
        let alloc = self.alloc;
        match word {
            "gate" => holds_none_up(rt, alloc, first as usize, second),
            "threads" => musters(rt, alloc, first as usize, second),
            "many" => right_answers(rt, alloc, first as usize, second as usize, third),
            "run" | "back" => self.runner_step(word, first, second),
            "pump" | "offer" | "receive" => self.asker_step(word, first),
            _ => self.book_step(word),
        }
    }

    /// Does a step of a runner, which is counted from 1.
    fn runner_step(&mut self, word: &str, number: u64, claims: u64) -> StepOutcome {
        match self.runners.get_mut((number as usize).wrapping_sub(1)) {
            Some(runner) if word == "run" => runner.run(),
            Some(runner) => runner.give_back(claims),
            None => StepOutcome::Nothing,
        }
    }

    /// Does a step of the asker.
    fn asker_step(&mut self, word: &str, place: u64) -> StepOutcome {
        match &mut self.founder {
            Some(founder) => self.asker.step(&mut founder.book, word, place as usize),
            None => StepOutcome::Nothing,
        }
    }

    /// Does a step of the book.
    fn book_step(&mut self, word: &str) -> StepOutcome {
        match &mut self.founder {
            Some(founder) => founder.step(word),
            None => StepOutcome::Nothing,
        }
    }

    /// Puts these bytes so many times behind the input.
    fn add(&mut self, count: u64, digits: &str) -> io::Result<()> {
        let Ok(bytes) = hex::decode(self.alloc, digits) else {
            return Err(io::Error::from(ErrorKind::InvalidInput));
        };
        for _ in 0..count {
            self.input.extend_from_slice(bytes.as_slice())?;
        }
        Ok(())
    }

    /// Sets where the next read or write fails.
    fn limit(&mut self, words: &str) {
        let (word, count) = words.split_once(' ').unwrap_or((words, ""));
        let limit = number(count).map(|count| count as usize);
        if word == "read" {
            self.read_limit = limit;
        } else {
            self.write_limit = limit;
        }
    }

    /// Serves the input, and tells what came of it.
    fn serve_input<R: Wait, W: Write>(&mut self, rt: &R, out: &mut W) -> io::Result<()> {
        let (reads, writes) = (self.read_limit.take(), self.write_limit.take());
        let served = match &mut self.founder {
            Some(founder) => founder.serve(rt, self.input.as_slice(), reads, writes).ok(),
            None => None,
        };
        self.input.clear();
        tell_served(self.alloc, out, served.as_ref())
    }
}
