//! What lines tell, and what is printed of it.

ghost use Rattle.std.specs.Prelude.{◌≡◌, ◌++◌, length, filter, IfOk, OnOk, string_bytes};
ghost use Rattle.q_nodes.specs.Lines.{answer_text, end_text, is_clean, is_refusal, is_unanswered, tally_of, text_of, texts_of};

use crate::fault::ClusterRunFault;
use q_history::{Answer, EventAnswer};
use q_session::Ran;
use q_table::ProgramId;
use q_told::print_told;
use std::alloc::{AllocError, Global};

/// What a line tells.
#[derive(Clone, Copy)]
pub enum Report {
    /// Why its call was refused, or why its bytes are no program.
    Refused(ClusterRunFault),
    /// The number of its program.
    Registered(ProgramId),
    /// The tag of its store.
    Stored {
        tag: u64,
        /// Whether the store has ended.
        ended: bool,
    },
    /// The number of its query.
    Asked {
        /// The node that was asked.
        node: u64,
        query: usize,
        /// The answer that is recorded, if there is one.
        answer: Option<Ran>,
    },
}

/// How many lines were not done.
#[derive(Clone, Copy)]
pub struct Tally {
    /// Those that were refused.
    pub refused: u64,
    /// Those whose store has not ended, or whose query has no answer.
    pub unanswered: u64,
}

impl Tally {
    /// How many of these lines were refused, and how many are unanswered.
    pub fn of(reports: &[Report]) -> Tally
        ensures { result ≡ tally_of reports.now }
    {
        Tally {
            refused: count_refused(reports) as u64,
            unanswered: count_unanswered(reports) as u64,
        }
    }

    /// Whether no line was refused or is unanswered.
    pub fn is_clean(self) -> bool
        ensures { result ≡ is_clean self }
    {
        self.refused == 0 && self.unanswered == 0
    }
}

impl Report {
    fn is_refusal(&self) -> bool
        ensures { result ≡ is_refusal self.now }
    {
        match self {
            Report::Refused(_) => true,
            Report::Registered(_) | Report::Stored { .. } | Report::Asked { .. } => false,
        }
    }

    fn is_unanswered(&self) -> bool
        ensures { result ≡ is_unanswered self.now }
    {
        match self {
            Report::Stored { ended, .. } => !*ended,
            Report::Asked { answer, .. } => answer.is_none(),
            Report::Refused(_) | Report::Registered(_) => false,
        }
    }
}

fn count_refused(reports: &[Report]) -> usize
    ensures { result ≡ length (filter is_refusal reports.now) }
{
    reports.iter().filter(|report| report.is_refusal()).count()
}

fn count_unanswered(reports: &[Report]) -> usize
    ensures { result ≡ length (filter is_unanswered reports.now) }
{
    reports
        .iter()
        .filter(|report| report.is_unanswered())
        .count()
}

/// Prints what comes behind the tag of a store.
fn print_end(text: &mut String, ended: bool) -> Result<(), AllocError>
    ensures { OnOk result (string_bytes text.new ≡ string_bytes text.old ++ end_text ended) }
{
    if ended {
        text.push_str("")
    } else {
        writeln!(text, "unanswered")
    }
}

/// Prints what comes behind the number of a query.
fn print_answer(
    text: &mut String,
    node: u64,
    query: usize,
    answer: Option<Ran>,
) -> Result<(), AllocError>
    ensures { OnOk result (string_bytes text.new ≡ string_bytes text.old ++ answer_text node query answer) }
{
    match answer {
        Some(ran) => print_told(text, &EventAnswer::Finished(Answer { node, query, ran })),
        None => writeln!(text, "unanswered"),
    }
}

/// Prints what a line tells.
fn print_report(text: &mut String, report: &Report) -> Result<(), AllocError>
    ensures { OnOk result (string_bytes text.new ≡ string_bytes text.old ++ text_of report.now) }
{
    match report {
        Report::Refused(fault) => writeln!(text, "{fault}"),
        Report::Registered(program) => print_told(text, &EventAnswer::Registered(*program)),
        Report::Stored { tag, ended } => {
            print_told(text, &EventAnswer::Stored(*tag))?;
            print_end(text, *ended)
        }
        Report::Asked {
            node,
            query,
            answer,
        } => {
            print_told(text, &EventAnswer::Asked(*query))?;
            print_answer(text, *node, *query, *answer)
        }
    }
}

/// The lines that are printed of these reports, one after the other. The one error is that memory ran out.
pub fn texts(alloc: Global, reports: &[Report]) -> Result<String, AllocError>
    ensures { IfOk result (λ text. string_bytes text ≡ texts_of reports.now) }
{
    let mut text = String::new(alloc);
    for report in reports {
        print_report(&mut text, report)?;
    }
    Ok(text)
}
