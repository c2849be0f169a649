//! Events of a journal, each as the call that it names.

ghost use Rattle.std.specs.Prelude.{◌≡◌, Some, IfOk, IfErr, MatchBool};
ghost use Rattle.q_session.specs.Done.{IsFinished};
ghost use Rattle.q_desk.specs.Desks.{running_job};
ghost use Rattle.q_desk.specs.declared.journal.Entry.TheVariants as entry;
ghost use Rattle.q_replay.specs.Spelling.{IsWritten};
ghost use Rattle.q_replay.specs.Replayed.{IsAnswering};
ghost use Rattle.q_book.specs.Called.{IsNoted};
ghost use Rattle.q_replay.specs.Journal.{written_of, IsEntry};
ghost use Rattle.q_replay.specs.Taking.{Taking};
ghost use Rattle.q_replay.specs.declared.raw_entry.RawEntry.TheVariants as written;

use crate::raw_entry::RawEntry;
use crate::refusal::Refusal;
use bq_check::Notes;
use bq_flow::laws::one_longest;
use bq_frame::Block;
use bq_insn::Text;
use bq_meaning::laws::one_answer;
use q_book::{Book, Reply, record_lengths};
use q_desk::Call;
use q_session::Done;
use q_table::{Program, ProgramId};
use sc_msg::Message;
use std::alloc::Global;

/// Whether an entry tells of the call that answered this.
fn is_told(reply: &Reply) -> bool
    ensures { MatchBool result (IsNoted reply.now) (IsNoted reply.now → ⊥) }
{
    match reply {
        Reply::HandedOut(job) => job.is_some(),
        Reply::Left(_) | Reply::Registered(_) | Reply::Asked(_) | Reply::Stored { .. } => true,
    }
}

/// Makes the call of an entry. Where no query is ready, nothing is handed out, and no entry says so.
fn make(book: &mut Book, call: Call) -> Result<(), Refusal>
    requires { IsEntry book.old.version (entry.Call call) }
    ensures { Taking book.old (written_of (entry.Call call)) book.new result }
{
    one_longest();
    let reply = book.call(&call)?;
    if is_told(&reply) {
        Ok(())
    } else {
        Err(Refusal::Mismatch)
    }
}

/// Delivers the message of an entry.
fn deliver(book: &mut Book, message: &Message) -> Result<(), Refusal>
    requires { IsWritten book.old.version (written.Deliver message.now) }
    ensures { Taking book.old (written.Deliver message.now) book.new result }
{
    one_longest();
    book.deliver(message)?;
    Ok(())
}

/// Posts the result of the query's own job.
fn post(book: &mut Book, done: &Done) -> Result<(), Refusal>
    requires written { IsWritten book.old.version (written.Post done.now.job.query done.now.ran.acc done.now.ran.steps) }
    requires own { running_job book.old.desk book.old.id done.now.job.query ≡ Some done.now.job }
    requires right { IsFinished done.now }
    ensures { Taking book.old (written.Post done.now.job.query done.now.ran.acc done.now.ran.steps) book.new result }
{
    one_longest();
    book.post(done)?;
    Ok(())
}

/// The job of the query, run anew over the block, where its answer is this one.
fn run_anew(
    book: &Book,
    block: &mut Block,
    query: u64,
    acc: u64,
    steps: u64,
) -> Result<Done, Refusal>
    ensures own { IfOk result (λ done. running_job book.now.desk book.now.id done.job.query ≡ Some done.job) }
    ensures right { IfOk result IsFinished }
    ensures same { IfOk result (λ done. entry.Post done.job.query done.ran ≡ entry.Post query (record { acc = acc; steps = steps })) }
    ensures none { IfErr result (λ e. e ≡ Refusal.Mismatch → IsAnswering book.now (entry.Post query (record { acc = acc; steps = steps })) → ⊥) }
{
    one_answer();
    let Some(job) = book.running_job(query as usize)? else {
        return Err(Refusal::Mismatch);
    };
    let done = Done::run(job, block);
    let _job = done.job();
    let ran = done.ran();
    if ran.acc != acc || ran.steps != steps {
        return Err(Refusal::Mismatch);
    }
    Ok(done)
}

/// Makes the call that an event names. The notes of a program are checked anew, for the records of the book's views. A
/// post runs over the block.
pub(crate) fn take(
    alloc: Global,
    book: &mut Book,
    block: &mut Block,
    event: RawEntry,
) -> Result<(), Refusal>
    requires { IsWritten book.old.version event }
    ensures { Taking book.old event book.new result }
{
    one_longest();
    match event {
        RawEntry::Leave => make(book, Call::Leave),
        RawEntry::Register { text, notes } => {
            let program = Program::of_text(alloc, text, notes, record_lengths(book.version()))?;
            make(book, Call::Register(program))
        }
        RawEntry::Ask { program, start } => {
            let program = ProgramId::new(program);
            make(book, Call::Ask { program, start })
        }
        RawEntry::Store(value) => make(book, Call::Store(value)),
        RawEntry::Deliver(message) => deliver(book, &message),
        RawEntry::HandOut => make(book, Call::HandOut),
        RawEntry::Post { query, acc, steps } => {
            let done = run_anew(book, block, query, acc, steps)?;
            post(book, &done)
        }
    }
}
