//! Journals to a cluster.

ghost use Rattle.std.specs.Prelude.{◌≡◌, List, map, IfOk, IfErr, MatchResult};
ghost use Rattle.q_book.specs.State.{BookState};
ghost use Rattle.q_gather.specs.Gathered.{AreDistinct, IsGathered};
ghost use Rattle.q_gather.specs.Faults.{of_replay};
ghost use Rattle.q_gather.specs.Gather.{AreReplayed, Agree, Merge, Gathers, GathersBooks, IsRefused, AreRefused};

use crate::fault::GatherFault;
use crate::gathering::Gathering;
use crate::heads::{are_distinct, are_replays, found};
use crate::rounds::take_all;
use q_book::Book;
use q_cluster::Cluster;
use q_replay::laws::{one_book, one_fault};
use q_replay::{ReplayFault, replay};
use std::alloc::Global;

/// The cluster of the nodes with these journals, in which just what the journals say happened, in an order in which
/// each message that is delivered was sent before. Refused with the first of: 57 or 58, for the first bytes that are no
/// journal; 44, where two are of one node; 49, where the heads disagree on the version, the fractions or the founders,
/// or the journal of a founder is missing; 82, where there is no such order. 99 OutOfMemory may stand in place of any
/// of these answers.
pub fn gather(alloc: Global, journals: &[&[u8]]) -> Result<Cluster, GatherFault>
    // The books of the cluster are those of the journals.
    ensures gathers { IfOk result (Gathers (map (λ bytes. bytes.now) journals.now)) }

    // Journals that merge are gathered, unless memory runs out.
    ensures all { (books : List BookState) → AreReplayed (map (λ bytes. bytes.now) journals.now) books → AreDistinct books → Agree books → Merge books → MatchResult result (IsGathered books) (λ e. e ≡ GatherFault.OutOfMemory) }

    // Which fault it is.
    ensures refused { IfErr result (IsRefused (map (λ bytes. bytes.now) journals.now)) }
{
    one_book();
    one_fault();
    merged(alloc, journals)
}

/// The same of books that stand, which are not replayed: the cluster in which just what their journals say happened.
/// Refused with the first of 44, 49 and 82. 99 OutOfMemory may stand in place of any of these answers.
pub fn gather_books(alloc: Global, books: &[Book]) -> Result<Cluster, GatherFault>
    // The books of the cluster are these.
    ensures gathers { IfOk result (GathersBooks books.now) }

    // Books that merge are gathered, unless memory runs out.
    ensures all { AreDistinct books.now → Agree books.now → Merge books.now → MatchResult result (IsGathered books.now) (λ e. e ≡ GatherFault.OutOfMemory) }

    // Which fault it is: never one of a journal.
    ensures refused { IfErr result (AreRefused books.now) }
{
    merged_books(alloc, books)
}

/// What [`gather`] answers.
fn merged(alloc: Global, journals: &[&[u8]]) -> Result<Cluster, GatherFault>
    ensures gathers { IfOk result (Gathers (map (λ bytes. bytes.now) journals.now)) }
    ensures refused { IfErr result (IsRefused (map (λ bytes. bytes.now) journals.now)) }
{
    let books = replay_all(alloc, journals)?;
    merged_books(alloc, &books)
}

/// What [`gather_books`] answers.
fn merged_books(alloc: Global, books: &[Book]) -> Result<Cluster, GatherFault>
    ensures gathers { IfOk result (GathersBooks books.now) }
    ensures refused { IfErr result (AreRefused books.now) }
{
    are_replays(books);
    if !are_distinct(books) {
        return Err(GatherFault::IdUsed);
    }
    let cluster = found(alloc, books)?;
    let mut gathering = Gathering::new(alloc, cluster);
    take_all(alloc, &mut gathering, books)?;
    Ok(gathering.into_cluster())
}

/// The books of the journals, in turn.
fn replay_all(alloc: Global, journals: &[&[u8]]) -> Result<Vec<Book>, GatherFault>
    ensures books { IfOk result (λ books. AreReplayed (map (λ bytes. bytes.now) journals.now) books.items) }
    ensures refused { IfErr result (IsRefused (map (λ bytes. bytes.now) journals.now)) }
{
    let mut books = Vec::new(alloc);
    for (place, bytes) in journals.iter().enumerate() {
        match replay(alloc, bytes) {
            Ok(book) => books.push(book)?,
            Err(fault) => return Err(refused(place, fault)),
        }
    }
    Ok(books)
}

fn refused(place: usize, fault: ReplayFault) -> GatherFault
    ensures { result ≡ of_replay place fault }
{
    match fault {
        ReplayFault::OutOfMemory => GatherFault::OutOfMemory,
        other => GatherFault::Journal {
            place,
            fault: other,
        },
    }
}
