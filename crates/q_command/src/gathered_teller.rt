//! What books tell together.

ghost use Rattle.std.specs.Prelude.{◌≡◌, ◌++◌, ℕ, List, [], IfOk, IfErr, OnOk, codes, string_bytes, if◌then◌else◌};
ghost use Rattle.q_gather.specs.Gather.{AreRefused, GathersBooks};
ghost use Rattle.q_history.specs.Headline.{ClusterState};
ghost use Rattle.q_told.specs.Printing.{AddsPairs, ended_pairs_of};
ghost use Rattle.q_command.specs.Tells.{Tells};

use crate::gathered_answers::print_answers;
use crate::laws::every_gathered_answer_is_true;
use q_book::Book;
use q_cluster::Cluster;
use q_gather::{GatherFault, gather_books};
use q_told::print_ended_pairs;
use sc_world::Op;
use std::alloc::{AllocError, Global};

/// Gathers the books into one cluster, and answers what they tell: the answers that they record, by books and by the
/// numbers of the queries; where stores and collects of the cluster meet, if that is asked for; and `journals ok`.
///
/// Refused with the first of: 44, where two books are of one node; 49, where they disagree on the version, the
/// fractions or the founders, or the book of a founder is missing; 82, where there is no order in which each message
/// that is delivered was sent before. 99 OutOfMemory may stand in place of any answer.
pub fn gathered(alloc: Global, books: &[Book], pairs: bool) -> Result<String, GatherFault>
    ensures told { IfOk result (λ lines. (c : ClusterState) × Tells c books.now pairs (string_bytes lines)) }
    ensures refused { IfErr result (AreRefused books.now) }
{
    let cluster = gather_books(alloc, books)?;
    match told(alloc, &cluster, books, pairs) {
        Ok(lines) => Ok(lines),
        Err(_) => Err(GatherFault::OutOfMemory),
    }
}

/// What the books tell that gather into this cluster.
fn told(alloc: Global, cluster: &Cluster, books: &[Book], pairs: bool) -> Result<String, AllocError>
    ensures { GathersBooks books.now cluster.now → IfOk result (λ lines. Tells cluster.now books.now pairs (string_bytes lines)) }
{
    every_gathered_answer_is_true();
    let mut lines = String::new(alloc);
    print_answers(&mut lines, books)?;
    print_pairs_if(&mut lines, pairs, cluster.ops())?;
    lines.push_str("journals ok\n")?;
    Ok(lines)
}

/// Prints the pairs of operations, if they are asked for.
fn print_pairs_if(lines: &mut String, pairs: bool, ops: &[Op]) -> Result<(), AllocError>
    ensures { OnOk result (AddsPairs (if pairs then ended_pairs_of ops.now else []) (string_bytes lines.old) (string_bytes lines.new)) }
{
    if pairs {
        print_ended_pairs(lines, ops)
    } else {
        Ok(())
    }
}
