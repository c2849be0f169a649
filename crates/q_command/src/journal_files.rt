//! Files whose journals are gathered.

ghost use Rattle.std.specs.Prelude.{◌≡◌, ◌⊎◌, ◌++◌, ℕ, List, map, IfOk, IfErr, string_bytes};
ghost use Rattle.q_gather.specs.Gather.{AreRefused};
ghost use Rattle.q_gather.specs.declared.fault.GatherFault.{GatherFault};
ghost use Rattle.q_history.specs.Headline.{ClusterState};
ghost use Rattle.q_command.specs.Tells.{Tells, of_gather};
ghost use Rattle.q_command.specs.JournalFiles.{IsWritten, Refuses, TellsFiles, failures_after, longest_journal};

use crate::gathered_ending::GatherEnding;
use crate::gathered_teller::gathered;
use crate::journal_notes::note_gather;
use crate::journal_sources::{Sources, of_gather, read_all};
use q_outside::{Counted, Files};
use q_told::{Refusal, put_refusal};
use std::alloc::Global;
use std::io::Write;

/// Gathers the journals of the files with these names, and writes what they tell: of each file its node, how many
/// events it has and how many bytes were cut; then the answers of all, by the order of the files; the pairs of
/// operations, if they are asked for; and `journals ok`. Or it writes the line of its refusal.
///
/// Files are read in their order, up to the first that is refused: 87 of a file that is not read, 57 or 58 of one that
/// begins with no journal. Then 44, 49 and 82 as [`gathered`] refuses its books; 99 may stand in place of any answer.
/// What explains a refusal, with the name of the file, goes to the notes.
///
/// It gives up only where a write failed, which the writer counted.
pub fn gather_files<F: Files, W: Write, N: Write>(
    alloc: Global,
    names: &[&str],
    pairs: bool,
    files: &mut F,
    out: &mut Counted<W>,
    notes: &mut N,
) -> GatherEnding
    ensures written { IsWritten (F.read_gives longest_journal) (map (λ name. name.now) names.now) pairs files.old (W.contents out.old.inner) result files.new (W.contents out.new.inner) }
    ensures counted { out.new.failures ≡ failures_after result out.old.failures }
{
    match told(alloc, names, pairs, files, notes) {
        Ok(lines) => match out.put(lines.as_bytes()) {
            Ok(()) => GatherEnding::Gathered,
            Err(_) => GatherEnding::Unwritten,
        },
        Err(refusal) => match put_refusal(out, &refusal) {
            Ok(()) => GatherEnding::Refused(refusal),
            Err(_) => GatherEnding::Unwritten,
        },
    }
}

/// What the files with these names tell.
fn told<F: Files, N: Write>(
    alloc: Global,
    names: &[&str],
    pairs: bool,
    files: &mut F,
    notes: &mut N,
) -> Result<String, Refusal>
    ensures told { IfOk result (λ lines. TellsFiles (F.read_gives longest_journal) (map (λ name. name.now) names.now) pairs files.old (string_bytes lines) files.new) }
    ensures refused { IfErr result (λ r. Refuses (F.read_gives longest_journal) (map (λ name. name.now) names.now) files.old r files.new) }
{
    match read_all(alloc, names, files, notes) {
        Ok(sources) => told_of(alloc, names, pairs, sources, notes),
        Err(refusal) => Err(refusal),
    }
}

/// The same of the files with these names, of which this was read.
fn told_of<N: Write>(
    alloc: Global,
    names: &[&str],
    pairs: bool,
    sources: Sources,
    notes: &mut N,
) -> Result<String, Refusal>
    ensures told { IfOk result (λ text. (told : List ℕ) × (c : ClusterState) × Tells c sources.books.items pairs told × (string_bytes text ≡ string_bytes sources.lines ++ told)) }
    ensures refused { IfErr result (λ r. ((fault : GatherFault) × AreRefused sources.books.items fault × (r ≡ of_gather fault)) ⊎ (r ≡ Refusal.OutOfMemory)) }
{
    let Sources { mut lines, books } = sources;
    match gathered(alloc, &books, pairs) {
        Ok(told) => match lines.push_str(told.as_str()) {
            Ok(()) => Ok(lines),
            Err(_) => Err(Refusal::OutOfMemory),
        },
        Err(fault) => {
            note_gather(notes, names, &books, fault);
            Err(of_gather(fault))
        }
    }
}
