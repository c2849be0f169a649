//! What the lines of a run tell: looked up in the cluster into which the books of the nodes gather.

ghost use Rattle.std.specs.Prelude.{◌≡◌, List, IfOk, MatchBool, string_bytes};
ghost use Rattle.std.specs.List.{AllZip};
ghost use Rattle.q_book.specs.State.{BookState};
ghost use Rattle.q_gather.specs.Gather.{GathersBooks};
ghost use Rattle.q_nodes.specs.Books.{AreBooksOf};
ghost use Rattle.q_nodes.specs.Found.{IsSought};
ghost use Rattle.q_nodes.specs.Lines.{ComesTo, tally_of, texts_of};
ghost use Rattle.q_nodes.specs.Runs.{IsFoundedBy, IsTelling, ids_to};

use crate::apart::tell_apart;
use crate::fault::ClusterRunFault;
use crate::found::find_all;
use crate::outcome::Outcome;
use crate::report::{Report, Tally, texts};
use crate::script::ClusterScript;
use q_book::Book;
use q_cluster::Cluster;
use q_gather::gather_books;
use sc_members::Config;
use std::alloc::{AllocError, Global};

/// What is to be printed of a run.
#[derive(Drop)]
pub struct Telling {
    /// What the lines tell.
    pub text: String,
    /// How many of them were refused or are unanswered.
    pub tally: Tally,
    /// The refusal that comes behind it, where the nodes make no cluster of the script.
    pub refusal: Option<ClusterRunFault>,
}

/// What was sought in the cluster of a script.
#[derive(Drop)]
enum Sought {
    /// What the lines tell of it.
    Told(Vec<Report>),
    /// Why there is no such cluster.
    Ungathered(ClusterRunFault),
}

/// Whether the cluster has these founders.
fn has_founders(cluster: &Cluster, ids: &[u64]) -> bool
    ensures { MatchBool result (cluster.now.past.founders ≡ ids.now) (cluster.now.past.founders ≡ ids.now → ⊥) }
{
    cluster.founders() == ids
}

/// Whether the cluster has these fractions.
fn has_config(cluster: &Cluster, config: Config) -> bool
    ensures { MatchBool result (cluster.now.past.config ≡ config) (cluster.now.past.config ≡ config → ⊥) }
{
    cluster.config() == config
}

/// Whether the cluster has the fractions of the script, and these founders, which are the script's.
fn is_founded_by(cluster: &Cluster, script: &ClusterScript, ids: &[u64]) -> bool
    requires { ids.now ≡ ids_to script.now.nodes }
    ensures { MatchBool result (IsFoundedBy script.now cluster.now) (IsFoundedBy script.now cluster.now → ⊥) }
{
    if !has_founders(cluster, ids) {
        return false;
    }
    has_config(cluster, script.config)
}

/// Looks up in the cluster of the books what the calls came to.
fn look_up(
    alloc: Global,
    script: &ClusterScript,
    ids: &[u64],
    cluster: &Cluster,
    outcomes: &[Outcome],
) -> Result<Sought, AllocError>
    requires ids { ids.now ≡ ids_to script.now.nodes }
    requires came { AllZip (ComesTo script.now.nodes) script.now.lines.items outcomes.now }
    ensures { (books : List BookState) → GathersBooks books cluster.now → IfOk result (IsSought script.now books) }
{
    if !is_founded_by(cluster, script, ids) {
        return Ok(Sought::Ungathered(ClusterRunFault::bad_founders()));
    }
    match find_all(
        alloc,
        cluster,
        script.nodes,
        script.lines.as_slice(),
        outcomes,
    )? {
        Some(reports) => Ok(Sought::Told(reports)),
        None => Ok(Sought::Ungathered(ClusterRunFault::bad_founders())),
    }
}

/// Gathers the books, and looks up in their cluster what the calls came to.
fn seek(
    alloc: Global,
    script: &ClusterScript,
    ids: &[u64],
    books: &[Book],
    outcomes: &[Outcome],
) -> Result<Sought, AllocError>
    requires ids { ids.now ≡ ids_to script.now.nodes }
    requires came { AllZip (ComesTo script.now.nodes) script.now.lines.items outcomes.now }
    ensures { IfOk result (IsSought script.now books.now) }
{
    match gather_books(alloc, books) {
        Ok(cluster) => look_up(alloc, script, ids, &cluster, outcomes),
        Err(fault) => Ok(Sought::Ungathered(ClusterRunFault::from(fault))),
    }
}

impl Telling {
    /// What is to be printed of these reports, with this refusal behind them.
    fn of(
        alloc: Global,
        reports: &[Report],
        refusal: Option<ClusterRunFault>,
    ) -> Result<Telling, AllocError>
        ensures text { IfOk result (λ t. string_bytes t.text ≡ texts_of reports.now) }
        ensures tally { IfOk result (λ t. t.tally ≡ tally_of reports.now) }
        ensures refusal { IfOk result (λ t. t.refusal ≡ refusal) }
    {
        let text = texts(alloc, reports)?;
        Ok(Telling {
            text,
            tally: Tally::of(reports),
            refusal,
        })
    }
}

/// What the lines tell of the cluster into which the books of the nodes gather, by what their calls came to; or, where
/// there is no such cluster, of each node's own book, and the refusal. The one error is that memory ran out.
pub fn tell(
    alloc: Global,
    script: &ClusterScript,
    ids: &[u64],
    books: &[Book],
    outcomes: &[Outcome],
) -> Result<Telling, AllocError>
    requires ids { ids.now ≡ ids_to script.now.nodes }
    requires books { AreBooksOf script.now.nodes books.now }
    requires came { AllZip (ComesTo script.now.nodes) script.now.lines.items outcomes.now }
    ensures { IfOk result (λ t. IsTelling script.now books.now t.tally t.refusal (string_bytes t.text)) }
{
    match seek(alloc, script, ids, books, outcomes)? {
        Sought::Told(reports) => Telling::of(alloc, reports.as_slice(), None),
        Sought::Ungathered(fault) => {
            let lines = script.lines.as_slice();
            let reports = tell_apart(alloc, books, script.nodes, lines, outcomes)?;
            Telling::of(alloc, reports.as_slice(), Some(fault))
        }
    }
}
