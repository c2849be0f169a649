//! A caller of `q_cluster`.

ghost use Rattle.std.specs.Prelude.{◌≡◌, Ok, IfOk};
ghost use Rattle.sc_msg.specs.declared.version.Version.TheVariants as version;
ghost use Rattle.q_history.specs.Headline.{ClusterState, AnswersAreTrue};
ghost use Rattle.q_history.specs.Clusters.{started};
ghost use Rattle.q_history.specs.Calls.{Follows};

use q_cluster::Cluster;
use q_history::{ClusterEvent, ClusterFault, ClusterStep};
use sc_members::Config;
use std::alloc::Global;

/// Founders begin a cluster, which takes one event. Each answer that it then has recorded is true.
pub fn first_event(
    alloc: Global,
    config: Config,
    founders: &[u64],
    event: &ClusterEvent,
) -> Result<(Cluster, ClusterStep), ClusterFault>
    ensures answers { IfOk result (λ r. AnswersAreTrue r.0) }
    ensures follows { IfOk result (λ r. (before : ClusterState)
        × (started version.Second config founders.now ≡ Ok before) × Follows before event.now r.1 r.0) }
{
    let mut cluster = Cluster::new(alloc, config, founders)?;
    let told = cluster.step(event)?;
    Ok((cluster, told))
}
