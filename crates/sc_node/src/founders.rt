//! Which ids may found a cluster.

ghost use Rattle.std.specs.Prelude.{◌≡◌};
ghost use Rattle.sc_node.specs.Nodes.{are_founders, rises_from};

/// The most nodes that found a cluster.
pub const MOST_FOUNDERS: usize = 256;

/// Whether these may be the ids of the founders of a cluster: 1 to 256 ids, each larger than the one before. Takes no
/// memory.
pub fn are_founders(ids: &[u64]) -> bool
    ensures { result ≡ are_founders ids.now }
{
    match ids {
        [first, rest @ ..] => ids.len() <= MOST_FOUNDERS && rises_from(*first, rest),
        [] => false,
    }
}

/// Whether each id is larger than the one before, and the first than this one.
fn rises_from(mut id: u64, ids: &[u64]) -> bool
    ensures { result ≡ rises_from id ids.now }
{
    for next in ids {
        if *next <= id {
            return false;
        }
        id = *next;
    }
    true
}
