//! What names a node that runs as a process of its own.

/// What the words of a command line say of a node that runs as a process of its own, and is of a cluster whose file
/// [`read_cluster`](crate::read_cluster) reads.
#[derive(Clone, Copy)]
pub struct NodeWords<'a> {
    /// The name of the file of the cluster.
    pub file: &'a str,
    /// The id of the node.
    pub id: u64,
    /// Where its clients come in: a host and a port, or the path of a Unix socket, which has a slash.
    pub clients: &'a str,
    /// The name of the journal's file. A journal that is there is resumed.
    pub journal: &'a str,
    /// The path of a Unix socket that takes the console's lines in place of the standard input.
    pub console: Option<&'a str>,
    /// Whether the journal must be there: `--resume`.
    pub resume: bool,
    /// How many threads run programs, from 1 to 64.
    pub runners: usize,
    /// Whether the system is asked to keep each part of the journal on the disk before anything is sent.
    pub sync: bool,
}
