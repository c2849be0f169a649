//! How a conversation at the console ends.

/// How a conversation ends.
#[derive(Clone, Copy, Debug, PartialEq, Eq)]
pub enum Talk {
    /// It was ended, or its input.
    Ended,
    /// The threads of the node could not be started.
    Unstarted,
    /// The output failed.
    Unwritten,
}
