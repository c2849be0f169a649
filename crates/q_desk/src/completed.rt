//! What ended at a node.

/// An operation of a node that ended.
#[derive(Clone, Copy, Debug, PartialEq, Eq)]
pub enum Completed {
    /// The store with this tag.
    Stored(u64),
    /// The collect of the query with this number.
    Returned(usize),
}
