//! What is printed before the console's lines are obeyed.

/// What is printed before the console's lines are obeyed.
#[derive(Clone, Copy)]
pub(crate) struct Front<'f> {
    /// How a node comes back, if it does.
    pub(crate) resumption: Option<Resumption>,
    /// The line that says where the node hears, without the feed at its end.
    pub(crate) greeting: &'f str,
}

/// How a node comes back.
#[derive(Clone, Copy, Debug, PartialEq, Eq)]
pub(crate) struct Resumption {
    /// How many events its journal has.
    pub(crate) events: usize,
    /// How many bytes of a torn event were cut off.
    pub(crate) cut: usize,
}
