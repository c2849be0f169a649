//! Who is about to sleep.

/// A runner that is about to sleep. It is given to [`Board::sleep`] or [`Board::rouse`]: one that is dropped does not
/// compile, so the board knows of no runner that it sleeps where it does not.
///
/// [`Board::sleep`]: crate::Board::sleep
/// [`Board::rouse`]: crate::Board::rouse
pub struct Drowsy {
    // How often the bell was rung before.
    pub(crate) rung: u64,
}
