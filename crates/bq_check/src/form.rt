//! The forms of the bytes of notes.

/// How the bytes of notes spell a state.
#[derive(Clone, Copy, Debug, PartialEq, Eq)]
pub enum NotesForm {
    /// The kinds of the registers alone: each state is for records of 64 bytes, and no register is known as
    /// the record's length.
    First,
    /// The least and the greatest length that the record may have, one byte each, and then the kinds of the registers.
    Second,
}
