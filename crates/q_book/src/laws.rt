//! Laws of jobs and results, each the contract of a function that does nothing, so whoever needs one at a step calls it
//! there.

ghost use Rattle.q_book.specs.Noted.{PostsAreNoted, RoomLeavesResultFaults, HandOutsAreNoted, NoneChangesNothing};

/// An accepted post adds its entry to the journal. Where there was room for it, a post is refused for its result alone,
/// with 55 or 56.
pub fn posts_are_noted()
    ensures noted { PostsAreNoted }
    ensures refused { RoomLeavesResultFaults }
{}

/// A hand-out adds its entry to the journal; where no query is ready, nothing changes.
pub fn hand_outs_are_noted()
    ensures noted { HandOutsAreNoted }
    ensures none { NoneChangesNothing }
{}
