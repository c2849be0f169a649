//! What an event of a script wants that a cluster refuses.

use reasons::Reason;

/// What would satisfy a cluster that refuses an event for this reason. Where a person can do nothing about it, when it
/// is told; empty where nothing is.
pub fn of_event(reason: Reason) -> &'static str {
    match reason {
        Reason::NotJoined =>
            "The node has not joined: deliver it the messages that answer its enter, as by all.",
        Reason::SessionsFull =>
            "The node has 64 stores and collects open. They end by deliveries, as by all.",
        Reason::BadValue => "A value has at most 112 bytes.",
        Reason::UnknownProgram =>
            "No program of this node has this number: program registers one there, and prints it.",
        Reason::NeverSent =>
            "No message has this number: they are counted from 0, as printed where they are sent.",
        Reason::NoSuchJob =>
            "No job has this number: hand hands jobs out, and prints their numbers.",
        Reason::FileFailed => "The journal's file could not be written.",
        reason => reason.when().unwrap_or(""),
    }
}
