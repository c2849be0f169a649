//! Heads of journals.

use sc_members::Fraction;
use sc_msg::Version;
use std::marker::Model;

/// What stands at the head of a journal: its version, which node it is of, and how the node began. Contracts see it as
/// that record. Whether the fractions and the founders are taken is not looked at.
#[derive(Drop)]
pub struct Head {
    /// The version of the journal, and of the messages in it.
    pub version: Version,
    /// The node's id.
    pub id: u64,
    /// The fraction for the phases of operations.
    pub beta: Fraction,
    /// The fraction for joining.
    pub gamma: Fraction,
    /// All founders, where the node is one; none where it entered.
    pub founders: Option<Vec<u64>>,
}

impl Model for Head {
    ghost use Rattle.std.specs.Prelude.{option_map};
    ghost use Rattle.sc_members.specs.Members.{config_of};
    ghost use Rattle.q_replay.specs.Head.{Head as HeadState};

    ghost Value = { HeadState };

    ghost view = { λ h. record { version = h.version; id = h.id; config = config_of h.beta h.gamma; founders = option_map (λ v. v.items) h.founders } };
}
