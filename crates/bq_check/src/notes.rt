//! Notes: for each unit of a text a state, or none.

ghost use Rattle.std.specs.Prelude.{◌≡◌, ◌≤◌, length, option_copied};
ghost use Rattle.bq_sound.specs.Passes.{note_at};

use bq_state::State;
use std::marker::Model;

/// For each unit of a text the state there, or none: at most 4,096. Contracts see it as the list of these.
#[derive(Drop)]
pub struct Notes {
    pub(crate) states: Vec<Option<State>>,
}

impl Model for Notes {
    ghost use Rattle.std.specs.Prelude.{◌≤◌, List, Option, length};
    ghost use Rattle.bq_state.specs.Kinds.{StateKinds};

    ghost Value = { List (Option StateKinds) };

    ghost view = { λ n. n.states.items };

    ghost invariant = { λ n. length n.states.items ≤ 4096 };
}

impl Notes {
    /// These notes, in the order of the units. There may be as many as a text may have units.
    pub fn new(states: Vec<Option<State>>) -> Notes
        requires { length states.items ≤ 4096 }
        ensures { result ≡ states.items }
    {
        Notes { states }
    }

    /// How many there are, at most 4,096.
    pub fn len(&self) -> usize
        ensures value { result ≡ length self.now }
        ensures few { result ≤ 4096 }
    {
        self.states.len()
    }

    /// As [`Notes::at`], of a state that is looked at where it lies.
    pub(crate) fn note(&self, unit: usize) -> Option<&State>
        ensures { option_copied result ≡ note_at self.now unit }
    {
        self.states.get(unit)?.as_ref()
    }

    /// The state at a unit, counted from 0; none where there is none, and behind the end.
    pub fn at(&self, unit: usize) -> Option<State>
        ensures { result ≡ note_at self.now unit }
    {
        self.states.get(unit).copied().flatten()
    }
}
