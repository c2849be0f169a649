//! Whether states fit the lengths that records may have.

ghost use Rattle.std.specs.Prelude.{◌↔◌, IsTrue};
ghost use Rattle.bq_sound.specs.Passes.{AllFitLengths, FitsLengths};

use crate::notes::Notes;
use bq_state::{Bounds, State};

/// Whether a state fits: where records have one length alone it is plain of that length.
pub(crate) fn fits_lengths(bounds: Bounds, state: &State) -> bool
    ensures { IsTrue result ↔ FitsLengths bounds state.now }
{
    bounds.least() != bounds.most() || state.is_plain(bounds.least())
}

impl Notes {
    /// Whether all states fit.
    pub(crate) fn all_fit_lengths(&self, bounds: Bounds) -> bool
        ensures { IsTrue result ↔ AllFitLengths bounds self.now }
    {
        for unit in 0..self.len() {
            if let Some(state) = self.at(unit) {
                if !fits_lengths(bounds, &state) {
                    return false;
                }
            }
        }
        true
    }
}
