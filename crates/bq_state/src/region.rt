//! Regions of memory.

ghost use Rattle.std.specs.Prelude.{◌≡◌};
ghost use Rattle.bq_state.specs.Regions.{region_name};
ghost use Rattle.bq_state.specs.Rules.{extent, outside};

use crate::bounds::Bounds;
use crate::rule::Rule;
use bq_meaning::FRAME_LENGTH;

/// What a pointer points into.
#[derive(Clone, Copy, Debug, PartialEq, Eq)]
pub enum Region {
    /// The frame: read and written.
    Frame,
    /// The record: only read.
    Record,
}

impl Region {
    /// The word by which the region is printed.
    pub fn name(self) -> &'static str
        ensures { result.now ≡ region_name self }
    {
        match self {
            Region::Frame => "frame",
            Region::Record => "record",
        }
    }

    // How many bytes it has at least, where records have these lengths.
    pub(crate) fn length(self, lengths: Bounds) -> u32
        ensures { result ≡ extent lengths self }
    {
        match self {
            Region::Frame => FRAME_LENGTH as u32,
            Region::Record => u32::from(lengths.least()),
        }
    }

    // The rule that an access outside breaks.
    pub(crate) fn outside(self) -> Rule
        ensures { result ≡ outside self }
    {
        match self {
            Region::Frame => Rule::OutsideFrame,
            Region::Record => Rule::OutsideRecord,
        }
    }
}
