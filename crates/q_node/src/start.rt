//! What a node begins with, as a type.

ghost use Rattle.std.specs.Prelude.{ℕ, List, Option, None};

use std::marker::Brand;

/// The id of a node, and what its journal's file held before. The run of a node is written over such a type, so that
/// the type of what its lock keeps speaks of both; a call picks them.
pub trait Start {
    // The id of the node.
    ghost id: { ℕ };

    // What the file held, where that is known.
    ghost first: { Option (List ℕ) };
}

impl Start for Brand {
    ghost id = { 0 };

    ghost first = { None };
}
