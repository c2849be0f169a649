//! The forms of statements that both families share: what a call that may refuse does, by its tests and its parts, and
//! what is among the elements of a list; and lemmas on such calls, on such elements, and on trees of numbered entries,
//! seen as finite maps. No function stands here.
#![tactic(auto)]
