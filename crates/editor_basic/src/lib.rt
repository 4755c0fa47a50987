// What the edit puts into the buffer's tail, below the walk along its path. `mover` has bytes, `elements` the children of an array and
// `fields` those of a structure as they stand, `rewriter` the same laid out anew, `finisher` all of a structure behind a changed field.
#![tactic(auto)]

pub mod elements;
pub mod fields;
pub mod finisher;
pub mod mover;
pub mod rewriter;
