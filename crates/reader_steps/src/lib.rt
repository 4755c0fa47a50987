// The steps of the readers that call each other: what stands below them. What rides along as one number, one level deeper, characters of a
// type, padding and ends; and of each kind of container what needs no reader that nests.
#![tactic(auto)]

pub mod array;
pub mod codes;
pub mod dictionary;
pub mod ends;
pub mod maybe;
pub mod opening;
pub mod ride;
pub mod structure;
pub mod variant;
