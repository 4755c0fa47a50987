// What the walk of the strict test says of values that hold no other: nothing here calls itself. `strict_ends` has where children begin
// and end, `strict_sizes` what the walk knows of a type.
#![tactic(auto)]

pub mod basic;
