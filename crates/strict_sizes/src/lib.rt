// What the walk of the strict test knows of a type: `sizes` has the table of a type text, `items` what an array repeats.
#![tactic(auto)]

pub mod items;
pub mod sizes;
