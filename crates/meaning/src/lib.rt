// The meaning of GVariant as this project reads and writes it stands in specs/, its laws and theorems in proofs/. What code needs of
// it are the numbers that have names there, under the same names.
#![tactic(auto)]

pub mod letters;
pub mod limits;
pub mod refusals;
