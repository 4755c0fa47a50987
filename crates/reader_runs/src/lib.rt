// The elements of an array that are all numbers, all readings or all texts, in loops of their own.
#![tactic(auto)]

mod elements;
pub mod numbers;
pub mod texts_run;
