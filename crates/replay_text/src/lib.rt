// The text that `replay` reads and writes: `words` has the words of a question, `print` the answers.
#![tactic(auto)]

pub mod print;
pub mod words;
