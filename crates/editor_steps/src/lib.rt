// The steps of the edit's walk: what stands below the functions that call each other. Answers, the starts of children, one reading, an array of
// readings, and each container from the end of its changed child on.
#![tactic(auto)]

pub mod answers;
pub mod closing;
pub mod reading;
pub mod readings;
pub mod starts;
