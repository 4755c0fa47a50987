// The figures of the sensors, and what is taken for them from a frame.
#![tactic(auto)]

pub mod figures;
pub mod frame;
