// Why no more lines are answered.
use std::io;

#[derive(Debug, Drop)]
pub enum Stop {
    // A line is not understood.
    Unclear,
    // The output does not take the answers.
    Output(io::Error),
}

impl From<io::Error> for Stop {
    fn from(error: io::Error) -> Stop {
        Stop::Output(error)
    }
}
