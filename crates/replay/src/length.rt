// The beginning of an answer that has a length: the refusal, 0 where there is none, and the length, 0 where it is refused.
use meaning::refusals::Refusal;
use replay_text::print::Answers;
use std::io;

pub fn put<P: Print>(answers: &mut Answers<P>, length: Result<usize, Refusal>) -> io::Result<()> {
    match length {
        Ok(length) => answers.refusal_and_length(0, length),
        Err(refusal) => answers.refusal_and_length(refusal.number(), 0),
    }
}
