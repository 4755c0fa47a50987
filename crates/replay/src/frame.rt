// Frames. A question is `TYPE l|b POSITION HEX`, `-` for no bytes. Its answer is a line `REFUSAL USED NEVENTS kind:place:payload ..`,
// without the events where there are more than 73,728 of them.
ghost use Rattle.std.specs.Prelude.{◌≤◌, length, IfSome};

use crate::stop::Stop;
use meaning::refusals::Refusal;
use numerals::decimal;
use replay_text::print::{Answers, behind};
use replay_text::words;
use std::io;

// The parts of a question: the type, the byte order, the position, and the bytes in hexadecimal.
#[derive(Clone, Copy)]
struct Question<'a> {
    signature: &'a [u8],
    big: bool,
    position: usize,
    bytes: &'a [u8],
}

fn understand(line: &[u8]) -> Option<Question<'_>>
    ensures { IfSome result (λ q. (length q.signature.now ≤ length line.now) × (length q.bytes.now ≤ length line.now)) }
{
    let head = words::understand(line)?;
    let (position, rest) = words::first_word(head.rest);
    let bytes = rest.strip_prefix(b" ")?;
    Some(Question {
        signature: head.signature,
        big: head.big,
        position: decimal(position)? as usize,
        bytes,
    })
}

// The answer to a frame without its events.
fn size<P: Print>(
    answers: &mut Answers<P>,
    signature: &[u8],
    big: bool,
    position: usize,
    frame: &[u8],
) -> io::Result<()> {
    match reader::size(signature, big, position, frame) {
        Ok(read) => answers.counts(0, read.used, read.count, b'\n'),
        Err(refusal) => answers.counts(refusal.number(), 0, 0, b'\n'),
    }
}

// The answer to a frame.
fn read<P: Print>(
    answers: &mut Answers<P>,
    signature: &[u8],
    big: bool,
    position: usize,
    frame: &[u8],
    room: &mut [u64; 221184],
) -> io::Result<()> {
    match reader::read(signature, big, position, frame, room) {
        Ok(read) => {
            answers.counts(0, read.used, read.count, behind(0, read.count))?;
            answers.events(room, read.count)
        }
        Err(Refusal::RoomTooSmall) => size(answers, signature, big, position, frame),
        Err(refusal) => answers.counts(refusal.number(), 0, 0, b'\n'),
    }
}

pub fn answer<P: Print>(
    answers: &mut Answers<P>,
    line: &[u8],
    frame: &mut [u8],
    room: &mut [u64; 221184],
) -> Result<(), Stop> {
    let question = understand(line).ok_or(Stop::Unclear)?;
    let bytes = words::bytes(question.bytes, frame).ok_or(Stop::Unclear)?;
    read(
        answers,
        question.signature,
        question.big,
        question.position,
        bytes,
        room,
    )?;
    Ok(())
}
