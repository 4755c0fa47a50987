// Questions of writing, behind their name: `TYPE l|b TEXTS ROOM NUMBER ..`. The texts are in hexadecimal, `-` for none; the room is the length
// of the output, at most 66,000, every byte of which is A5 before; the numbers are those of the events, at most 221,183. The answer is a line
// `REFUSAL LENGTH OUT`: all of the output afterwards, in hexadecimal, `-` for none.
use crate::length;
use crate::stop::Stop;
use replay_text::print::Answers;
use replay_text::words;

// The answer to a question. The output stands at the head of a function, where it is filled once.
fn write<P: Print>(
    answers: &mut Answers<P>,
    signature: &[u8],
    big: bool,
    events: &[u64],
    texts: &[u8],
    room: usize,
) -> Result<(), Stop> {
    let mut output = [165u8; 66000];
    let output = output.get_mut(..room).ok_or(Stop::Unclear)?;
    let length = writer::write(signature, big, events, texts, output);
    length::put(answers, length)?;
    answers.bytes(output)?;
    Ok(())
}

// The room is a number as those of the events are, and stands in front of them.
pub fn answer<P: Print>(
    answers: &mut Answers<P>,
    line: &[u8],
    texts: &mut [u8],
    numbers: &mut [u64; 221184],
) -> Result<(), Stop> {
    let head = words::understand(line).ok_or(Stop::Unclear)?;
    let (word, rest) = words::first_word(head.rest);
    let texts = words::bytes(word, texts).ok_or(Stop::Unclear)?;
    let numbers = words::numbers(rest, numbers).ok_or(Stop::Unclear)?;
    let (room, events) = numbers.split_first().ok_or(Stop::Unclear)?;
    write(
        answers,
        head.signature,
        head.big,
        events,
        texts,
        *room as usize,
    )
}
