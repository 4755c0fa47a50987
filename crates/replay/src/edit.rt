// Questions of editing, behind their name: `TYPE l|b BUFFER USED READING NEW`. The buffer is in hexadecimal, `-` for none, of at most 66,000
// bytes; its used length and the reading's number are decimal, and so are the bits of what the reading becomes, or `nothing`. The answer is
// a line `REFUSAL LENGTH BUFFER`: all of the buffer afterwards, in hexadecimal, `-` for none.
use crate::length;
use crate::stop::Stop;
use replay_text::print::Answers;
use replay_text::words;
use std::io;

// The used length of the buffer, the reading's number, and the bits of what the reading becomes, if it becomes something.
#[derive(Clone, Copy)]
struct Change {
    used: usize,
    reading: usize,
    bits: Option<usize>,
}

fn understand(text: &[u8], row: &mut [u64; 221184]) -> Option<Change> {
    let shorter = text.strip_suffix(b" nothing");
    let numbers = words::numbers(shorter.unwrap_or(text), row)?;
    match (numbers, shorter) {
        ([used, reading], Some(_)) => Some(Change {
            used: *used as usize,
            reading: *reading as usize,
            bits: None,
        }),
        ([used, reading, bits], None) => Some(Change {
            used: *used as usize,
            reading: *reading as usize,
            bits: Some(*bits as usize),
        }),
        _ => None,
    }
}

// The answer to a question.
fn edit<P: Print>(
    answers: &mut Answers<P>,
    signature: &[u8],
    big: bool,
    buffer: &mut [u8],
    change: Change,
) -> io::Result<()> {
    let new = editor::new_of(change.bits.is_some(), change.bits.unwrap_or(0));
    let length = editor::edit(signature, big, buffer, change.used, change.reading, new);
    length::put(answers, length)?;
    answers.bytes(buffer)
}

pub fn answer<P: Print>(
    answers: &mut Answers<P>,
    line: &[u8],
    buffer: &mut [u8],
    numbers: &mut [u64; 221184],
) -> Result<(), Stop> {
    let head = words::understand(line).ok_or(Stop::Unclear)?;
    let (word, rest) = words::first_word(head.rest);
    let buffer = words::bytes(word, buffer).ok_or(Stop::Unclear)?;
    if 66000 < buffer.len() {
        return Err(Stop::Unclear);
    }
    let change = understand(rest, numbers).ok_or(Stop::Unclear)?;
    edit(answers, head.signature, head.big, buffer, change)?;
    Ok(())
}
