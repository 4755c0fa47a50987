// Answers lines of standard input: frames as the oracle does (`frame`), questions of writing (`write`) and of editing (`edit`). A line's
// words are parted by single blanks; the last line may have no line end. A line that is not understood, or is longer than 2,097,152 bytes,
// ends the program with a message.
#![tactic(auto)]

mod edit;
mod frame;
mod length;
mod stop;
mod write;

use lines::{front, gather};
use replay_text::print::Answers;
use std::env::{Env, FillError};
use std::io;
use std::io::Read;
use stop::Stop;

// How many bytes of the present line are kept, and the number of that line.
#[derive(Clone, Copy)]
struct Progress {
    kept: usize,
    number: u64,
}

// The answer to a line. A line of writing or of editing has its name in front.
fn answer<P: Print>(
    answers: &mut Answers<P>,
    line: &[u8],
    frame: &mut [u8],
    room: &mut [u64; 221184],
) -> Result<(), Stop> {
    if let Some(question) = line.strip_prefix(b"write: ") {
        return write::answer(answers, question, frame, room);
    }
    if let Some(question) = line.strip_prefix(b"edit: ") {
        return edit::answer(answers, question, frame, room);
    }
    frame::answer(answers, line, frame, room)
}

// The answers to the lines that end in a block; its last bytes begin the next line.
fn answer_block<P: Print>(
    answers: &mut Answers<P>,
    block: &[u8],
    line: &mut [u8],
    frame: &mut [u8],
    room: &mut [u64; 221184],
    progress: &mut Progress,
) -> Result<(), Stop> {
    let mut rest = block;
    // `gather` says how much it passed: to part the block into lines before would go over each byte twice.
    while !rest.is_empty() {
        let gathered = gather(rest, line, progress.kept);
        rest = &rest[gathered.passed..];
        progress.kept = gathered.kept;
        if line.len() < gathered.kept {
            return Err(Stop::Unclear);
        }
        if gathered.ended {
            answer(answers, front(line, gathered.kept), frame, room)?;
            progress.number = progress.number.wrapping_add(1);
            progress.kept = 0;
        }
    }
    Ok(())
}

// Answers a block, and writes the answers: what goes before a line that is not understood is answered all the same. Says whether all
// lines were understood.
fn write_block<P: Print>(
    answers: &mut Answers<P>,
    block: &[u8],
    line: &mut [u8],
    frame: &mut [u8],
    room: &mut [u64; 221184],
    progress: &mut Progress,
) -> io::Result<bool> {
    let understood = match answer_block(answers, block, line, frame, room, progress) {
        Ok(()) => true,
        Err(Stop::Unclear) => false,
        Err(Stop::Output(error)) => return Err(error),
    };
    answers.flush()?;
    Ok(understood)
}

fn complain(rt: &impl Eprint, number: u64) -> io::Result<()> {
    eprintln!(rt;
        "line {number}: a line is TYPE l|b POSITION HEX, or write: TYPE l|b TEXTS ROOM NUMBER .., or edit: TYPE l|b BUFFER USED READING NEW"
    )
}

// Answers the input up to its end, or to a line that is not understood. A run ends sooner only where it cannot read or write. A last line
// that has no line end is answered as if it had one.
fn answer_all(
    rt: &(impl Input + Print + Eprint),
    line: &mut [u8],
    frame: &mut [u8],
    room: &mut [u64; 221184],
) -> io::Result<()> {
    let mut input = rt.reader();
    let mut answers = Answers::new(rt);
    let mut progress = Progress { kept: 0, number: 1 };
    for _ in 0..u64::MAX {
        let mut block = [0u8; 65536];
        let n = input.read(&mut block)?;
        if n == 0 && progress.kept == 0 {
            return Ok(());
        }
        let part = if n == 0 {
            b"\n".as_slice()
        } else {
            &block[..n]
        };
        if !write_block(&mut answers, part, line, frame, room, &mut progress)? {
            return complain(rt, progress.number);
        }
        if n == 0 {
            return Ok(());
        }
    }
    Ok(())
}

fn answer_input(rt: &(impl Input + Print + Eprint)) -> io::Result<()> {
    let mut line = [0u8; 2097152];
    let mut frame = [0u8; 131072];
    let mut room = [0u64; 221184];
    answer_all(rt, &mut line, &mut frame, &mut room)
}

// Whether the program was given an argument behind its name.
fn has_argument(rt: &impl Env) -> bool {
    let mut start = [0u8; 1];
    !matches!(rt.arg(1, &mut start), Err(FillError::NotPresent))
}

fn main(rt: HostRuntime) -> io::Result<()> {
    if has_argument(&rt) {
        return rt.eprintln(
            "replay: unknown argument; it takes none and answers the lines of standard input",
        );
    }
    answer_input(&rt)
}
