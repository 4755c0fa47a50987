// The frame lister's work: input comes in blocks, and the text to print goes out through a lent slice. The first line is the type,
// each other line a frame in hexadecimal. Memory is fixed, and a byte costs the same in a line of any length.
#![tactic(auto)]

ghost use Rattle.std.specs.Prelude.{◌≡◌, ◌+◌, ◌≤◌, length};
ghost use Rattle.meaning.specs.Calls.{counts};
ghost use Rattle.numerals.specs.Storing.{Puts};
ghost use Rattle.reader.specs.Answers.{answer_of as counts_of};
ghost use Rattle.listing.specs.Listing.{printed, next_number};
ghost use Rattle.listing.specs.States.{machine, fresh_state, step as step_of, answer_of, line_text, output, Lists, Finishes};

use lines::{front, keep};
use meaning::refusals::Refusal;
use numerals::{begun, digit, put_decimal};
use reader::{Answer, size};
use signature_table::judge;

// Where the input stands. Line 0 is the type; a frame's line has its number, which stays at the largest. `letters` counts the type's
// bytes, to 257, and `kept` the frame's, to 16,385: one above what the memories hold. `half` is the value of a pair's first digit, where
// one waits; it is below 16, and of any other number its last digit counts. A line is spoilt where a byte of it is no digit.
#[derive(Clone, Copy)]
pub struct State {
    pub line: u64,
    pub letters: usize,
    pub kept: usize,
    pub half: Option<u8>,
    pub spoilt: bool,
}

// What `list` did: the state behind it, how many bytes of the block it passed, and how many of the slice it wrote.
#[derive(Clone, Copy)]
pub struct Progress {
    pub state: State,
    pub passed: usize,
    pub written: usize,
}

// The state before the first byte.
pub fn fresh() -> State
    ensures { result ≡ fresh_state }
{
    State {
        line: 0,
        letters: 0,
        kept: 0,
        half: None,
        spoilt: false,
    }
}

// Lists a block of the input, or as much of it as the lent slice has room for: 84 bytes are room for a line.
pub fn list(
    state: State,
    text: &mut [u8; 256],
    frame: &mut [u8; 16384],
    block: &[u8],
    out: &mut [u8],
) -> Progress
    ensures { Lists (machine state text.old frame.old) (machine result.state text.new frame.new) block.now out.old out.new result }
{
    let mut s = state;
    let mut written = 0;
    for (passed, byte) in block.iter().enumerate() {
        if out.len() - written < 84 {
            return Progress {
                state: s,
                passed,
                written,
            };
        }
        written = put_output(s, text, frame, *byte, out, written);
        s = step(s, text, frame, *byte);
    }
    Progress {
        state: s,
        passed: block.len(),
        written,
    }
}

// What the end of the input prints: the answer to a last line that has no line end. Says how many bytes of the slice it wrote.
pub fn finish(state: State, text: &[u8; 256], frame: &[u8; 16384], out: &mut [u8]) -> usize
    ensures { Finishes (machine state text.now frame.now) out.old out.new result }
{
    if out.len() < 84 || !begun(state.spoilt, state.half, state.kept) {
        return 0;
    }
    put_line(state, text, frame, out, 0)
}

// What a byte leaves of the state and the memories.
fn step(s: State, text: &mut [u8; 256], frame: &mut [u8; 16384], byte: u8) -> State
    ensures { machine result text.new frame.new ≡ step_of (machine s text.old frame.old) byte }
{
    if byte == b'\n' {
        return State {
            line: next_number(s.line),
            kept: 0,
            half: None,
            spoilt: false,
            ..s
        };
    }
    if s.line == 0 {
        return State {
            letters: keep(text, s.letters, byte),
            ..s
        };
    }
    match (digit(byte), s.half) {
        (None, _) => State { spoilt: true, ..s },
        (Some(value), None) => State {
            half: Some(value),
            ..s
        },
        (Some(value), Some(first)) => State {
            kept: keep(frame, s.kept, 16 * (first % 16) + value),
            half: None,
            ..s
        },
    }
}

fn next_number(n: u64) -> u64
    ensures { result ≡ next_number n }
{
    n.saturating_add(1)
}

// What a byte prints, from a place on. Says the place behind it.
fn put_output(
    s: State,
    text: &[u8; 256],
    frame: &[u8; 16384],
    byte: u8,
    out: &mut [u8],
    at: usize,
) -> usize
    requires { at + 84 ≤ length out.old }
    ensures { Puts out.old out.new at (output (machine s text.now frame.now) byte) result }
{
    if byte == b'\n' {
        put_line(s, text, frame, out, at)
    } else {
        at
    }
}

// The text of the line that ends here, from a place on; nothing for the type's. Says the place behind it.
fn put_line(s: State, text: &[u8; 256], frame: &[u8; 16384], out: &mut [u8], at: usize) -> usize
    requires { at + 84 ≤ length out.old }
    ensures { Puts out.old out.new at (line_text (machine s text.now frame.now)) result }
{
    if s.line == 0 {
        return at;
    }
    let a = answer(s, text, frame);
    put_answer(s.line, a, out, at)
}

fn answer(s: State, text: &[u8; 256], frame: &[u8; 16384]) -> Result<Answer, Refusal>
    ensures { counts_of result ≡ answer_of (machine s text.now frame.now) }
{
    let signature = front(text, s.letters);
    if !judge(signature) {
        return Err(Refusal::TypeRefused);
    }
    if s.spoilt || s.half.is_some() {
        return Err(Refusal::NotHexadecimal);
    }
    if 16384 < s.kept {
        return Err(Refusal::OverLimit);
    }
    size(signature, false, 0, front(frame, s.kept))
}

fn put_answer(line: u64, answer: Result<Answer, Refusal>, out: &mut [u8], at: usize) -> usize
    requires { at + 84 ≤ length out.old }
    ensures { Puts out.old out.new at (printed line (counts_of answer)) result }
{
    match answer {
        Ok(read) => put_numbers(line, 0, read.used, read.count, out, at),
        Err(refusal) => put_numbers(line, refusal.number(), 0, 0, out, at),
    }
}

fn put_numbers(
    line: u64,
    refusal: u8,
    used: usize,
    count: usize,
    out: &mut [u8],
    at: usize,
) -> usize
    requires { at + 84 ≤ length out.old }
    ensures { Puts out.old out.new at (printed line (counts refusal used count)) result }
{
    let second = put_decimal(line, b' ', out, at);
    let third = put_decimal(u64::from(refusal), b' ', out, second);
    let fourth = put_decimal(used as u64, b' ', out, third);
    put_decimal(count as u64, b'\n', out, fourth)
}
