// Answers calls of the leaves, one a line: the leaf's name and its arguments, parted by single blanks. Numbers are decimal, bytes pairs of
// hexadecimal digits, `-` for none. Each answer begins with the refusal, 0 if there is none. The last line may have no line end; of a
// line the first 65,536 bytes are looked at.
#![tactic(auto)]

mod calls;
mod print;
mod words;

use calls::answer;
use lines::{front, gather};
use std::env::{Env, FillError};
use std::io;
use std::io::Read;

// Answers the lines that end in a block, and says how many bytes of the next are counted.
fn answer_block(
    out: &impl Print,
    block: &[u8],
    line: &mut [u8],
    before: usize,
) -> io::Result<usize> {
    let mut kept = before;
    let mut rest = block;
    // `gather` says how much it passed: to part the block into lines before would go over each byte twice.
    while !rest.is_empty() {
        let gathered = gather(rest, line, kept);
        rest = &rest[gathered.passed..];
        kept = gathered.kept;
        if gathered.ended {
            answer(out, front(line, kept))?;
            kept = 0;
        }
    }
    Ok(kept)
}

// Answers a last line that has no line end.
fn answer_rest(out: &impl Print, line: &[u8], kept: usize) -> io::Result<()> {
    if 0 < kept {
        return answer(out, front(line, kept));
    }
    Ok(())
}

// Answers the input to its end. A run ends sooner only where it cannot read or write.
fn answer_input(rt: &(impl Input + Print)) -> io::Result<()> {
    let mut input = rt.reader();
    let mut line = [0u8; 65536];
    let mut kept = 0;
    for _ in 0..u64::MAX {
        let mut block = [0u8; 65536];
        let n = input.read(&mut block)?;
        if n == 0 {
            return answer_rest(rt, &line, kept);
        }
        kept = answer_block(rt, &block[..n], &mut line, kept)?;
    }
    Ok(())
}

// Whether the program was given an argument behind its name.
fn has_argument(rt: &impl Env) -> bool {
    let mut start = [0u8; 1];
    !matches!(rt.arg(1, &mut start), Err(FillError::NotPresent))
}

fn main(rt: HostRuntime) -> io::Result<()> {
    if has_argument(&rt) {
        return rt.eprintln(
            "leaves_check: unknown argument; it takes none and answers the lines of standard input",
        );
    }
    answer_input(&rt)
}
