// Judges each line of standard input, and writes a line for it: 1 for one complete type, 0 for any other text. A line ends in a line
// end, which is no part of its text; the last one may have none.
#![tactic(auto)]

ghost use Rattle.std.specs.Prelude.{◌≡◌, ◌≤◌, length};

use lines::{front, gather};
use std::env::{Env, FillError};
use std::io;
use std::io::Read;

// How many bytes of the present line are counted, and how many of the answer are written. A line keeps no more than 256 of its bytes:
// a text of so many is no type, whatever stands in it.
#[derive(Clone, Copy)]
pub struct Progress {
    kept: usize,
    written: usize,
}

fn verdict(line: &[u8], kept: usize) -> u8 {
    if signature_table::judge(front(line, kept)) {
        b'1'
    } else {
        b'0'
    }
}

// The answers to the lines that end in a block. Each program that reads lines has such a loop: one function for all would take the
// program's memories and errors through a closure, and be no plainer.
fn judge_block(block: &[u8], line: &mut [u8], before: usize, out: &mut [u8]) -> Progress
    requires { (length block.now ≤ 4096) × (length out.old ≡ 8192) }
    ensures { result.written ≤ 8192 }
{
    let mut kept = before;
    let mut written = 0;
    let mut rest = block;
    // `gather` says how much it passed: to part the block into lines before would go over each byte twice.
    while !rest.is_empty() {
        let gathered = gather(rest, line, kept);
        rest = &rest[gathered.passed..];
        kept = gathered.kept;
        if gathered.ended {
            out[written] = verdict(line, kept);
            out[written + 1] = b'\n';
            written += 2;
            kept = 0;
        }
    }
    Progress { kept, written }
}

// The answer to a last line that has no line end.
fn judge_rest(output: &impl Print, line: &[u8], kept: usize) -> io::Result<()> {
    if kept == 0 {
        return Ok(());
    }
    let answer = [verdict(line, kept), b'\n'];
    output.write_all(&answer)
}

// Judges the input to its end. A run ends sooner only where it cannot read or write.
fn judge_input(rt: &(impl Input + Print)) -> io::Result<()> {
    let mut input = rt.reader();
    let mut line = [0u8; 256];
    let mut kept = 0;
    for _ in 0..u64::MAX {
        let mut block = [0u8; 4096];
        let n = input.read(&mut block)?;
        if n == 0 {
            return judge_rest(rt, &line, kept);
        }
        let mut out = [0u8; 8192];
        let progress = judge_block(&block[..n], &mut line, kept, &mut out);
        let written = progress.written;
        rt.write_all(&out[..written])?;
        kept = progress.kept;
    }
    Ok(())
}

// Whether the program was given an argument behind its name.
fn has_argument(rt: &impl Env) -> bool {
    let mut start = [0u8; 1];
    !matches!(rt.arg(1, &mut start), Err(FillError::NotPresent))
}

fn main(rt: HostRuntime) -> io::Result<()> {
    if has_argument(&rt) {
        return rt.eprintln(
            "signature_check: unknown argument; it takes none and judges the lines of standard input",
        );
    }
    judge_input(&rt)
}
