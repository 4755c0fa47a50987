// The frame lister. Standard input is a type's line and then lines of hexadecimal, one frame a line; standard output is, for each
// frame, its number, its refusal, the bytes used and the number of events. What is printed is proved in the crate `listing`; here input
// is read and output written, block by block.
#![tactic(auto)]

use listing::{State, finish, fresh, list};
use std::env::{Env, FillError};
use std::io;
use std::io::Read;

// Lists a block, and gives the state behind it, unless the output did not take all that was printed.
fn list_block(
    out: &impl Print,
    mut state: State,
    text: &mut [u8; 256],
    frame: &mut [u8; 16384],
    block: &[u8],
) -> io::Result<State> {
    let mut lines = [0u8; 8192];
    let mut rest = block;
    // The lister says how much of the block it passed, so no iterator over the block goes with it.
    while !rest.is_empty() {
        let progress = list(state, text, frame, rest, &mut lines);
        state = progress.state;
        out.write_all(&lines[..progress.written])?;
        rest = &rest[progress.passed..];
    }
    Ok(state)
}

fn list_end(
    out: &impl Print,
    state: State,
    text: &[u8; 256],
    frame: &[u8; 16384],
) -> io::Result<()> {
    let mut line = [0u8; 84];
    let written = finish(state, text, frame, &mut line);
    out.write_all(&line[..written])
}

fn output_closed(rt: &impl Eprint) -> io::Result<()> {
    rt.eprintln("lister: cannot write the output")
}

// Lists standard input to its end.
fn list_input(rt: &(impl Input + Print + Eprint)) -> io::Result<()> {
    let mut input = rt.reader();
    let mut text = [0u8; 256];
    let mut frame = [0u8; 16384];
    let mut state = fresh();
    for _ in 0..u64::MAX {
        let mut block = [0u8; 65536];
        let Ok(n) = input.read(&mut block) else {
            return rt.eprintln("lister: cannot read the input");
        };
        if n == 0 {
            if list_end(rt, state, &text, &frame).is_err() {
                return output_closed(rt);
            }
            return Ok(());
        }
        let Ok(next) = list_block(rt, state, &mut text, &mut frame, &block[..n]) else {
            return output_closed(rt);
        };
        state = next;
    }
    Ok(())
}

// Whether the program was given an argument behind its name.
fn has_argument(rt: &impl Env) -> bool {
    let mut start = [0u8; 1];
    !matches!(rt.arg(1, &mut start), Err(FillError::NotPresent))
}

fn main(rt: HostRuntime) -> io::Result<()> {
    if has_argument(&rt) {
        return rt.eprintln(
            "lister: unknown argument; it takes none and lists standard input: lister < FILE",
        );
    }
    list_input(&rt)
}
