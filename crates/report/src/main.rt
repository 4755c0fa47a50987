// The monthly report: report FIRST LAST < LINES. Standard input is lines of hexadecimal, one frame of type (tamn) a line; standard output
// is what the lines within the span of seconds say of each sensor. What is counted and printed is proved in the crate `reporting`; here
// arguments and input are read and output written, block by block.
#![tactic(auto)]

use numerals::decimal;
use reporting::states::Report;
use std::env::{Env, FillError};
use std::io;
use std::io::Read;

// A second that stands in the arguments; one of more than 64 bytes is none.
fn second_given(rt: &impl Env, i: usize) -> Option<u64> {
    let mut word = [0u8; 64];
    let n = rt.arg(i, &mut word).unwrap_or(0);
    decimal(&word[..n])
}

// Writes the report, for which there is room: 66 lines of 192 bytes.
fn write_report(rt: &(impl Print + Eprint), report: &Report) -> io::Result<()> {
    let mut out = [0u8; 12672];
    let written = report.print(0, &mut out).written;
    if written == 0 {
        return rt.eprintln("report: 20, more than 2678400 lines; no report");
    }
    if rt.write_all(&out[..written]).is_err() {
        return rt.eprintln("report: cannot write the output");
    }
    Ok(())
}

// Reports standard input, to its end.
fn report_input(rt: &(impl Input + Print + Eprint), first: u64, last: u64) -> io::Result<()> {
    let mut input = rt.reader();
    let mut report = Report::new(first, last);
    for _ in 0..u64::MAX {
        let mut block = [0u8; 65536];
        let Ok(n) = input.read(&mut block) else {
            return rt.eprintln("report: cannot read the input");
        };
        if n == 0 {
            report.finish();
            return write_report(rt, &report);
        }
        report.take(&block[..n]);
    }
    Ok(())
}

fn wrong_arguments(rt: &impl Eprint) -> io::Result<()> {
    rt.eprintln("report: wants the first and the last second, in decimal: report FIRST LAST < FILE")
}

// Whether the program was given an argument of a number, where that of 0 is its name.
fn has_argument(rt: &impl Env, i: usize) -> bool {
    let mut start = [0u8; 1];
    !matches!(rt.arg(i, &mut start), Err(FillError::NotPresent))
}

fn main(rt: HostRuntime) -> io::Result<()> {
    if !has_argument(&rt, 2) || has_argument(&rt, 3) {
        return wrong_arguments(&rt);
    }
    let (Some(first), Some(last)) = (second_given(&rt, 1), second_given(&rt, 2)) else {
        return wrong_arguments(&rt);
    };
    report_input(&rt, first, last)
}
