// The answers, put out with the refusal's number in front, 0 where there is none.
use meaning::refusals::Refusal;
use std::io;

pub fn answer(out: &impl Print, answer: Result<usize, Refusal>) -> io::Result<()> {
    match answer {
        Ok(value) => println!(out; "0 {value}"),
        Err(refusal) => println!(out; "{} 0", refusal.number()),
    }
}

// Two digits for each byte, `-` for none.
pub fn bytes(out: &impl Print, bytes: &[u8]) -> io::Result<()> {
    if bytes.is_empty() {
        return out.print("-");
    }
    for byte in bytes {
        print!(out; "{byte:02x}")?;
    }
    Ok(())
}
