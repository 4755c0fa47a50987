// The answers, put into a block of 65,536 bytes, which is written when it is full. Where the output does not take it, its error is given on, the
// only one that there is; of the block nothing is promised then, as nothing is otherwise.
ghost use Rattle.std.specs.Prelude.{◌≡◌, ◌+◌, ◌≤◌, OnOk};

use numerals::put_decimal;
use std::io;

// The answers that wait to be written, and the output.
#[derive(Drop)]
pub struct Answers<'a, P: Print> {
    to: &'a P,
    block: [u8; 65536],
    filled: usize,
    ghost within: { filled ≤ 65536 },
}

impl<'a, P: Print> Answers<'a, P> {
    pub fn new(to: &'a P) -> Answers<'a, P> {
        Answers {
            to,
            block: [0u8; 65536],
            filled: 0,
        }
    }

    // Writes what is there.
    pub fn flush(&mut self) -> io::Result<()>
        ensures { OnOk result (self.new.filled ≡ 0) }
    {
        self.to.write_all(&self.block[..self.filled])?;
        self.filled = 0;
        Ok(())
    }

    // Room for 64 bytes.
    fn make_room(&mut self) -> io::Result<()>
        ensures { OnOk result (self.new.filled + 64 ≤ 65536) }
    {
        if 65472 < self.filled {
            self.flush()?;
        }
        Ok(())
    }

    // A number and a byte behind it.
    fn number(&mut self, value: u64, behind: u8) {
        self.filled = put_decimal(value, behind, &mut self.block, self.filled);
    }

    // The refusal and a length, and a blank behind each.
    pub fn refusal_and_length(&mut self, refusal: u8, length: usize) -> io::Result<()> {
        self.make_room()?;
        self.number(u64::from(refusal), b' ');
        self.number(length as u64, b' ');
        Ok(())
    }

    // The refusal, the bytes used and the number of events, and the byte behind them.
    pub fn counts(&mut self, refusal: u8, used: usize, count: usize, behind: u8) -> io::Result<()> {
        self.refusal_and_length(refusal, used)?;
        self.number(count as u64, behind);
        Ok(())
    }

    // The first `count` events, or all that there is room for: three numbers each, and the byte behind them.
    pub fn events(&mut self, room: &[u64; 221184], count: usize) -> io::Result<()> {
        for (i, event) in room.chunks_exact(3).take(count).enumerate() {
            self.make_room()?;
            self.number(event[0], b':');
            self.number(event[1], b':');
            self.number(event[2], behind(i + 1, count));
        }
        Ok(())
    }

    // A byte, if there is room.
    fn put(&mut self, value: u8) {
        let place = self.filled;
        if place < self.block.len() {
            self.block[place] = value;
            self.filled = place + 1;
        }
    }

    fn byte(&mut self, value: u8) -> io::Result<()> {
        self.make_room()?;
        self.put(value);
        Ok(())
    }

    // Bytes in hexadecimal, `-` for none, and the line's end. The digits are many, and have no result each.
    pub fn bytes(&mut self, bytes: &[u8]) -> io::Result<()> {
        if bytes.is_empty() {
            self.byte(b'-')?;
        }
        for byte in bytes {
            for value in [digit(*byte / 16), digit(*byte)] {
                if 65472 < self.filled {
                    self.flush()?;
                }
                self.put(value);
            }
        }
        self.byte(b'\n')
    }
}

// What stands behind so many events of an answer: a blank, or the line's end behind the last.
pub fn behind(events: usize, count: usize) -> u8 {
    if events < count { b' ' } else { b'\n' }
}

// The last hexadecimal digit of a value.
fn digit(value: u8) -> u8 {
    b"0123456789abcdef"[usize::from(value % 16)]
}
