// Lines from blocks, and their words: with `numerals`, what the programs that read and print text share.
#![tactic(auto)]

ghost use Rattle.std.specs.Prelude.{◌≡◌, ◌≤◌, length, take};
ghost use Rattle.lines.specs.Lines.{more, stored, Gathers};
ghost use Rattle.lines.specs.Words.{place, word_at};

// What `gather` did: how many bytes the line has so far, counted to one above what its memory holds; how many bytes of the block it
// passed; and whether the line ended. `ended` is no flag over the other two, which count either way.
#[derive(Clone, Copy)]
pub struct Gathered {
    pub kept: usize,
    pub passed: usize,
    pub ended: bool,
}

// Keeps the bytes of a block behind those of a line that are kept already, up to the line's end or the block's.
pub fn gather(block: &[u8], line: &mut [u8], kept: usize) -> Gathered
    ensures { Gathers line.old line.new kept block.now result }
{
    let mut count = kept;
    for (i, byte) in block.iter().enumerate() {
        if *byte == b'\n' {
            return Gathered {
                kept: count,
                passed: i + 1,
                ended: true,
            };
        }
        count = keep(line, count, *byte);
    }
    Gathered {
        kept: count,
        passed: block.len(),
        ended: false,
    }
}

// Keeps a byte behind those that are kept already, if the memory has room for it, and counts it.
pub fn keep(line: &mut [u8], kept: usize, byte: u8) -> usize
    ensures { (result ≡ more (length line.old) kept) × (line.new ≡ stored (length line.old) line.old kept byte) }
{
    if kept < line.len() {
        line[kept] = byte;
        kept + 1
    } else {
        line.len() + 1
    }
}

// The first bytes of a slice, or all that it has.
pub fn front(bytes: &[u8], n: usize) -> &[u8]
    ensures { result.now ≡ take n bytes.now }
{
    &bytes[..n.min(bytes.len())]
}

// Where a byte first stands, or the end.
pub fn find(text: &[u8], byte: u8) -> usize
    ensures { (result ≡ place byte text.now) × (result ≤ length text.now) }
{
    text.iter().position(|b| *b == byte).unwrap_or(text.len())
}

// A word by its number from 0, empty behind the last.
pub fn word(line: &[u8], n: usize) -> &[u8]
    ensures { result.now ≡ word_at n line.now }
{
    line.split(|b| *b == b' ').nth(n).unwrap_or(&[])
}
