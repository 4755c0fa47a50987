// The words of a line, and the numbers and bytes that they spell: 0 and none where they spell no such thing.
ghost use Rattle.std.specs.Prelude.{◌≡◌, ◌≤◌, length, take};

pub fn number(line: &[u8], n: usize) -> usize {
    numerals::decimal(lines::word(line, n)).unwrap_or(0) as usize
}

// Puts the bytes that a word spells at the front of a buffer, and says how many there are.
pub fn bytes(line: &[u8], n: usize, out: &mut [u8]) -> usize
    ensures { (result ≤ length out.new) × (result ≡ length (take result out.new)) }
{
    numerals::bytes(lines::word(line, n), out).unwrap_or(0)
}
