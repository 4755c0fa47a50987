// Bytes in hexadecimal and numbers in decimal: with `lines`, what the programs that read and print text share.
#![tactic(auto)]

ghost use Rattle.std.specs.Prelude.{◌≡◌, true, ◌*◌, ◌<◌, ◌≤◌, ltb, length, IfSome, MatchOption};
ghost use Rattle.std.proofs.Math.Option.{some};
ghost use Rattle.numerals.specs.Storing.{Stores};
ghost use Rattle.numerals.specs.Hexadecimal.{digit as digit_of, digit_in, has_byte, bytes_of, all_digits, Spells};
ghost use Rattle.numerals.specs.Decimals.{digits, numeral, number_of, understood};

// The value of a hexadecimal digit.
pub fn digit(byte: u8) -> Option<u8>
    ensures value { digit_in result ≡ digit_of byte }
    ensures small { IfSome result (λ d. d < 16) }
{
    match byte {
        b'0'..=b'9' => Some(byte - b'0'),
        b'A'..=b'F' => Some(byte - b'A' + 10),
        b'a'..=b'f' => Some(byte - b'a' + 10),
        _ => None,
    }
}

// Whether a line of hexadecimal has a byte, by what is kept of it: whether it is spoilt by a byte that is no digit, the value of a pair's
// first digit where one waits, and how many bytes its pairs have spelled.
pub fn begun(spoilt: bool, half: Option<u8>, kept: usize) -> bool
    ensures { result ≡ has_byte spoilt (digit_in half) kept }
{
    spoilt || half.is_some() || 0 < kept
}

// Puts the bytes that a text spells at the front of a slice, if it spells bytes and they have room: how many, then.
pub fn bytes(text: &[u8], out: &mut [u8]) -> Option<usize>
    ensures { Spells text.now out.old out.new result }
{
    let count = text.len() / 2;
    if text.len() != 2 * count || out.len() < count || !all_digits(text) {
        return None;
    }
    put_bytes(text, &mut out[..count]);
    Some(count)
}

fn all_digits(text: &[u8]) -> bool
    ensures { result ≡ all_digits text.now }
{
    text.iter().all(|byte| is_digit(*byte))
}

fn is_digit(byte: u8) -> bool
    ensures { result ≡ ltb (digit_of byte) 16 }
{
    digit(byte).is_some()
}

// The bytes that a text of digits spells.
fn put_bytes(text: &[u8], out: &mut [u8])
    requires even { length text.now ≡ 2 * length out.old }
    requires digits { all_digits text.now ≡ true }
    ensures { bytes_of text.now ≡ some out.new }
{
    for (n, byte) in out.iter_mut().enumerate() {
        *byte = 16 * value_of(text[2 * n]) + value_of(text[2 * n + 1]);
    }
}

// The value of a digit, 16 for any other byte: so a loop over digits has no way out that nothing takes.
fn value_of(byte: u8) -> u8
    ensures { result ≡ digit_of byte }
{
    digit(byte).unwrap_or(16)
}

// The number that a text spells in decimal, up to the largest of 64 bits.
pub fn decimal(text: &[u8]) -> Option<u64>
    ensures { result ≡ understood (number_of text.now) }
{
    let mut value = 0u64;
    for byte in text {
        let ones = ones_of(*byte)?;
        value = value.checked_mul(10)?.checked_add(u64::from(ones))?;
    }
    if text.is_empty() { None } else { Some(value) }
}

// The value of a decimal digit.
fn ones_of(byte: u8) -> Option<u8>
    ensures { MatchOption result (10 ≤ digit_of byte) (λ d. (d ≡ digit_of byte) × (d < 10)) }
{
    digit(byte).filter(|ones| *ones < 10)
}

// Puts a number in decimal and a byte behind it from a place on, if they have room there. Says the place behind them.
pub fn put_decimal(n: u64, end: u8, out: &mut [u8], at: usize) -> usize
    ensures { Stores out.old out.new at (numeral n end) result }
{
    let count = places(n);
    if out.len() <= at || out.len() - at <= count {
        return at;
    }
    put_digits(n, &mut out[at..at + count]);
    out[at + count] = end;
    at + count + 1
}

// How many digits a number has.
fn places(n: u64) -> usize
    ensures value { result ≡ length (digits 20 n) }
    ensures few { result ≤ 20 }
{
    let mut rest = n;
    for count in 1..20 {
        if rest < 10 {
            return count;
        }
        rest /= 10;
    }
    20
}

fn put_digits(n: u64, out: &mut [u8])
    requires { length out.old ≡ length (digits 20 n) }
    ensures { out.new ≡ digits 20 n }
{
    let mut rest = n;
    for i in (0..out.len()).rev() {
        out[i] = b'0' + (rest % 10) as u8;
        rest /= 10;
    }
}
