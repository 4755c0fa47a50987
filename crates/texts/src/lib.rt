// Texts: the part of the frame that a text is, and what is wrong with it. Nul and UTF-8, by table 3-7 of the Unicode Standard.
#![tactic(auto)]

ghost use Rattle.std.specs.Prelude.{◌≡◌, true, ◌+◌, ◌≤◌, ◌<◌, length};
ghost use Rattle.meaning.specs.Texts.{without_final_nul, wanted, following, after_byte, text_refusal};
ghost use Rattle.meaning.specs.Refused.{refusal_in};
ghost use Rattle.texts.specs.Letters.{wanted_of, PlainByte, InsideByte, Plain, PlainIf, PlainBytesIf, Two, Three};

use meaning::refusals::Refusal;

// The text of a part: all of it but one final nul. `check` judges it.
#[tactic(auto, using(meaning::proofs::TextSteps::nul_empty, meaning::proofs::TextSteps::nul_dropped, meaning::proofs::TextSteps::nul_missing))]
pub fn text(part: &[u8]) -> &[u8]
    ensures { result.now ≡ without_final_nul part.now }
{
    match part {
        [text @ .., 0] => text,
        _ => part,
    }
}

// What a letter still wants: so many bytes, the next of them from low to high.
#[derive(Clone, Copy)]
struct Wanted {
    count: u8,
    low: u8,
    high: u8,
}

impl Wanted {
    fn new(count: u8, low: u8, high: u8) -> Self
        ensures { wanted_of result ≡ wanted count low high }
    {
        Wanted { count, low, high }
    }
}

// What a letter's first byte wants behind it.
#[tactic(auto, unfolding(meaning::specs::Texts::following))]
fn first_byte(byte: u8) -> Wanted
    ensures { wanted_of result ≡ following byte }
{
    match byte {
        0..=127 => Wanted::new(0, 0, 0),
        194..=223 => Wanted::new(1, 128, 191),
        224 => Wanted::new(2, 160, 191),
        237 => Wanted::new(2, 128, 159),
        225..=239 => Wanted::new(2, 128, 191),
        240 => Wanted::new(3, 144, 191),
        241..=243 => Wanted::new(3, 128, 191),
        244 => Wanted::new(3, 128, 143),
        _ => Wanted::new(1, 1, 0),
    }
}

// What is wanted after one more byte.
#[tactic(auto, unfolding(meaning::specs::Texts::after_byte))]
fn after_byte(wanted: Wanted, byte: u8) -> Wanted
    ensures { wanted_of result ≡ after_byte (wanted_of wanted) byte }
{
    if wanted.count == 0 {
        first_byte(byte)
    } else if (wanted.low..=wanted.high).contains(&byte) {
        Wanted::new(wanted.count - 1, 128, 191)
    } else {
        Wanted::new(1, 1, 0)
    }
}

// Whether a byte is a letter by itself.
fn plain(byte: u8) -> bool
    ensures { result ≡ true → PlainByte byte }
{
    matches!(byte, 1..=127)
}

// Whether N bytes from a place on are: it looks at all of them, so that no branch is taken for each.
fn plain_bytes<const N: usize>(text: &[u8], i: usize) -> bool
    requires { i + N ≤ length text.now }
    ensures { PlainBytesIf result text.now i (i + N) }
{
    text[i..i + N]
        .iter()
        .fold(true, |all, byte| all & plain(*byte))
}

// Whether a text of N bytes up to twice as many is: by its first N and its last N, which may overlap.
fn plain_ends<const N: usize>(text: &[u8]) -> bool
    requires { (N ≤ length text.now) × (length text.now ≤ N + N) }
    ensures { PlainIf result text.now 0 (length text.now) }
{
    plain_bytes::<N>(text, 0) & plain_bytes::<N>(text, text.len() - N)
}

// Whether all of a text of fewer than sixteen bytes is.
fn plain_short(text: &[u8]) -> bool
    requires { length text.now < 16 }
    ensures { PlainIf result text.now 0 (length text.now) }
{
    if 8 <= text.len() {
        plain_ends::<8>(text)
    } else if 4 <= text.len() {
        plain_ends::<4>(text)
    } else if 2 <= text.len() {
        plain_ends::<2>(text)
    } else {
        text.is_empty() || plain(text[0])
    }
}

// As far as sixteen bytes at a time go, from a place on. (A `for` over chunks would count them, and turn the count back into a place.)
fn plain_sixteens(text: &[u8], start: usize) -> usize
    requires { start ≤ length text.now }
    ensures { Plain text.now start result }
{
    let mut i = start;
    while 16 <= text.len() - i && plain_bytes::<16>(text, i) {
        i += 16;
    }
    i
}

// Whether what is left of a longer text is, where that is fewer than sixteen bytes: by the last sixteen.
fn plain_last(text: &[u8], i: usize) -> bool
    requires { (16 ≤ length text.now) × (i ≤ length text.now) }
    ensures { PlainIf result text.now i (length text.now) }
{
    text.len() - i < 16 && plain_bytes::<16>(text, text.len() - 16)
}

// Behind eight bytes at a place; the place itself where they are not.
fn eight_end(text: &[u8], i: usize) -> usize
    requires { i ≤ length text.now }
    ensures { Plain text.now i result }
{
    if 8 <= text.len() - i && plain_bytes::<8>(text, i) {
        i + 8
    } else {
        i
    }
}

// Where a run ends, in steps: eight bytes, since most runs between other letters are short; then sixteens; then eight again.
fn plain_steps(text: &[u8], start: usize) -> usize
    requires { start ≤ length text.now }
    ensures { Plain text.now start result }
{
    let i = eight_end(text, start);
    if i == start {
        return start;
    }
    eight_end(text, plain_sixteens(text, i))
}

// Where a run of letters of one byte ends, from a place on.
fn plain_end(text: &[u8], start: usize) -> usize
    requires { start ≤ length text.now }
    ensures { Plain text.now start result }
{
    for i in plain_steps(text, start)..text.len() {
        if !plain(text[i]) {
            return i;
        }
    }
    text.len()
}

// Whether a byte stands inside a letter.
fn inside(byte: u8) -> bool
    ensures { result ≡ true → InsideByte byte }
{
    matches!(byte, 128..=191)
}

// Whether two bytes, and three, are a letter in the ranges that most letters have.
fn letter_of_two(first: u8, second: u8) -> bool
    ensures { result ≡ true → Two first second }
{
    matches!(first, 194..=223) && inside(second)
}

fn letter_of_three(first: u8, second: u8, third: u8) -> bool
    ensures { result ≡ true → Three first second third }
{
    matches!(first, 225..=236) && inside(second) && inside(third)
}

// Whether one of three bytes stands at a place.
fn three_at(text: &[u8], i: usize) -> bool
    requires { i + 3 ≤ length text.now }
    ensures { PlainIf result text.now i (i + 3) }
{
    letter_of_three(text[i], text[i + 1], text[i + 2])
}

// Where such letters of three bytes end, one behind another, from a place on: two at a time, as far as they go, by places as above.
fn threes_end(text: &[u8], start: usize) -> usize
    requires { start ≤ length text.now }
    ensures { Plain text.now start result }
{
    let mut i = start;
    while 6 <= text.len() - i {
        if !three_at(text, i) {
            return i;
        }
        if !three_at(text, i + 3) {
            return i + 3;
        }
        i += 6;
    }
    if 3 <= text.len() - i && three_at(text, i) {
        i + 3
    } else {
        i
    }
}

// Where the letter of three or four bytes at a place ends, by what its first byte wants; the place itself where there is none.
fn wanted_end(text: &[u8], i: usize) -> usize
    requires { i ≤ length text.now }
    ensures { Plain text.now i result }
{
    if text.len() - i < 4 {
        return i;
    }
    let first = text[i];
    let second = text[i + 1];
    let wanted = first_byte(first);
    if first < 128
        || second < 128
        || second < wanted.low
        || wanted.high < second
        || !inside(text[i + 2])
    {
        return i;
    }
    match wanted.count {
        2 => i + 3,
        3 if inside(text[i + 3]) => i + 4,
        _ => i,
    }
}

// Where letters of three bytes end, or a letter of four, at a place; the place itself where there are none.
fn wide_end(text: &[u8], i: usize) -> usize
    requires { i ≤ length text.now }
    ensures { Plain text.now i result }
{
    let end = threes_end(text, i);
    if end == i { wanted_end(text, i) } else { end }
}

// Where a run of whole letters ends, from a place on, which goes on by whole runs: no `for` has such steps.
#[tactic(auto, using(crate::proofs::Runs::plain_on, crate::proofs::Runs::plain_two_bytes))]
fn letters_end(text: &[u8], start: usize) -> usize
    requires { start ≤ length text.now }
    ensures { Plain text.now start result }
{
    let mut i = start;
    while 2 <= text.len() - i {
        let first = text[i];
        let second = text[i + 1];
        if plain(first) {
            i = if plain(second) {
                plain_end(text, i + 1)
            } else {
                i + 1
            };
        } else if letter_of_two(first, second) {
            i += 2;
        } else {
            let end = wide_end(text, i);
            if end == i {
                break;
            }
            i = end;
        }
    }
    i
}

// Checks a text from a place on, up to which it has whole letters, by single bytes and whole runs: no `for` has such steps.
fn check_from(text: &[u8], start: usize) -> Result<(), Refusal>
    requires { Plain text.now 0 start }
    ensures { refusal_in result ≡ text_refusal text.now }
{
    let mut wanted = Wanted::new(0, 0, 0);
    let mut i = start;
    while i < text.len() {
        let byte = text[i];
        if byte == 0 {
            return Err(Refusal::NulInText);
        }
        wanted = after_byte(wanted, byte);
        i += 1;
        if wanted.count == 0 {
            i = letters_end(text, i);
        }
    }
    if wanted.count == 0 {
        Ok(())
    } else {
        Err(Refusal::NotUtf8)
    }
}

// Checks a text: a nul in it is refused before a letter that is not UTF-8.
pub fn check(text: &[u8]) -> Result<(), Refusal>
    ensures { refusal_in result ≡ text_refusal text.now }
{
    let start = if text.len() < 16 {
        if plain_short(text) {
            return Ok(());
        }
        0
    } else {
        let i = plain_sixteens(text, 0);
        if plain_last(text, i) {
            return Ok(());
        }
        i
    };
    check_from(text, start)
}
