// The words of a question, and the numbers and the bytes that they spell.
ghost use Rattle.std.specs.Prelude.{◌≡◌, ◌≤◌, length, take, drop, IfSome};
ghost use Rattle.lines.specs.Words.{place};

use lines::find;
use numerals::decimal;

// The type and the byte order in front of a question, and the words behind them.
#[derive(Clone, Copy)]
pub struct Head<'a> {
    pub signature: &'a [u8],
    pub big: bool,
    pub rest: &'a [u8],
}

// The first word of a text, and what stands behind it: nothing, or a blank and more.
pub fn first_word(text: &[u8]) -> (&[u8], &[u8])
    ensures word { result.0.now ≡ take (place 32 text.now) text.now }
    ensures behind { result.1.now ≡ drop (place 32 text.now) text.now }
{
    text.split_at(find(text, b' '))
}

pub fn understand(line: &[u8]) -> Option<Head<'_>>
    ensures { IfSome result (λ h. (length h.signature.now ≤ length line.now) × (length h.rest.now ≤ length line.now)) }
{
    let (signature, behind) = first_word(line);
    if let Some(rest) = behind.strip_prefix(b" b ") {
        return Some(Head {
            signature,
            big: true,
            rest,
        });
    }
    let rest = behind.strip_prefix(b" l ")?;
    Some(Head {
        signature,
        big: false,
        rest,
    })
}

// The bytes that a word spells, put at the front of a frame: pairs of digits, or `-` for none.
pub fn bytes<'a>(word: &[u8], frame: &'a mut [u8]) -> Option<&'a mut [u8]>
    ensures { IfSome result (λ b. length b.now ≤ length frame.old) }
{
    match word {
        b"" => None,
        b"-" => Some(&mut frame[..0]),
        _ => {
            let count = numerals::bytes(word, frame)?;
            Some(&mut frame[..count])
        }
    }
}

// The numbers of a text, each with a blank before it, put into a row.
pub fn numbers<'a>(text: &[u8], row: &'a mut [u64; 221184]) -> Option<&'a [u64]>
    ensures { IfSome result (λ r. length r.now ≤ 221184) }
{
    let mut count = 0;
    for word in text.split(|byte| *byte == b' ').skip(1) {
        let number = decimal(word)?;
        if row.len() <= count {
            return None;
        }
        row[count] = number;
        count += 1;
    }
    Some(&row[..count])
}
