// What a character of a type text says: a number's width, a text, whether a key is fixed. And the value of a basic type, by its character.
ghost use Rattle.std.specs.Prelude.{◌≡◌, ◌<◌, length, IfSome};
ghost use Rattle.meaning.specs.Depths.{Depths};
ghost use Rattle.signature.specs.Places.{letter_of};
ghost use Rattle.signature.specs.Steps.{key_fixed, is_text};
ghost use Rattle.reader_basic.specs.Answers.{Whole, counts_of};
ghost use Rattle.reader_basic.specs.Parts.{Inside, key_reader};
ghost use Rattle.reader_steps.specs.Codes.{Held, WidthBy};
ghost use Rattle.reader_steps.specs.Rides.{context_of};

use crate::ride::context_of;
use reader_basic::Reading;
use reader_basic::basic::{boolean, byte, number, text_value};

// The width of the number that a character stands for.
pub fn number_width(code: u8) -> Option<usize>
    ensures { WidthBy (letter_of code) result }
{
    match code {
        b'y' => Some(1),
        b'n' | b'q' => Some(2),
        b'i' | b'u' => Some(4),
        b'x' | b't' | b'd' => Some(8),
        _ => None,
    }
}

// The width of the number that a maybe holds, by the characters from a place on.
pub fn held_width(text: &[u8], at: usize) -> Option<usize>
    requires { at < length text.now }
    ensures { IfSome result (Held text.now at) }
{
    if text[at] != b'm' || text.len() - at < 2 {
        return None;
    }
    number_width(text[at + 1])
}

// Whether a character stands for a text.
pub fn is_text(code: u8) -> bool
    ensures { result ≡ is_text (letter_of code) }
{
    matches!(code, b's' | b'o' | b'g')
}

// Whether a character stands for a basic type that is fixed.
pub fn is_fixed(code: u8) -> bool
    ensures { result ≡ key_fixed (letter_of code) }
{
    code == b'b' || number_width(code).is_some()
}

// What holds nothing further, by its character.
pub fn leaf(code: u8, part: &[u8], place: usize, ride: usize, out: &mut [u64], n: usize) -> Reading
    requires { Inside (length part.now) place (context_of ride) }
    ensures { (d : Depths) → Whole (key_reader (context_of ride).position (context_of ride).big (letter_of code) d place part.now) part.now n out.old out.new (counts_of result) }
{
    if code == b'y' {
        return byte(part, place, code, out, n);
    }
    if let Some(width) = number_width(code) {
        let context = context_of(ride);
        return number(part, place, context, code, width, out, n);
    }
    if is_text(code) {
        return text_value(part, place, code, out, n);
    }
    boolean(part, place, out, n)
}
