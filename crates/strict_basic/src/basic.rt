// The values that hold no other, dictionaries' keys, arrays of texts and of readings, and types of one letter.
ghost use Rattle.std.specs.Prelude.{◌≡◌, false, ◌≤◌, length, IfSome};
ghost use Rattle.std.specs.Fn.{FnReturnsAt};
ghost use Rattle.meaning.specs.Depths.{Depths};
ghost use Rattle.meaning.specs.Limits.{largest_frame};
ghost use Rattle.meaning.specs.Padding.{Aligns};
ghost use Rattle.meaning_writing.specs.Strict.{Test, child_written, elements_written};
ghost use Rattle.strict_basic.specs.Basics.{bool_written, text_written, letter_written, letter_extent, letter_test, text_test, is_basic, may_open, reading_test, Judges, LoneType, lone_variant};
ghost use Rattle.strict_ends.specs.Ends.{Laid, Standing};

use signature::{Letter, letter_at};
use strict_ends::{Extent, Rows, offset_at, start_of};
use texts::check;

#[tactic(auto, unfolding(meaning_writing::specs::Strict::basic_written))]
fn boolean_written(part: &[u8]) -> bool
    ensures { result ≡ bool_written part.now }
{
    part.len() == 1 && part[0] <= 1
}

fn text_written(part: &[u8]) -> bool
    ensures { result ≡ text_written part.now }
{
    let Some((end, text)) = part.split_last() else {
        return false;
    };
    let closed = *end == 0;
    closed && check(text).is_ok()
}

// Whether a letter is a basic type's.
pub fn is_basic(kind: Letter) -> bool
    ensures { result ≡ is_basic kind }
{
    matches!(
        kind,
        Letter::Boolean | Letter::Number { .. } | Letter::Text { .. }
    )
}

// A basic value, by its letter.
pub fn letter_written(kind: Letter, part: &[u8]) -> bool
    ensures { result ≡ letter_written kind part.now }
{
    match kind {
        Letter::Number { code: _, width } => part.len() == width,
        Letter::Text { code: _ } => text_written(part),
        _ => boolean_written(part),
    }
}

// How a basic value lies among others, by its letter.
pub fn extent_of(kind: Letter) -> Extent
    ensures { result ≡ letter_extent kind }
{
    let (alignment, fixed, size) = match kind {
        Letter::Number { code: _, width } => (width, true, width),
        Letter::Text { code: _ } => (1, false, 0),
        _ => (1, true, 1),
    };
    Extent {
        alignment,
        fixed,
        size,
    }
}

// A dictionary's key, which ends at e, and not behind a limit.
pub fn key_written(key: Letter, part: &[u8], limit: usize, e: usize) -> bool
    requires { (limit ≤ length part.now) × (length part.now ≤ largest_frame) × Laid (letter_extent key) }
    ensures { (d : Depths) → result ≡ child_written (letter_test key) d part.now limit 0 e }
{
    let extent = extent_of(key);
    let Some(from) = start_of(part, limit, 0, e, extent.alignment) else {
        return false;
    };
    letter_written(key, &part[from..e])
}

// The elements of an array that are not fixed, one behind another, each behind its padding and as a test wants it.
fn elements_written<F: Fn(&[u8]) -> bool>(
    part: &[u8],
    rows: Rows,
    alignment: usize,
    accepts: F,
) -> bool
    requires { (length part.now ≤ largest_frame) × Standing part.now false rows × Aligns alignment × F.IsAlwaysCallable accepts }
    ensures { (t : Test) (d : Depths) → Judges (FnReturnsAt F.Fn accepts) alignment t d → result ≡ elements_written false t d part.now rows.width rows.body rows.count rows.from 0 }
{
    let mut place = 0;
    for i in 0..rows.count {
        let stop = offset_at(part, rows.from + i * rows.width, rows.width);
        let Some(start) = start_of(part, rows.body, place, stop, alignment) else {
            return false;
        };
        if !accepts(&part[start..stop]) {
            return false;
        }
        place = stop;
    }
    place == rows.body
}

// The elements of an array of texts.
pub fn texts_written(part: &[u8], rows: Rows) -> bool
    requires { (length part.now ≤ largest_frame) × Standing part.now false rows }
    ensures { (d : Depths) → result ≡ elements_written false text_test d part.now rows.width rows.body rows.count rows.from 0 }
{
    elements_written(part, rows, 1, |text: &[u8]| text_written(text))
}

// The elements of an array of readings, whose numbers have a width: no byte, or that many where one more maybe may be open.
pub fn readings_written(part: &[u8], rows: Rows, number: usize, room: bool) -> bool
    requires { (length part.now ≤ largest_frame) × Standing part.now false rows × Aligns number }
    ensures { (d : Depths) → room ≡ may_open d → result ≡ elements_written false (reading_test number) d part.now rows.width rows.body rows.count rows.from 0 }
{
    let held = if room { number } else { 0 };
    elements_written(part, rows, number, |reading: &[u8]| {
        reading.len() == held || reading.len() == 0
    })
}

// A type text of one letter that is a basic type's: that letter.
pub fn lone_basic(text: &[u8]) -> Option<Letter>
    ensures { IfSome result (λ kind. LoneType text.now kind) }
{
    let kind = letter_at(text, 0);
    if text.len() == 1 && is_basic(kind) {
        Some(kind)
    } else {
        None
    }
}

// Whether a type text is a variant's letter alone.
pub fn lone_variant(text: &[u8]) -> bool
    ensures { result ≡ lone_variant text.now }
{
    text.len() == 1 && text[0] == b'v'
}
