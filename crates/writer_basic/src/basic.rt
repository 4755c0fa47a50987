// One event at a time: what stands at a place of the events, and the values that take one event.
ghost use Rattle.std.specs.Prelude.{◌≡◌, List, Bool, ℕ, ◌+◌, ◌≤◌, ◌^◌, ltb, length, drop, MatchResult};
ghost use Rattle.meaning.specs.Depths.{Depths};
ghost use Rattle.meaning.specs.Refused.{number_of};
ghost use Rattle.meaning.specs.Types.{Number as NumberType, Text as TextType, bool, number as number_basic, text as text_basic, number_width};
ghost use Rattle.meaning.specs.Letters.{number_letter, text_letter};
ghost use Rattle.meaning.specs.Padding.{Aligns};
ghost use Rattle.meaning_writing.specs.Emitting.{emit_basic};
ghost use Rattle.writer_store.specs.Stores.{cap};
ghost use Rattle.writer_basic.specs.Wrote.{answer_in, Opens, Carried, Taken, Untaken, key_basic, IsKey, Done};
ghost use Rattle.signature.specs.Items.{item_kind};

use crate::Wrote;
use meaning::letters::{ARRAY_LETTER, BOOL_LETTER, DICTIONARY_LETTER};
use meaning::refusals::Refusal;
use signature::Letter;
use signature::items::Item;
use texts::check;
use writer_store::{add, number_bytes, put_text};

// What the event at i carries, where it is of a kind.
fn carried(events: &[u64], i: usize, kind: u64) -> Result<u64, Refusal>
    requires { i ≤ length events.now }
    ensures { Carried kind events.now i result }
{
    if events.len() - i < 3 {
        return Err(Refusal::NoValue);
    }
    if events[i] != kind {
        return Err(Refusal::NoValue);
    }
    Ok(events[i + 2])
}

// Whether the event at i is of a kind and carries 0.
pub fn plain_at(events: &[u64], i: usize, kind: u64) -> bool
    requires { i ≤ length events.now }
    ensures { Opens kind events.now i result }
{
    match carried(events, i, kind) {
        Ok(x) => x == 0,
        Err(_) => false,
    }
}

// The text of a kind that the event at i views.
pub fn text_at<'a>(
    events: &[u64],
    texts: &'a [u8],
    i: usize,
    kind: u64,
) -> Result<&'a [u8], Refusal>
    requires { i ≤ length events.now }
    ensures { MatchResult result (λ text. Taken texts.now kind events.now i text.now) (λ refusal. Untaken texts.now kind events.now i (number_of refusal)) }
{
    let count = carried(events, i, kind)? as usize;
    let start = events[i + 1] as usize;
    if texts.len() < count {
        return Err(Refusal::NoValue);
    }
    if texts.len() - count < start {
        return Err(Refusal::NoValue);
    }
    let text = &texts[start..start + count];
    check(text)?;
    Ok(text)
}

pub fn boolean(events: &[u64], i: usize, out: &mut [u8], start: usize) -> Result<Wrote, Refusal>
    requires { (i ≤ length events.now) × (start ≤ cap) }
    ensures { (texts : List ℕ) (big : Bool) (d : Depths) (top : ℕ) (s : List ℕ) → Done (emit_basic texts big bool d (drop i events.now)) events.now i start top out.old out.new s s (answer_in result) }
{
    let x = carried(events, i, BOOL_LETTER)?;
    if 1 < x {
        return Err(Refusal::NoValue);
    }
    number_bytes(out, start, 1, x, false);
    Ok(Wrote {
        next: i + 3,
        size: 1,
    })
}

// Whether a number fits a width.
fn suits(x: u64, width: usize) -> bool
    requires { Aligns width }
    ensures { result ≡ ltb x (256 ^ width) }
{
    match width {
        1 => x < 256,
        2 => x < 65536,
        4 => x < 4294967296,
        _ => true,
    }
}

pub fn number(
    events: &[u64],
    i: usize,
    code: u8,
    width: usize,
    big: bool,
    out: &mut [u8],
    start: usize,
) -> Result<Wrote, Refusal>
    requires { (i ≤ length events.now) × (start ≤ cap) × Aligns width }
    ensures { (n : NumberType) (texts : List ℕ) (d : Depths) (top : ℕ) (s : List ℕ) → code ≡ number_letter n → width ≡ number_width n → Done (emit_basic texts big (number_basic n) d (drop i events.now)) events.now i start top out.old out.new s s (answer_in result) }
{
    let x = carried(events, i, u64::from(code))?;
    if !suits(x, width) {
        return Err(Refusal::NoValue);
    }
    number_bytes(out, start, width, x, big);
    Ok(Wrote {
        next: i + 3,
        size: width,
    })
}

pub fn text_value(
    events: &[u64],
    texts: &[u8],
    i: usize,
    code: u8,
    out: &mut [u8],
    start: usize,
) -> Result<Wrote, Refusal>
    requires { (i ≤ length events.now) × (start ≤ cap + cap) }
    ensures { (n : TextType) (big : Bool) (d : Depths) (top : ℕ) (s : List ℕ) → code ≡ text_letter n → Done (emit_basic texts.now big (text_basic n) d (drop i events.now)) events.now i start top out.old out.new s s (answer_in result) }
{
    let text = text_at(events, texts, i, u64::from(code))?;
    put_text(out, start, text);
    Ok(Wrote {
        next: i + 3,
        size: add(1, text.len()),
    })
}

// A value that takes one event, by the letter of its type.
pub fn basic_value(
    key: Letter,
    events: &[u64],
    texts: &[u8],
    i: usize,
    big: bool,
    out: &mut [u8],
    start: usize,
) -> Result<Wrote, Refusal>
    requires { (i ≤ length events.now) × (start ≤ cap) × IsKey key }
    ensures { (d : Depths) (top : ℕ) (s : List ℕ) → Done (emit_basic texts.now big (key_basic key) d (drop i events.now)) events.now i start top out.old out.new s s (answer_in result) }
{
    match key {
        Letter::Number { code, width } => number(events, i, code, width, big, out, start),
        Letter::Text { code } => text_value(events, texts, i, code, out, start),
        _ => boolean(events, i, out, start),
    }
}

// The kind of an array's first event, or of a dictionary's.
pub fn item_kind(item: Item) -> u64
    ensures { result ≡ item_kind item }
{
    if item.entry {
        DICTIONARY_LETTER
    } else {
        ARRAY_LETTER
    }
}
