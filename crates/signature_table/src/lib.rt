// Judges a type text, one complete type of 1 to 255 characters, by filling a table beside it; what stands at a place is then one look
// into the table, which `signature` takes.
//
// `fill_from` goes down the text and on its way back finds each type's shape from the shapes of its children, which stand behind its
// letter. Each place is found once, and looked at once more by the structure whose field it is; so the whole costs the length of the
// text, and a frame of the stack for each sixteen characters.
//
// A shape is here the number that the table holds, 0 where no type begins: it is read from the table and put there, and an Option around it would only be
// made and opened again at both ends. So is a key's alignment, 0 for what is no key.
#![tactic(auto)]

ghost use Rattle.std.specs.Prelude.{◌≡◌, ℕ, ◌+◌, ◌-◌, ◌*◌, ◌%◌, ◌/◌, ◌≤◌, ◌<◌, length, set};
ghost use Rattle.meaning.specs.Limits.{longest_type};
ghost use Rattle.signature.specs.Places.{is_type, letter_at};
ghost use Rattle.signature.specs.Shapes.{packed, shape_at, CharacterAt, ShapedFrom, Behind, Filled, Answered};
ghost use Rattle.signature.specs.Steps.{key_alignment};

use meaning::limits::LONGEST_TYPE;
use signature::shapes::{alignment_of, fixed_of, next_of};
use signature::{Letter, letter_at, letter_of};

// Is a text one complete type?
pub fn judge(text: &[u8]) -> bool
    ensures { result ≡ is_type text.now }
{
    let mut shapes = [0u16; LONGEST_TYPE];
    shapes_of(text, &mut shapes)
}

// Is a text one complete type? Its shapes are in the table then. A table shorter than the text is refused too. Most variants hold a
// type of one letter, which has a way of its own.
#[tactic(auto, using(signature::proofs::ShapeLaws::answered_long, signature::proofs::ShapeLaws::answered_small))]
pub fn shapes_of(text: &[u8], shapes: &mut [u16]) -> bool
    ensures { Answered text.now shapes.old shapes.new result }
{
    if LONGEST_TYPE < text.len() || shapes.len() < text.len() {
        return false;
    }
    if text.len() == 1 {
        let lone = lone_shape(text);
        shapes[0] = lone;
        return lone != 0;
    }
    fill(text, shapes);
    let whole = seen(text, shapes, 0);
    whole != 0 && next_of(whole) == text.len()
}

fn pack(next: usize, alignment: usize, fixed: bool) -> u16
    requires { (next ≤ longest_type) × (alignment ≤ 8) }
    ensures { result ≡ packed next alignment fixed }
{
    (32 * next + alignment + if fixed { 16 } else { 0 }) as u16
}

// The same place and alignment, and not fixed.
fn loosened(s: u16) -> u16
    ensures { result ≡ s - s % 32 / 16 * 16 }
{
    s - s % 32 / 16 * 16
}

// The shape at a place that the table has already.
fn seen(text: &[u8], shapes: &[u16], at: usize) -> u16
    requires { (length text.now ≤ longest_type) × (length text.now ≤ length shapes.now) }
    ensures { (from : ℕ) → from ≤ at → ShapedFrom from text.now shapes.now → result ≡ shape_at text.now at }
{
    if at < text.len() { shapes[at] } else { 0 }
}

// Whether a character stands at a place.
fn stands(text: &[u8], at: usize, code: u8) -> bool
    ensures { CharacterAt text.now at code result }
{
    at < text.len() && text[at] == code
}

// The alignment of a key, 0 for what is none.
fn key_alignment(key: Letter) -> usize
    ensures { result ≡ key_alignment key }
{
    match key {
        Letter::Boolean | Letter::Text { .. } => 1,
        Letter::Number { width, .. } => width,
        _ => 0,
    }
}

// A dictionary takes the larger alignment of its key and its value.
fn dictionary_shape(text: &[u8], at: usize, shapes: &[u16]) -> u16
    requires { Behind text.now at shapes.now × (letter_at text.now at ≡ Letter.Array) × (letter_at text.now (at + 1) ≡ Letter.OpenEntry) }
    ensures { result ≡ shape_at text.now at }
{
    let key = letter_at(text, at + 2);
    let first = key_alignment(key);
    if first == 0 {
        return 0;
    }
    let value = seen(text, shapes, at + 3);
    if value == 0 {
        return 0;
    }
    let next = next_of(value);
    let alignment = first.max(alignment_of(value));
    if stands(text, next, b'}') {
        pack(next + 1, alignment, false)
    } else {
        0
    }
}

// An array takes its element's alignment and is never fixed.
fn array_shape(text: &[u8], at: usize, shapes: &[u16]) -> u16
    requires { Behind text.now at shapes.now × (letter_at text.now at ≡ Letter.Array) }
    ensures { result ≡ shape_at text.now at }
{
    if stands(text, at + 1, b'{') {
        return dictionary_shape(text, at, shapes);
    }
    let element = seen(text, shapes, at + 1);
    loosened(element)
}

// A structure takes its largest alignment and is fixed when every field is.
fn structure_shape(text: &[u8], at: usize, shapes: &[u16]) -> u16
    requires { Behind text.now at shapes.now × (letter_at text.now at ≡ Letter.OpenStructure) }
    ensures { result ≡ shape_at text.now at }
{
    let mut place = at + 1;
    let mut alignment = 1;
    let mut fixed = true;
    loop {
        let field = seen(text, shapes, place);
        if field == 0 {
            return 0;
        }
        alignment = alignment.max(alignment_of(field));
        fixed &= fixed_of(field);
        place = next_of(field);
        if stands(text, place, b')') {
            return pack(place + 1, alignment, fixed);
        }
    }
}

// The letter at a place inside the text.
fn letter_inside(text: &[u8], at: usize) -> Letter
    requires { at < length text.now }
    ensures { result ≡ letter_at text.now at }
{
    letter_of(text[at])
}

// The shape at a place, from the shapes behind it.
fn shape_at(text: &[u8], at: usize, shapes: &[u16]) -> u16
    requires { Behind text.now at shapes.now }
    ensures { result ≡ shape_at text.now at }
{
    let code = text[at];
    match code {
        b'b' | b'y' => pack(at + 1, 1, true),
        b'n' | b'q' => pack(at + 1, 2, true),
        b'i' | b'u' => pack(at + 1, 4, true),
        b'x' | b't' | b'd' => pack(at + 1, 8, true),
        b's' | b'o' | b'g' => pack(at + 1, 1, false),
        b'v' => pack(at + 1, 8, false),
        b'm' => loosened(seen(text, shapes, at + 1)),
        b'a' => array_shape(text, at, shapes),
        b'(' => structure_shape(text, at, shapes),
        _ => 0,
    }
}

// Puts the shape at a place into the table.
fn put_at(text: &[u8], at: usize, shapes: &mut [u16])
    requires { Behind text.now at shapes.old }
    ensures { shapes.new ≡ set shapes.old at (shape_at text.now at) }
{
    let found = shape_at(text, at, shapes);
    shapes[at] = found;
}

// Puts the shapes from a place up to a stop into a table that has those from the stop on: the last first.
fn fill_block(text: &[u8], at: usize, stop: usize, shapes: &mut [u16])
    requires { (length text.now ≤ longest_type) × (length text.now ≤ length shapes.old) × (at ≤ stop) × (stop ≤ length text.now) × ShapedFrom stop text.now shapes.old }
    ensures { Filled at text.now shapes.old shapes.new }
{
    for i in (at..stop).rev() {
        put_at(text, i, shapes);
    }
}

// Where a block of at most sixteen characters ends.
fn block_end(text: &[u8], at: usize) -> usize
    requires { at < length text.now }
    ensures { (at < result) × (result ≤ length text.now) }
{
    text.len().min(at + 16)
}

// Puts the shapes from a place on into the table: those behind it first, since its children are among them. It goes down a block of
// characters at a time, so that the frames of the recursion are few.
fn fill_from(text: &[u8], at: usize, shapes: &mut [u16])
    requires { (length text.now ≤ longest_type) × (length text.now ≤ length shapes.old) }
    ensures { Filled at text.now shapes.old shapes.new }
{
    if text.len() <= at {
        return;
    }
    let stop = block_end(text, at);
    fill_from(text, stop, shapes);
    fill_block(text, at, stop, shapes);
}

// Puts all shapes into the table. A short text is one block.
fn fill(text: &[u8], shapes: &mut [u16])
    requires { (length text.now ≤ longest_type) × (length text.now ≤ length shapes.old) }
    ensures { Filled 0 text.now shapes.old shapes.new }
{
    if text.len() <= 16 {
        fill_block(text, 0, text.len(), shapes);
    } else {
        fill_from(text, 0, shapes);
    }
}

// The shape of a text that is one letter.
fn lone_shape(text: &[u8]) -> u16
    requires { length text.now ≡ 1 }
    ensures { result ≡ shape_at text.now 0 }
{
    let kind = letter_inside(text, 0);
    match kind {
        Letter::Boolean => pack(1, 1, true),
        Letter::Number { code: _, width } => pack(1, width, true),
        Letter::Text { code: _ } => pack(1, 1, false),
        Letter::Variant => pack(1, 8, false),
        _ => 0,
    }
}
