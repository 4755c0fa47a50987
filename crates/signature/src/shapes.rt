// The shape of a type: what a look into the table beside a type text says of the type at a place.
//
// The table has a number for each place of the text: the place behind the type that begins there, its alignment and whether it is
// fixed; 0 where none begins. Memory is fixed, and a table stands on the stack of each variant: so a shape is one number there, and not a struct.
ghost use Rattle.std.specs.Prelude.{◌≡◌, ◌%◌, ◌/◌, leb};
ghost use Rattle.signature.specs.Shapes.{unpacked, shape_in};

use crate::{Letter, letter_at};

// What a container needs of the type at a place: the place, its first letter, the place behind it (0 where no type begins), its
// alignment and whether it is fixed.
#[derive(Clone, Copy)]
pub struct Shape {
    pub at: usize,
    pub kind: Letter,
    pub next: usize,
    pub alignment: usize,
    pub fixed: bool,
}

pub fn next_of(s: u16) -> usize
    ensures { result ≡ s / 32 }
{
    usize::from(s / 32)
}

pub fn alignment_of(s: u16) -> usize
    ensures { result ≡ s % 16 }
{
    usize::from(s % 16)
}

pub fn fixed_of(s: u16) -> bool
    ensures { result ≡ leb 16 (s % 32) }
{
    16 <= s % 32
}

pub(crate) fn unpack(at: usize, kind: Letter, s: u16) -> Shape
    ensures { result ≡ unpacked at kind s }
{
    Shape {
        at,
        kind,
        next: next_of(s),
        alignment: alignment_of(s),
        fixed: fixed_of(s),
    }
}

// What a table says of the type at a place of its text.
pub fn shape_in(text: &[u8], shapes: &[u16], at: usize) -> Shape
    ensures { result ≡ shape_in text.now shapes.now at }
{
    let shape = shapes.get(at).copied().unwrap_or(0);
    unpack(at, letter_at(text, at), shape)
}
