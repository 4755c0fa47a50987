// A reading, which is a maybe of a number or a bool: judged, and put at the front of the tail.
ghost use Rattle.std.specs.Prelude.{◌≡◌, ◌^◌, ltb};
ghost use Rattle.meaning.specs.Padding.{Aligns};
ghost use Rattle.strict_basic.specs.Basics.{letter_extent};
ghost use Rattle.strict_ends.specs.Ends.{Laid};
ghost use Rattle.editor_steps.specs.Slots.{is_slot, letter_spells, Reads, PutsReading};
ghost use Rattle.editor_steps.specs.Walked.{walked_as};

use crate::answers::{Aim, Walk};
use container_depths::ContainerDepths;
use editor_basic::mover::put_number;
use meaning::refusals::Refusal;
use signature::Letter;
use strict_basic::basic::extent_of;

// Whether a maybe of a letter is a reading.
pub fn is_slot(kind: Letter) -> bool
    ensures { result ≡ is_slot kind }
{
    matches!(kind, Letter::Boolean | Letter::Number { .. })
}

// Whether a number fits a width.
fn suits(bits: usize, width: usize) -> bool
    requires { Aligns width }
    ensures { result ≡ ltb bits (256 ^ width) }
{
    match width {
        1 => bits < 256,
        2 => bits < 65536,
        4 => bits < 4294967296,
        _ => true,
    }
}

// Whether it spells a value of a letter.
fn spells(kind: Letter, bits: usize) -> bool
    requires { Laid (letter_extent kind) }
    ensures { result ≡ letter_spells kind bits }
{
    match kind {
        Letter::Number { width, .. } => suits(bits, width),
        _ => bits <= 1,
    }
}

#[inline(always)]
fn put(
    kind: Letter,
    place: usize,
    bits: usize,
    big: bool,
    d: ContainerDepths,
    out: &mut [u8],
) -> Result<Walk, Refusal>
    requires { Laid (letter_extent kind) }
    ensures { PutsReading kind place bits big d out.old out.new (walked_as result) }
{
    if !spells(kind, bits) {
        return Err(Refusal::NoValue);
    }
    let Ok(_) = d.inc_maybe() else {
        return Err(Refusal::ContainersTooDeep);
    };
    let length = extent_of(kind).size;
    put_number(out, 0, big, length, bits);
    Ok(Walk::Edited { place, length })
}

// The walk over it: the reading is its first.
#[inline(always)]
pub fn reading(
    kind: Letter,
    place: usize,
    number: usize,
    aim: Aim,
    d: ContainerDepths,
    out: &mut [u8],
) -> Result<Walk, Refusal>
    requires { Laid (letter_extent kind) }
    ensures { Reads kind aim d place number out.old out.new (walked_as result) }
{
    if 0 < number {
        return Ok(Walk::Counted(1));
    }
    match aim.new {
        None => Ok(Walk::Edited { place, length: 0 }),
        Some(bits) => put(kind, place, bits, aim.big, d, out),
    }
}
