// Arrays whose elements are readings. Each counts one, so the one that is asked for is found directly, not by a walk over those in front.
ghost use Rattle.std.specs.Prelude.{◌≡◌, ◌≤◌};
ghost use Rattle.editor_basic.specs.Elements.{Standing};
ghost use Rattle.editor_steps.specs.ReadingArrays.{from_nth, ReadyEach, ReadsEach};
ghost use Rattle.editor_steps.specs.Walked.{walked_as};

use crate::answers::{Aim, Walk};
use crate::closing::close_element;
use crate::reading::reading;
use crate::starts::elements_of;
use container_depths::ContainerDepths;
use editor_basic::elements::{Child, Elements, first_element};
use meaning::refusals::Refusal;
use signature::Letter;
use strict_ends::offset_at;

// The elements behind so many of them.
fn from_nth(part: &[u8], all: Elements, number: usize) -> Elements
    requires { Standing all part.now × (number ≤ all.count) }
    ensures { result ≡ from_nth all number part.now }
{
    if number == 0 {
        return all;
    }
    let width = all.size.width();
    let before = all.from + (number - 1) * width;
    let place = offset_at(part, before, width);
    Elements {
        count: all.count - number,
        from: before + width,
        place,
        ..all
    }
}

// The walk over them, by the letter of what their maybes hold and its alignment.
pub fn readings(
    kind: Letter,
    alignment: usize,
    part: &[u8],
    place: usize,
    number: usize,
    aim: Aim,
    d: ContainerDepths,
    out: &mut [u8],
) -> Result<Walk, Refusal>
    requires { ReadyEach kind alignment d place part.now }
    ensures { ReadsEach kind alignment aim d place part.now number out.old out.new (walked_as result) }
{
    let all = elements_of(part, alignment);
    if all.count <= number {
        return Ok(Walk::Counted(all.count));
    }
    let rest = from_nth(part, all, number);
    let Child { start, end } = first_element(part, rest);
    let walk = reading(kind, place + start, 0, aim, d, out)?;
    Ok(close_element(walk, place, start, end, part, all, rest, out))
}
