// Maybes: a reading itself, or a maybe round what holds one.
ghost use Rattle.std.specs.Prelude.{◌≡◌};
ghost use Rattle.container_depths.specs.Opening.{depths_of};
ghost use Rattle.signature.specs.Places.{letter_at};
ghost use Rattle.strict_sizes.specs.Items.{Placed, tree_test};
ghost use Rattle.editor_steps.specs.Walks.{new_of, tree_editor, Walks, most, Ready};
ghost use Rattle.editor_steps.specs.Walked.{walked_as};

use crate::value;
use container_depths::ContainerDepths;
use editor_steps::answers::{Aim, Walk};
use editor_steps::closing::close_maybe;
use editor_steps::reading::{is_slot, reading};
use meaning::refusals::Refusal;
use signature::Letter;
use signature::shapes::{Shape, shape_in};

#[cycle(editing)]
pub(crate) fn maybe(
    text: &[u8],
    tables: &[u16],
    shape: Shape,
    part: &[u8],
    place: usize,
    number: usize,
    aim: Aim,
    d: ContainerDepths,
    out: &mut [u8],
) -> Result<Walk, Refusal>
    requires { Placed text.now tables.now shape × (letter_at text.now shape.at ≡ Letter.Maybe) × Ready (tree_test d.variant text.now shape.at) d place part.now }
    ensures { Walks (tree_editor aim.big d.variant text.now shape.at) (depths_of d) place part.now number (new_of aim.new) (most d) out.old out.new (walked_as result) }
{
    let held = shape_in(text, tables, shape.at + 1);
    let kind = held.kind;
    if is_slot(kind) {
        return reading(kind, place, number, aim, d, out);
    }
    let len = part.len();
    if len == 0 || held.fixed {
        return Ok(Walk::Counted(0));
    }
    let deeper = d.inc_maybe()?;
    let end = len - 1;
    let walk = value(
        text,
        tables,
        held,
        &part[..end],
        place,
        number,
        aim,
        deeper,
        out,
    )?;
    Ok(close_maybe(walk, place, out))
}
