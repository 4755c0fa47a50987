// Arrays and dictionaries: the child that holds the reading, and those behind it with the table.
ghost use Rattle.std.specs.Prelude.{◌≡◌, ◌+◌};
ghost use Rattle.container_depths.specs.Opening.{depths_of};
ghost use Rattle.signature.specs.Places.{letter_at};
ghost use Rattle.strict_sizes.specs.Items.{Placed, tree_test};
ghost use Rattle.editor_steps.specs.Walks.{new_of, tree_editor, Walks, container_most, most, Ready, item_editor, item_test, Repeats, elements_test, elements_editor};
ghost use Rattle.editor_steps.specs.Walked.{walked_as};

use crate::dictionary::step;
use container_depths::ContainerDepths;
use editor_basic::elements::{Child, behind, first_element};
use editor_steps::answers::{Aim, Walk};
use editor_steps::closing::close_element;
use editor_steps::reading::is_slot;
use editor_steps::readings::readings;
use editor_steps::starts::elements_of;
use meaning::refusals::Refusal;
use signature::Letter;
use signature::items::{Item, item_of};
use signature::shapes::Shape;

#[cycle(editing)]
pub(crate) fn array(
    text: &[u8],
    tables: &[u16],
    shape: Shape,
    part: &[u8],
    place: usize,
    number: usize,
    aim: Aim,
    d: ContainerDepths,
    out: &mut [u8],
) -> Result<Walk, Refusal>
    requires { Placed text.now tables.now shape × (letter_at text.now shape.at ≡ Letter.Array) × Ready (tree_test d.variant text.now shape.at) d place part.now }
    ensures { Walks (tree_editor aim.big d.variant text.now shape.at) (depths_of d) place part.now number (new_of aim.new) (most d) out.old out.new (walked_as result) }
{
    let item = item_of(text, tables, shape);
    if item.fixed {
        return Ok(Walk::Counted(0));
    }
    let deeper = d.inc_array()?;
    let kind = item.number;
    if is_slot(kind) {
        return readings(kind, item.alignment, part, place, number, aim, deeper, out);
    }
    elements(text, tables, item, part, place, number, aim, deeper, out)
}

// The elements of an array, or the entries of a dictionary, one after another up to the one that holds the reading.
#[cycle(editing)]
fn elements(
    text: &[u8],
    tables: &[u16],
    item: Item,
    part: &[u8],
    place: usize,
    number: usize,
    aim: Aim,
    d: ContainerDepths,
    out: &mut [u8],
) -> Result<Walk, Refusal>
    requires { Repeats text.now tables.now item × Ready (elements_test (item_test d.variant text.now item)) d place part.now }
    ensures { Walks (elements_editor (item_editor aim.big d.variant text.now item)) (depths_of d) place part.now number (new_of aim.new) (most d + container_most) out.old out.new (walked_as result) }
{
    let all = elements_of(part, item.alignment);
    let mut rest = all;
    let mut left = number;
    for _ in 0..all.count {
        let Child { start, end } = first_element(part, rest);
        let held = &part[start..end];
        match step(text, tables, item, held, place + start, left, aim, d, out)? {
            Walk::Counted(count) => left -= count,
            walk => return Ok(close_element(walk, place, start, end, part, all, rest, out)),
        }
        rest = behind(rest, end);
    }
    Ok(Walk::Counted(number - left))
}
