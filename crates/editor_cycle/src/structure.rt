// Structures: the field that holds the reading, and those behind it with the offsets.
ghost use Rattle.std.specs.Prelude.{◌≡◌, ◌+◌};
ghost use Rattle.container_depths.specs.Opening.{depths_of};
ghost use Rattle.signature.specs.Places.{letter_at};
ghost use Rattle.strict_sizes.specs.Items.{Placed, tree_test};
ghost use Rattle.editor_steps.specs.Walks.{new_of, tree_editor, Walks, container_most, most, Ready, row_test, row_editor};
ghost use Rattle.editor_steps.specs.Walked.{walked_as};
ghost use Rattle.editor_steps.specs.Starts.{AllRow, row_tests, row_editors};

use crate::value;
use container_depths::ContainerDepths;
use editor_basic::fields::{Row, behind_field, first_field};
use editor_steps::answers::{Aim, Walk};
use editor_steps::closing::close_field;
use editor_steps::starts::row_of;
use meaning::refusals::Refusal;
use signature::Letter;
use signature::shapes::{Shape, shape_in};
use strict_sizes::sizes::offsets_in;

#[cycle(editing)]
pub(crate) fn structure(
    text: &[u8],
    tables: &[u16],
    shape: Shape,
    part: &[u8],
    place: usize,
    number: usize,
    aim: Aim,
    d: ContainerDepths,
    out: &mut [u8],
) -> Result<Walk, Refusal>
    requires { Placed text.now tables.now shape × (letter_at text.now shape.at ≡ Letter.OpenStructure) × Ready (tree_test d.variant text.now shape.at) d place part.now }
    ensures { Walks (tree_editor aim.big d.variant text.now shape.at) (depths_of d) place part.now number (new_of aim.new) (most d) out.old out.new (walked_as result) }
{
    if shape.fixed {
        return Ok(Walk::Counted(0));
    }
    let deeper = d.inc_structure()?;
    let row = row_of(shape.at + 1, part.len(), offsets_in(tables, shape));
    fields(text, tables, row, part, place, number, aim, deeper, out)
}

// The fields of a structure, one after another up to the one that holds the reading.
#[cycle(editing)]
fn fields(
    text: &[u8],
    tables: &[u16],
    all: Row,
    part: &[u8],
    place: usize,
    number: usize,
    aim: Aim,
    d: ContainerDepths,
    out: &mut [u8],
) -> Result<Walk, Refusal>
    requires { AllRow text.now tables.now all part.now × Ready (row_test 1 (row_tests d.variant text.now all.at)) d place part.now }
    ensures { Walks (row_editor 1 (row_editors aim.big d.variant text.now all.at)) (depths_of d) place part.now number (new_of aim.new) (most d + container_most) out.old out.new (walked_as result) }
{
    let mut row = all;
    let mut left = number;
    // No index is counted here: the last field ends the walk, and an iterator over fields would carry the same row and be no plainer.
    loop {
        let field = first_field(text, tables, part, row);
        let inner = shape_in(text, tables, row.at);
        let held = &part[field.start..field.stop];
        let from = place + field.start;
        match value(text, tables, inner, held, from, left, aim, d, out)? {
            Walk::Counted(count) => left -= count,
            walk => return Ok(close_field(walk, place, text, tables, part, row, field, out)),
        }
        if field.last {
            return Ok(Walk::Counted(number - left));
        }
        row = behind_field(row, field);
    }
}
