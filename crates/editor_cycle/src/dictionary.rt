// What an array or a dictionary repeats: an element, or an entry with the reading in its value.
ghost use Rattle.std.specs.Prelude.{◌+◌};
ghost use Rattle.container_depths.specs.Opening.{depths_of};
ghost use Rattle.editor_steps.specs.Walks.{new_of, Walks, entry_most, most, Ready, item_editor, item_test, Repeats};
ghost use Rattle.editor_steps.specs.Walked.{walked_as};

use crate::value;
use container_depths::ContainerDepths;
use editor_steps::answers::{Aim, Walk};
use editor_steps::closing::close_last;
use editor_steps::starts::{Entry, entry_of};
use meaning::refusals::Refusal;
use signature::items::Item;

// An element, or an entry: a key, which holds no reading, and a value.
#[cycle(editing)]
pub(crate) fn step(
    text: &[u8],
    tables: &[u16],
    item: Item,
    part: &[u8],
    place: usize,
    number: usize,
    aim: Aim,
    d: ContainerDepths,
    out: &mut [u8],
) -> Result<Walk, Refusal>
    requires { Repeats text.now tables.now item × Ready (item_test d.variant text.now item) d place part.now }
    ensures { Walks (item_editor aim.big d.variant text.now item) (depths_of d) place part.now number (new_of aim.new) (most d + entry_most) out.old out.new (walked_as result) }
{
    let inner = item.child;
    if !item.entry {
        return value(text, tables, inner, part, place, number, aim, d, out);
    }
    if inner.fixed {
        return Ok(Walk::Counted(0));
    }
    let Entry { start, body, width } = entry_of(part, item.key, inner.alignment);
    let walk = value(
        text,
        tables,
        inner,
        &part[start..body],
        place + start,
        number,
        aim,
        d,
        out,
    )?;
    Ok(close_last(walk, place, start, part, body, width, out))
}
