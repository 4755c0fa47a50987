// Arrays, and what is common to them and dictionaries: what is repeated fills the body, and a table of the smallest width has its ends.
ghost use Rattle.std.specs.Prelude.{◌≡◌, ◌≢◌, length};
ghost use Rattle.meaning_writing.specs.Strict.{elements_written, array_written};
ghost use Rattle.container_depths.specs.Opening.{depths_of};
ghost use Rattle.signature.specs.Places.{letter_at};
ghost use Rattle.strict_ends.specs.Ends.{Standing};
ghost use Rattle.strict_sizes.specs.Items.{Placed, tree_test, item_test, Repeated};
ghost use Rattle.strict_cycle.specs.Walks.{Inside};

use crate::child;
use crate::dictionary::entries;
use container_depths::ContainerDepths;
use signature::Letter;
use signature::shapes::Shape;
use strict_basic::basic::{readings_written, texts_written};
use strict_ends::{Rows, element_end, rows_of, start_of};
use strict_sizes::items::{Item, Repeats, repeated};

// An array or a dictionary.
#[cycle(testing)]
pub(crate) fn array(
    text: &[u8],
    tables: &[u16],
    shape: Shape,
    part: &[u8],
    d: ContainerDepths,
) -> bool
    requires { Placed text.now tables.now shape × (letter_at text.now shape.at ≡ Letter.Array) × Inside (length part.now) d }
    ensures { result ≡ (tree_test d.variant text.now shape.at).accepts (depths_of d) part.now }
{
    let item = repeated(text, tables, shape);
    let Ok(deeper) = d.inc_array() else {
        return false;
    };
    if let Repeats::AnyBytes = item.repeats {
        return first(text, tables, item, part, deeper);
    }
    let Some(rows) = rows_of(part, item.extent) else {
        return false;
    };
    match item.repeats {
        Repeats::Texts => texts_written(part, rows),
        Repeats::Readings { width } => {
            let room = deeper.inc_maybe().is_ok();
            readings_written(part, rows, width, room)
        }
        Repeats::Entries { key } => entries(text, tables, item, key, rows, part, deeper),
        _ => elements(text, tables, item, rows, part, deeper),
    }
}

// An array for whose elements any bytes will do: they fill the part, and the first tells of all.
#[cycle(testing)]
pub(crate) fn first(
    text: &[u8],
    tables: &[u16],
    item: Item,
    part: &[u8],
    d: ContainerDepths,
) -> bool
    requires { Repeated text.now tables.now item × (item.repeats ≡ Repeats.AnyBytes) × Inside (length part.now) d }
    ensures { result ≡ array_written item.extent.fixed (item_test d.variant text.now item) part.now (depths_of d) }
{
    let size = item.extent.size;
    let len = part.len();
    let many = len / size;
    if many * size != len {
        return false;
    }
    many == 0 || child(text, tables, item.child, &part[..size], d)
}

// The elements of an array, each behind its padding. The loop of `strict_basic` is over any test; the test here is a call of this cycle,
// asks that its bytes lie in a frame, and takes children that are fixed too: one loop for both says more.
#[cycle(testing)]
pub(crate) fn elements(
    text: &[u8],
    tables: &[u16],
    item: Item,
    rows: Rows,
    part: &[u8],
    d: ContainerDepths,
) -> bool
    requires { Repeated text.now tables.now item × ((key : Letter) → item.repeats ≢ Repeats.Entries key) × Inside (length part.now) d × Standing part.now item.extent.fixed rows }
    ensures { result ≡ elements_written item.extent.fixed (item_test d.variant text.now item) (depths_of d) part.now rows.width rows.body rows.count rows.from 0 }
{
    let extent = item.extent;
    let mut place = 0;
    for i in 0..rows.count {
        let stop = element_end(part, extent, rows.width, rows.from + i * rows.width, place);
        let Some(at) = start_of(part, rows.body, place, stop, extent.alignment) else {
            return false;
        };
        if !child(text, tables, item.child, &part[at..stop], d) {
            return false;
        }
        place = stop;
    }
    place == rows.body
}
