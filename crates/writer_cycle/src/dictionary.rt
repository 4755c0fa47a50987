// The entries of a dictionary. Guided by MapSerializer of gvariant/ser.rs; but the width of a key's offset counts that offset too.
ghost use Rattle.std.specs.Prelude.{◌≡◌, true, length};
ghost use Rattle.writer_basic.specs.Wrote.{answer_in, Shallow, Placed, WroteAt};
ghost use Rattle.writer_cycle.specs.Places.{item_in, Repeated};

use crate::value;
use meaning::refusals::Refusal;
use signature::items::Item;
use writer_basic::basic::basic_value;
use writer_basic::closing::structure_end;
use writer_basic::{Context, Row, Spot, Wrote, child_spot};
use writer_ends::keep;
use writer_store::{add, pad};

// An entry: its key, its value, and what ends a structure of both.
#[cycle(writing)]
pub(crate) fn entry(
    text: &[u8],
    shapes: &[u16],
    item: Item,
    events: &[u64],
    texts: &[u8],
    context: Context,
    spot: Spot,
    out: &mut [u8],
    ends: &mut [u16],
) -> Result<Wrote, Refusal>
    requires { Repeated text.now shapes.now item × (item.entry ≡ true) × Shallow context × Placed (length events.now) spot }
    ensures { WroteAt (item_in context texts.now text.now item) events.now spot out.old out.new ends.old ends.new (answer_in result) }
{
    let child = item.child;
    let start = spot.start;
    let key = basic_value(item.key, events, texts, spot.next, context.big, out, start)?;
    let first = key.size;
    let count = keep(out, ends, spot.top, 0, first, item.keyed);
    let padding = pad(out, start + first, first, child.alignment);
    let here = child_spot(spot, key.next, first + padding, count);
    let held = value(text, shapes, child, events, texts, context, here, out, ends)?;
    let row = Row {
        next: held.next,
        size: add(first + padding, held.size),
        count,
    };
    Ok(structure_end(item.fixed, item.alignment, row, out, start, ends, spot.top))
}
