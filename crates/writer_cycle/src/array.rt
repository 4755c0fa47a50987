// Arrays, and the walk over the entries of a dictionary. Guided by SeqSerializer of gvariant/ser.rs.
ghost use Rattle.std.specs.Prelude.{◌≡◌, length};
ghost use Rattle.signature.specs.Places.{letter_at};
ghost use Rattle.signature.specs.Trees.{tree_at, Described};
ghost use Rattle.writer_basic.specs.Wrote.{answer_in, run_in, marks_of, Shallow, Placed, WroteAt, RowAt};
ghost use Rattle.writer_cycle.specs.Places.{value_in, item_in, items_in, Repeated};

use crate::dictionary::entry;
use crate::value;
use meaning::letters::CONTAINER_END;
use meaning::refusals::Refusal;
use signature::Letter;
use signature::items::{Item, item_of};
use signature::shapes::Shape;
use writer_basic::basic::{item_kind, plain_at};
use writer_basic::closing::{array_end, ended};
use writer_basic::numbers::{numbers, readings};
use writer_basic::{Context, Row, Spot, Wrote, child_spot, texts_run};
use writer_ends::keep;
use writer_store::{add, pad};

// An array or a dictionary.
#[cycle(writing)]
#[inline(never)]
pub(crate) fn array(
    text: &[u8],
    shapes: &[u16],
    shape: Shape,
    events: &[u64],
    texts: &[u8],
    context: Context,
    spot: Spot,
    out: &mut [u8],
    ends: &mut [u16],
) -> Result<Wrote, Refusal>
    requires { Described text.now shapes.now shape × (letter_at text.now shape.at ≡ Letter.Array) × Shallow context × Placed (length events.now) spot }
    ensures { WroteAt (value_in context texts.now (tree_at text.now shape.at)) events.now spot out.old out.new ends.old ends.new (answer_in result) }
{
    let i = spot.next;
    let item = item_of(text, shapes, shape);
    if !plain_at(events, i, item_kind(item)) {
        return Err(Refusal::NoValue);
    }
    let deeper = Context {
        depths: context.depths.inc_array()?,
        ..context
    };
    let inner = Spot {
        next: i + 3,
        start: spot.start,
        top: spot.top,
    };
    let row = elements(text, shapes, item, events, texts, deeper, inner, out, ends)?;
    let closed = ended(events, row)?;
    Ok(array_end(item.fixed, closed, out, spot.start, ends, spot.top))
}

// What an array or a dictionary repeats, up to an event that closes. Numbers, readings and texts have loops of their own.
#[cycle(writing)]
pub(crate) fn elements(
    text: &[u8],
    shapes: &[u16],
    item: Item,
    events: &[u64],
    texts: &[u8],
    context: Context,
    spot: Spot,
    out: &mut [u8],
    ends: &mut [u16],
) -> Result<Row, Refusal>
    requires { Repeated text.now shapes.now item × Shallow context × Placed (length events.now) spot }
    ensures { RowAt (marks_of item.fixed) (items_in context texts.now text.now item) events.now spot out.old out.new ends.old ends.new (run_in result) }
{
    if item.entry {
        return items(text, shapes, item, events, texts, context, spot, out, ends);
    }
    if let Letter::Number { code, width } = item.number {
        if item.fixed {
            return numbers(code, width, events, context.big, spot, out);
        }
        return readings(code, width, events, context, spot, out, ends);
    }
    if let Letter::Text { code } = item.child.kind {
        return texts_run::texts(code, events, texts, spot, out, ends);
    }
    items(text, shapes, item, events, texts, context, spot, out, ends)
}

// Any elements or entries, one behind another.
#[cycle(writing)]
pub(crate) fn items(
    text: &[u8],
    shapes: &[u16],
    item: Item,
    events: &[u64],
    texts: &[u8],
    context: Context,
    spot: Spot,
    out: &mut [u8],
    ends: &mut [u16],
) -> Result<Row, Refusal>
    requires { Repeated text.now shapes.now item × Shallow context × Placed (length events.now) spot }
    ensures { RowAt (marks_of item.fixed) (items_in context texts.now text.now item) events.now spot out.old out.new ends.old ends.new (run_in result) }
{
    let mut row = Row {
        next: spot.next,
        size: 0,
        count: 0,
    };
    while 3 <= events.len() - row.next {
        if events[row.next] == CONTAINER_END {
            return Ok(row);
        }
        let padding = pad(out, spot.start + row.size, row.size, item.alignment);
        let here = child_spot(spot, row.next, row.size + padding, row.count);
        let r = one(text, shapes, item, events, texts, context, here, out, ends)?;
        row.size = add(row.size + padding, r.size);
        row.next = r.next;
        row.count = keep(out, ends, spot.top, row.count, row.size, item.fixed);
    }
    Err(Refusal::NoValue)
}

// One of them.
#[cycle(writing)]
pub(crate) fn one(
    text: &[u8],
    shapes: &[u16],
    item: Item,
    events: &[u64],
    texts: &[u8],
    context: Context,
    spot: Spot,
    out: &mut [u8],
    ends: &mut [u16],
) -> Result<Wrote, Refusal>
    requires { Repeated text.now shapes.now item × Shallow context × Placed (length events.now) spot }
    ensures { WroteAt (item_in context texts.now text.now item) events.now spot out.old out.new ends.old ends.new (answer_in result) }
{
    if item.entry {
        return entry(text, shapes, item, events, texts, context, spot, out, ends);
    }
    value(
        text, shapes, item.child, events, texts, context, spot, out, ends,
    )
}
