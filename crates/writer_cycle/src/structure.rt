// Structures: the fields, then padding or the table of their ends. Guided by StructSerializer of gvariant/ser.rs.
ghost use Rattle.std.specs.Prelude.{◌≡◌, length};
ghost use Rattle.meaning.specs.Written.{field_ends};
ghost use Rattle.signature.specs.Places.{letter_at};
ghost use Rattle.signature.specs.Shapes.{Shaped};
ghost use Rattle.signature.specs.Trees.{tree_at, fields_at, Rowed, Described};
ghost use Rattle.writer_basic.specs.Wrote.{answer_in, run_in, Shallow, Placed, WroteAt, RowAt};
ghost use Rattle.writer_cycle.specs.Places.{value_in, fields_in};

use crate::value;
use meaning::letters::STRUCTURE_LETTER;
use meaning::refusals::Refusal;
use signature::shapes::{Shape, shape_in};
use signature::{Letter, letter_at};
use writer_basic::basic::plain_at;
use writer_basic::closing::{ended, structure_end};
use writer_basic::{Context, Row, Spot, Wrote, child_spot};
use writer_ends::keep;
use writer_store::{add, pad};

#[cycle(writing)]
#[inline(never)]
pub(crate) fn structure(
    text: &[u8],
    shapes: &[u16],
    shape: Shape,
    events: &[u64],
    texts: &[u8],
    context: Context,
    spot: Spot,
    out: &mut [u8],
    ends: &mut [u16],
) -> Result<Wrote, Refusal>
    requires { Described text.now shapes.now shape × (letter_at text.now shape.at ≡ Letter.OpenStructure) × Shallow context × Placed (length events.now) spot }
    ensures { WroteAt (value_in context texts.now (tree_at text.now shape.at)) events.now spot out.old out.new ends.old ends.new (answer_in result) }
{
    let i = spot.next;
    let start = spot.start;
    let top = spot.top;
    if !plain_at(events, i, STRUCTURE_LETTER) {
        return Err(Refusal::NoValue);
    }
    let deeper = Context {
        depths: context.depths.inc_structure()?,
        ..context
    };
    let inner = Spot {
        next: i + 3,
        start,
        top,
    };
    let at = shape.at + 1;
    let row = fields(text, shapes, at, events, texts, deeper, inner, out, ends)?;
    let closed = ended(events, row)?;
    Ok(structure_end(shape.fixed, shape.alignment, closed, out, start, ends, top))
}

// The fields of a structure. The end of one that is neither fixed nor last is kept.
#[cycle(writing)]
pub(crate) fn fields(
    text: &[u8],
    shapes: &[u16],
    at: usize,
    events: &[u64],
    texts: &[u8],
    context: Context,
    spot: Spot,
    out: &mut [u8],
    ends: &mut [u16],
) -> Result<Row, Refusal>
    requires { Rowed text.now at × Shaped text.now shapes.now × Shallow context × Placed (length events.now) spot }
    ensures { RowAt field_ends (fields_in context texts.now (fields_at text.now at)) events.now spot out.old out.new ends.old ends.new (run_in result) }
{
    let mut i = at;
    let mut row = Row {
        next: spot.next,
        size: 0,
        count: 0,
    };
    loop {
        let field = shape_in(text, shapes, i);
        let behind = letter_at(text, field.next);
        let padding = pad(out, spot.start + row.size, row.size, field.alignment);
        let here = child_spot(spot, row.next, row.size + padding, row.count);
        let one = value(text, shapes, field, events, texts, context, here, out, ends)?;
        row.size = add(row.size + padding, one.size);
        row.next = one.next;
        if let Letter::CloseStructure = behind {
            return Ok(row);
        }
        row.count = keep(out, ends, spot.top, row.count, row.size, field.fixed);
        i = field.next;
    }
}
