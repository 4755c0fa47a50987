// Maybes: nothing, or a value and, where that is not fixed, a zero. Guided by serialize_maybe of gvariant/ser.rs.
ghost use Rattle.std.specs.Prelude.{◌≡◌, length};
ghost use Rattle.signature.specs.Places.{letter_at};
ghost use Rattle.signature.specs.Trees.{tree_at, Described};
ghost use Rattle.writer_basic.specs.Wrote.{answer_in, Shallow, Placed, WroteAt};
ghost use Rattle.writer_cycle.specs.Places.{value_in};

use crate::value;
use meaning::letters::{MAYBE_LETTER, NOTHING_LETTER};
use meaning::refusals::Refusal;
use signature::Letter;
use signature::shapes::{Shape, shape_in};
use writer_basic::basic::plain_at;
use writer_basic::closing::present;
use writer_basic::{Context, Spot, Wrote};

#[cycle(writing)]
#[inline(never)]
pub(crate) fn maybe(
    text: &[u8],
    shapes: &[u16],
    shape: Shape,
    events: &[u64],
    texts: &[u8],
    context: Context,
    spot: Spot,
    out: &mut [u8],
    ends: &mut [u16],
) -> Result<Wrote, Refusal>
    requires { Described text.now shapes.now shape × (letter_at text.now shape.at ≡ Letter.Maybe) × Shallow context × Placed (length events.now) spot }
    ensures { WroteAt (value_in context texts.now (tree_at text.now shape.at)) events.now spot out.old out.new ends.old ends.new (answer_in result) }
{
    let i = spot.next;
    let start = spot.start;
    if plain_at(events, i, NOTHING_LETTER) {
        return Ok(Wrote {
            next: i + 3,
            size: 0,
        });
    }
    if !plain_at(events, i, MAYBE_LETTER) {
        return Err(Refusal::NoValue);
    }
    let deeper = Context {
        depths: context.depths.inc_maybe()?,
        ..context
    };
    let held = shape_in(text, shapes, shape.at + 1);
    let inner = Spot {
        next: i + 3,
        start,
        top: spot.top,
    };
    let child = value(text, shapes, held, events, texts, deeper, inner, out, ends)?;
    Ok(present(held.fixed, child, out, start))
}
