// Variants: after a variant's event come its type, as a text, and its value. Guided by StructSerializer of gvariant/ser.rs.
ghost use Rattle.std.specs.Prelude.{◌+◌, length};
ghost use Rattle.meaning.specs.Letters.{variant_letter, signature_letter};
ghost use Rattle.meaning_writing.specs.EventsAt.{PlainAt};
ghost use Rattle.writer_basic.specs.Wrote.{answer_in, Shallow, Placed, Taken, WroteAt};
ghost use Rattle.writer_cycle.specs.Places.{value_in, variant_tree};

use crate::value;
use meaning::letters::{SIGNATURE_LETTER, VARIANT_LETTER};
use meaning::limits::LONGEST_TYPE;
use meaning::refusals::Refusal;
use signature::shapes::shape_in;
use signature_table::shapes_of;
use writer_basic::basic::{plain_at, text_at};
use writer_basic::closing::variant_end;
use writer_basic::{Context, Spot, Wrote};

#[cycle(writing)]
#[inline(never)]
pub(crate) fn variant(
    events: &[u64],
    texts: &[u8],
    context: Context,
    spot: Spot,
    out: &mut [u8],
    ends: &mut [u16],
) -> Result<Wrote, Refusal>
    requires { Shallow context × Placed (length events.now) spot }
    ensures { WroteAt (value_in context texts.now variant_tree) events.now spot out.old out.new ends.old ends.new (answer_in result) }
{
    let i = spot.next;
    if !plain_at(events, i, VARIANT_LETTER) {
        return Err(Refusal::NoValue);
    }
    let text = text_at(events, texts, i + 3, SIGNATURE_LETTER)?;
    typed(text, events, texts, context, spot, out, ends)
}

// A variant of a type with that text.
#[cycle(writing)]
pub(crate) fn typed(
    text: &[u8],
    events: &[u64],
    texts: &[u8],
    context: Context,
    spot: Spot,
    out: &mut [u8],
    ends: &mut [u16],
) -> Result<Wrote, Refusal>
    requires { PlainAt variant_letter events.now spot.next × Taken texts.now signature_letter events.now (spot.next + 3) text.now × Shallow context × Placed (length events.now) spot }
    ensures { WroteAt (value_in context texts.now variant_tree) events.now spot out.old out.new ends.old ends.new (answer_in result) }
{
    let start = spot.start;
    let mut shapes = [0u16; LONGEST_TYPE];
    if !shapes_of(text, &mut shapes) {
        return Err(Refusal::VariantTypeRefused);
    }
    let deeper = Context {
        depths: context.depths.inc_variant()?,
        ..context
    };
    let shape = shape_in(text, &shapes, 0);
    let here = Spot {
        next: spot.next + 6,
        start,
        top: spot.top,
    };
    let held = value(text, &shapes, shape, events, texts, deeper, here, out, ends)?;
    variant_end(events, text, held, out, start)
}
