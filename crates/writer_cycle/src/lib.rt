// The writers that call each other as containers nest. Guided by gvariant/ser.rs; the form is the paper's. Here: a value; each kind of
// container has a module. What is repeated in a container is written in a loop.
#![tactic(auto)]

mod array;
mod dictionary;
mod maybe;
mod structure;
mod variant;

ghost use Rattle.std.specs.Prelude.{length};
ghost use Rattle.signature.specs.Trees.{tree_at, Described};
ghost use Rattle.writer_basic.specs.Wrote.{answer_in, Shallow, Placed, WroteAt};
ghost use Rattle.writer_cycle.specs.Places.{value_in};

use crate::array::array;
use crate::maybe::maybe;
use crate::structure::structure;
use crate::variant::variant;
use meaning::refusals::Refusal;
use signature::Letter;
use signature::shapes::Shape;
use writer_basic::basic::{boolean, number, text_value};
use writer_basic::{Context, Spot, Wrote};

// The value of a type. The writers of containers are never inlined here, so that each value takes the stack of its own kind alone.
#[cycle(writing)]
pub fn value(
    text: &[u8],
    shapes: &[u16],
    shape: Shape,
    events: &[u64],
    texts: &[u8],
    context: Context,
    spot: Spot,
    out: &mut [u8],
    ends: &mut [u16],
) -> Result<Wrote, Refusal>
    requires { Described text.now shapes.now shape × Shallow context × Placed (length events.now) spot }
    ensures { WroteAt (value_in context texts.now (tree_at text.now shape.at)) events.now spot out.old out.new ends.old ends.new (answer_in result) }
{
    let i = spot.next;
    let start = spot.start;
    match shape.kind {
        Letter::Boolean => boolean(events, i, out, start),
        Letter::Number { code, width } => number(events, i, code, width, context.big, out, start),
        Letter::Text { code } => text_value(events, texts, i, code, out, start),
        Letter::Maybe => maybe(text, shapes, shape, events, texts, context, spot, out, ends),
        Letter::Array => array(text, shapes, shape, events, texts, context, spot, out, ends),
        Letter::OpenStructure => structure(
            text, shapes, shape, events, texts, context, spot, out, ends,
        ),
        _ => variant(events, texts, context, spot, out, ends),
    }
}
