// Maybes. Ports deserialize_option of gvariant/de.rs.
ghost use Rattle.std.specs.Prelude.{◌≡◌, ◌≤◌, length};
ghost use Rattle.signature.specs.Places.{letter_at};
ghost use Rattle.signature.specs.Trees.{tree_at};
ghost use Rattle.reader_basic.specs.Answers.{From, counts_of};
ghost use Rattle.reader_basic.specs.Parts.{Inside};
ghost use Rattle.reader_steps.specs.Places.{inside_of, DescribedAt};
ghost use Rattle.reader_steps.specs.Rides.{context_of};

use crate::value;
use events::emit;
use meaning::letters::{MAYBE_LETTER, NOTHING_LETTER};
use reader_basic::{Reading, done, or_stop};
use reader_steps::maybe::end_byte;
use reader_steps::opening::in_maybe;
use signature::Letter;
use signature::shapes::fixed_of;

#[cycle(reading)]
pub(crate) fn maybe(
    text: &[u8],
    shapes: &[u16; 255],
    at: usize,
    part: &[u8],
    lead: usize,
    place: usize,
    ride: usize,
    out: &mut [u64],
    n: usize,
) -> Reading
    requires { DescribedAt text.now shapes.now at × (letter_at text.now at ≡ Letter.Maybe) × Inside (length part.now) place (context_of ride) × (lead ≤ length part.now) }
    ensures { From (inside_of (context_of ride) (tree_at text.now at) place part.now lead) part.now lead n out.old out.new (counts_of result) }
{
    if part.len() <= lead {
        let m = emit(out, n, NOTHING_LETTER, place + lead, 0);
        return done(0, m);
    }
    let deeper = or_stop(in_maybe(ride), 0, n)?;
    let m = emit(out, n, MAYBE_LETTER, place + lead, 0);
    let held = at + 1;
    let fixed = fixed_of(shapes[held]);
    let len = part.len();
    if fixed {
        return value(text, shapes, held, part, lead, len, place, deeper, out, m);
    }
    let stop = len - 1;
    let r = value(text, shapes, held, part, lead, stop, place, deeper, out, m);
    end_byte(part, lead, r)
}
