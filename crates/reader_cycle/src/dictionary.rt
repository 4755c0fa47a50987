// The entries of a dictionary. Ports MapAccess of ArrayDeserializer, gvariant/de.rs.
ghost use Rattle.std.specs.Prelude.{◌≡◌, true, ℕ, ◌≤◌, length};
ghost use Rattle.reader_basic.specs.Answers.{Between, counts_of};
ghost use Rattle.reader_basic.specs.Parts.{Inside};
ghost use Rattle.reader_steps.specs.Places.{step_in, fixed_key_in, text_key_in, EntriesAt, entry_of};
ghost use Rattle.reader_steps.specs.Rides.{context_of};

use crate::value;
use meaning::refusals::Refusal;
use reader_basic::{Reading, behind, or_stop, refused};
use reader_steps::codes::{is_fixed, leaf};
use reader_steps::dictionary::key_ends;
use reader_steps::ends::{end_padded, padded, past};
use signature::shapes::fixed_of;

// One entry of a dictionary, from j to e; the body ends at b.
#[cycle(reading)]
pub(crate) fn entry(
    text: &[u8],
    shapes: &[u16; 255],
    at: usize,
    part: &[u8],
    b: usize,
    j: usize,
    e: usize,
    place: usize,
    ride: usize,
    out: &mut [u64],
    n: usize,
) -> Reading
    requires { EntriesAt text.now shapes.now at × Inside (length part.now) place (context_of ride) × (j ≤ length part.now) × (e ≤ b) × (b ≤ length part.now) × ((entry_of text.now shapes.now at).fixed ≡ true → e ≡ length part.now) }
    ensures { Between (step_in (context_of ride) text.now (entry_of text.now shapes.now at) place part.now b j e) part.now j e n out.old out.new (counts_of result) }
{
    let lead = or_stop(padded(part, j, place, ride, shapes[at]), 0, n)?;
    let from = j + lead;
    if is_fixed(text[at + 2]) {
        let r = fixed_key(text, shapes, at, part, from, e, place, ride, out, n);
        return behind(lead, r);
    }
    let r = text_key(text, shapes, at, part, b, from, e, place, ride, out, n);
    behind(lead, r)
}

// An entry behind its padding, from j to e: a key that is fixed, and the value.
#[cycle(reading)]
pub(crate) fn fixed_key(
    text: &[u8],
    shapes: &[u16; 255],
    at: usize,
    part: &[u8],
    j: usize,
    e: usize,
    place: usize,
    ride: usize,
    out: &mut [u64],
    n: usize,
) -> Reading
    requires { EntriesAt text.now shapes.now at × Inside (length part.now) place (context_of ride) × (j ≤ length part.now) × (e ≤ length part.now) × ((entry_of text.now shapes.now at).fixed ≡ true → e ≡ length part.now) × ((entry_of text.now shapes.now at).keyed ≡ true) }
    ensures { (b : ℕ) → Between (fixed_key_in (context_of ride) text.now (entry_of text.now shapes.now at) place part.now b j e) part.now j e n out.old out.new (counts_of result) }
{
    if e < j {
        return refused(Refusal::OutOfBounds, 0, n);
    }
    let k = leaf(text[at + 2], &part[j..e], place + j, ride, out, n)?;
    let from = j + k.used;
    let m = k.count;
    let v = value(text, shapes, at + 3, part, from, e, place, ride, out, m);
    if fixed_of(shapes[at + 3]) {
        let r = end_padded(part, from, place, ride, shapes[at], v);
        return behind(k.used, r);
    }
    behind(k.used, v)
}

// An entry behind its padding, from j to e: a text, the value, and the key's offset.
#[cycle(reading)]
pub(crate) fn text_key(
    text: &[u8],
    shapes: &[u16; 255],
    at: usize,
    part: &[u8],
    b: usize,
    j: usize,
    e: usize,
    place: usize,
    ride: usize,
    out: &mut [u64],
    n: usize,
) -> Reading
    requires { EntriesAt text.now shapes.now at × Inside (length part.now) place (context_of ride) × (j ≤ length part.now) × (e ≤ b) × (b ≤ length part.now) }
    ensures { Between (text_key_in (context_of ride) text.now (entry_of text.now shapes.now at) place part.now b j e) part.now j e n out.old out.new (counts_of result) }
{
    let ends = or_stop(key_ends(part, b, j, e), 0, n)?;
    let stop = ends.child;
    let k = leaf(text[at + 2], &part[j..stop], place + j, ride, out, n)?;
    let from = j + k.used;
    let m = k.count;
    if e < from + ends.width {
        return refused(Refusal::OutOfBounds, k.used, m);
    }
    let end = e - ends.width;
    let v = value(text, shapes, at + 3, part, from, end, place, ride, out, m);
    let r = past(v, ends.width);
    behind(k.used, r)
}
