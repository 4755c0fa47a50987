// Arrays, and the walk over a dictionary's entries. Ports ArrayDeserializer and its SeqAccess of gvariant/de.rs.
ghost use Rattle.std.specs.Prelude.{◌≡◌, true, false, ◌≤◌, length, drop};
ghost use Rattle.framing_offsets.specs.Tables.{table_in};
ghost use Rattle.signature.specs.Places.{letter_at};
ghost use Rattle.signature.specs.Trees.{tree_at};
ghost use Rattle.reader_basic.specs.Answers.{From, counts_of};
ghost use Rattle.reader_basic.specs.Parts.{Stands, Inside};
ghost use Rattle.reader_steps.specs.Places.{inside_of, item_of, elements_of, framed_of, DescribedAt, RepeatedAt};
ghost use Rattle.reader_steps.specs.Rides.{context_of};

use crate::dictionary::entry;
use crate::value;
use events::emit;
use framing_offsets::table::next_in;
use framing_offsets::{OffsetTable, from_encoded_array};
use reader_basic::basic::close;
use reader_basic::{Answer, Reading, behind, done, or_stop};
use reader_runs::numbers::{numbers, readings};
use reader_runs::texts_run::texts;
use reader_steps::array::{empty, kind_by, repeats_fixed};
use reader_steps::codes::{held_width, is_text, number_width};
use reader_steps::opening::in_array;
use reader_steps::ride::context_of;
use signature::Letter;

#[cycle(reading)]
pub(crate) fn array(
    text: &[u8],
    shapes: &[u16; 255],
    at: usize,
    part: &[u8],
    lead: usize,
    place: usize,
    ride: usize,
    out: &mut [u64],
    n: usize,
) -> Reading
    requires { DescribedAt text.now shapes.now at × (letter_at text.now at ≡ Letter.Array) × Inside (length part.now) place (context_of ride) × (lead ≤ length part.now) }
    ensures { From (inside_of (context_of ride) (tree_at text.now at) place part.now lead) part.now lead n out.old out.new (counts_of result) }
{
    let deeper = or_stop(in_array(ride), 0, n)?;
    let kind = kind_by(text[at + 1]);
    if lead == part.len() {
        return empty(kind, place + lead, out, n);
    }
    if repeats_fixed(text, shapes, at) {
        let m = emit(out, n, kind, place + lead, 0);
        let r = elements(text, shapes, at, part, lead, place, deeper, out, m);
        return close(r, place + lead, out);
    }
    let ends = or_stop(from_encoded_array(&part[lead..]), 0, n)?;
    let m = emit(out, n, kind, place + lead, 0);
    let r = framed(text, shapes, at, ends, part, lead, place, deeper, out, m);
    close(r, place + lead, out)
}

// Elements that are fixed, one behind another to the part's end.
#[cycle(reading)]
pub(crate) fn elements(
    text: &[u8],
    shapes: &[u16; 255],
    at: usize,
    part: &[u8],
    lead: usize,
    place: usize,
    ride: usize,
    out: &mut [u64],
    n: usize,
) -> Reading
    requires { RepeatedAt text.now shapes.now at × ((item_of text.now shapes.now at).fixed ≡ true) × Inside (length part.now) place (context_of ride) × (lead ≤ length part.now) }
    ensures { From (elements_of (context_of ride) text.now (item_of text.now shapes.now at) place part.now lead) part.now lead n out.old out.new (counts_of result) }
{
    let child = at + 1;
    let code = text[child];
    if let Some(width) = number_width(code) {
        return numbers(part, lead, place, context_of(ride), code, width, out, n);
    }
    let is_entry = code == b'{';
    let b = part.len();
    let mut read = Answer { used: 0, count: n };
    while lead + read.used < b {
        let j = lead + read.used;
        let m = read.count;
        let r = if is_entry {
            entry(text, shapes, at, part, b, j, b, place, ride, out, m)
        } else {
            value(text, shapes, child, part, j, b, place, ride, out, m)
        };
        read = behind(read.used, r)?;
    }
    Ok(read)
}

// Elements that are not fixed, each from where the one before stopped, up to the end that the table gives; then the table.
#[cycle(reading)]
pub(crate) fn framed(
    text: &[u8],
    shapes: &[u16; 255],
    at: usize,
    offsets: OffsetTable,
    part: &[u8],
    lead: usize,
    place: usize,
    ride: usize,
    out: &mut [u64],
    n: usize,
) -> Reading
    requires { RepeatedAt text.now shapes.now at × ((item_of text.now shapes.now at).fixed ≡ false) × Inside (length part.now) place (context_of ride) × (lead ≤ length part.now) × Stands (table_in offsets) (drop lead part.now) }
    ensures { From (framed_of (context_of ride) text.now (item_of text.now shapes.now at) offsets place part.now lead) part.now lead n out.old out.new (counts_of result) }
{
    let child = at + 1;
    if let Some(width) = held_width(text, child) {
        let held = text[at + 2];
        let context = context_of(ride);
        return readings(offsets, part, lead, place, context, held, width, out, n);
    }
    let code = text[child];
    if is_text(code) {
        return texts(offsets, part, lead, place, code, out, n);
    }
    let is_entry = code == b'{';
    let b = lead + offsets.start;
    let table = &part[b..];
    let mut so_far = Answer { used: 0, count: n };
    for i in 0..offsets.count {
        let j = lead + so_far.used;
        let offset = next_in(table, offsets.size, i).unwrap_or(0);
        let e = lead + offset;
        let m = so_far.count;
        let r = if is_entry {
            entry(text, shapes, at, part, b, j, e, place, ride, out, m)
        } else {
            value(text, shapes, child, part, j, e, place, ride, out, m)
        };
        so_far = behind(so_far.used, r)?;
    }
    done(so_far.used + (part.len() - b), so_far.count)
}
