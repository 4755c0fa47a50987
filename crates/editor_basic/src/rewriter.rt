// The children of an array or a structure behind the one that an edit changed: moved to their new places; and the table of all ends,
// written anew. Into a slice of no length nothing is written, and the same calls tell how long the container becomes.
ghost use Rattle.std.specs.Prelude.{◌≡◌, [], ◌++◌, ◌+◌, ◌*◌, ◌<◌, ◌≤◌, ◌^◌, length};
ghost use Rattle.meaning.specs.Offsets.{table, back_table};
ghost use Rattle.meaning.specs.Padding.{zeros};
ghost use Rattle.meaning.specs.Written.{layout, ends, unless, field_ends};
ghost use Rattle.editor_basic.specs.Puts.{over, rest_most};
ghost use Rattle.editor_basic.specs.Elements.{elements_in, Standing, rest_now, length_now};
ghost use Rattle.editor_basic.specs.Rows.{fields_in, StandingRow};

use crate::elements::{Child, Elements, behind, due, end_of, first_element, width_for};
use crate::fields::{Row, behind_field, first_field};
use crate::mover::{move_part, put_low_first, put_part};

// A run that another follows. It keeps a frame of its own: few arrays have padding, and the loop over elements stays short.
#[inline(never)]
fn move_run(out: &mut [u8], at: usize, gap: usize, run: &[u8])
    requires { at + gap < 2 ^ 32 }
    ensures { out.new ≡ over out.old at (zeros gap ++ run.now) }
{
    move_part(out, at, gap, run);
}

// Elements laid out anew from the place `to` of their array, which is the place `at` of the slice. The place where they end.
pub(crate) fn move_elements(
    old: &[u8],
    elements: Elements,
    out: &mut [u8],
    at: usize,
    to: usize,
) -> usize
    requires { Standing elements old.now × (at + to < 2 ^ 30) }
    ensures bytes { out.new ≡ over out.old at (layout to (elements_in elements old.now)) }
    ensures end { result ≡ to + length (layout to (elements_in elements old.now)) }
{
    // What only measures passes them at once where each keeps its padding.
    let alignment = elements.alignment;
    if out.len() <= at && due(to, alignment) == due(elements.place, alignment) {
        return to + (end_of(old, elements) - elements.place);
    }
    let mut rest = elements;
    let mut next = at;
    let mut place = to;
    // A run of elements with no padding between them is moved at once: it stood from a place on, and behind a gap of so many zeros it goes.
    let mut from = elements.place;
    let mut gap = 0;
    for _ in 0..elements.count {
        let Child { start, end } = first_element(old, rest);
        let padding = due(place, rest.alignment);
        if 0 < padding || rest.place < start {
            move_run(out, next, gap, &old[from..rest.place]);
            next += gap + (rest.place - from);
            from = start;
            gap = padding;
        }
        place += padding + (end - start);
        rest = behind(rest, end);
    }
    move_part(out, next, gap, &old[from..rest.place]);
    place
}

// The ends of the same elements, as a table of a width from the place `at` of the slice on.
#[inline(always)]
pub(crate) fn rewrite_ends(
    old: &[u8],
    elements: Elements,
    width: usize,
    out: &mut [u8],
    at: usize,
    to: usize,
)
    requires { Standing elements old.now × (at + to < 2 ^ 30) × (width ≤ 8) }
    ensures { out.new ≡ over out.old at (table width (ends to (elements_in elements old.now))) }
{
    if out.len() <= at {
        return;
    }
    // Ends that stay, at the width that they have, are put as they stand.
    if to == elements.place && width == elements.size.width() {
        let from = elements.from;
        put_part(out, at, &old[from..from + elements.count * width]);
        return;
    }
    let mut rest = elements;
    let mut next = at;
    let mut place = to;
    for _ in 0..elements.count {
        let child = first_element(old, rest);
        let end = child.end;
        let size = end - child.start;
        place = place + due(place, rest.alignment) + size;
        put_low_first(out, next, width, place);
        next += width;
        rest = behind(rest, end);
    }
}

// An array from the end of its changed element on, which is now at the place `to` of the array and at the place `at` of the slice: the
// elements behind it, and the table. The array's new length.
pub fn finish_array(
    old: &[u8],
    front: Elements,
    rest: Elements,
    out: &mut [u8],
    at: usize,
    to: usize,
) -> usize
    requires { Standing front old.now × Standing rest old.now × (at + to < 2 ^ 29) }
    ensures bytes { out.new ≡ over out.old at (rest_now front rest old.now to) }
    ensures length { result ≡ length_now front rest old.now to }
    ensures near { result < to + rest_most }
{
    let end = move_elements(old, rest, out, at, to);
    let before = front.count;
    let count = before + (rest.count + 1);
    let size = width_for(end, count);
    let width = size.width();
    let length = end + count * width;
    if out.len() <= at {
        return length;
    }
    let table = at + (end - to);
    rewrite_ends(old, front, width, out, table, 0);
    let own = table + before * width;
    put_low_first(out, own, width, to);
    rewrite_ends(old, rest, width, out, own + width, to);
    length
}

// Fields laid out anew from the place `to` of their structure, which is the place `at` of the slice. The place where they end.
pub(crate) fn move_fields(
    text: &[u8],
    tables: &[u16],
    old: &[u8],
    row: Row,
    out: &mut [u8],
    at: usize,
    to: usize,
) -> usize
    requires { StandingRow text.now tables.now row old.now × (at + to < 2 ^ 30) }
    ensures bytes { out.new ≡ over out.old at (layout to (fields_in text.now row old.now)) }
    ensures end { result ≡ to + length (layout to (fields_in text.now row old.now)) }
    ensures near { result < to + 100000 }
{
    let mut rest = row;
    let mut next = at;
    let mut place = to;
    // No index is counted here: the last field ends the walk, and an iterator over fields would carry the same row and be no plainer.
    loop {
        let field = first_field(text, tables, old, rest);
        let start = field.start;
        let stop = field.stop;
        let last = field.last;
        let padding = due(place, field.alignment);
        move_part(out, next, padding, &old[start..stop]);
        let moved = padding + (stop - start);
        next += moved;
        place += moved;
        if last {
            return place;
        }
        rest = behind_field(rest, field);
    }
}

// The end of a field in front of the offsets that are written already, which begin at a place; none where the field is fixed. Where they
// begin then.
fn put_end(out: &mut [u8], fixed: bool, below: usize, width: usize, end: usize) -> usize
    requires { length (unless fixed end []) * width ≤ below }
    ensures bytes { out.new ≡ over out.old result (back_table width (unless fixed end [])) }
    ensures place { result + length (unless fixed end []) * width ≡ below }
{
    if fixed {
        return below;
    }
    let first = below - width;
    put_low_first(out, first, width, end);
    first
}

// The ends of fields that lie from the place `to` of their structure on, as offsets in front of those that begin at a place. Where they
// begin then.
pub(crate) fn rewrite_field_ends(
    text: &[u8],
    tables: &[u16],
    old: &[u8],
    row: Row,
    width: usize,
    out: &mut [u8],
    below: usize,
    to: usize,
) -> usize
    requires { StandingRow text.now tables.now row old.now × (to < 2 ^ 30) × (length (field_ends to (fields_in text.now row old.now)) * width ≤ below) }
    ensures bytes { out.new ≡ over out.old result (back_table width (field_ends to (fields_in text.now row old.now))) }
    ensures place { result + length (field_ends to (fields_in text.now row old.now)) * width ≡ below }
{
    let mut rest = row;
    let mut first = below;
    let mut place = to;
    // No index is counted, as above.
    loop {
        let field = first_field(text, tables, old, rest);
        let last = field.last;
        if last {
            return first;
        }
        let size = field.stop - field.start;
        place = place + due(place, field.alignment) + size;
        first = put_end(out, field.fixed, first, width, place);
        rest = behind_field(rest, field);
    }
}
