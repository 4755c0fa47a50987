// Where the children of a container begin and end, what stands between them, and the offsets of a container.
#![tactic(auto)]

ghost use Rattle.std.specs.Prelude.{◌≡◌, true, false, ◌+◌, ◌*◌, ◌≤◌, ◌<◌, eqb, length};
ghost use Rattle.meaning.specs.Limits.{largest_frame, longest_type};
ghost use Rattle.meaning.specs.Numbers.{value};
ghost use Rattle.meaning.specs.Padding.{padding, Aligns};
ghost use Rattle.meaning.specs.Offsets.{encoded_width, written_width};
ghost use Rattle.meaning_writing.specs.Shapes.{part as part_of, one_more, last_end, field_end, offsets_left};
ghost use Rattle.meaning_writing.specs.Strict.{all_zero, element_end, fields_finished};
ghost use Rattle.framing_offset_size.specs.Widths.{width_of};
ghost use Rattle.strict_ends.specs.Ends.{Laid, end_of, StartAt, RowsOf, TableOf};

use framing_offset_size::FramingOffsetSize;
use framing_offsets::table::{last_in, next_in};

// How a child lies among others: its alignment, whether it is fixed in size, and then its size.
// A flag beside the size, and no Option: the definitions' Shape has these three, and a contract compares them one by one.
#[derive(Clone, Copy)]
pub struct Extent {
    pub alignment: usize,
    pub fixed: bool,
    pub size: usize,
}

// The offsets of a container that can stand: the place behind its children, how many there are, their width, and where they begin, or end
// in a structure.
#[derive(Clone, Copy)]
pub struct Rows {
    pub body: usize,
    pub count: usize,
    pub width: usize,
    pub from: usize,
}

fn all_zero(part: &[u8]) -> bool
    ensures { result ≡ all_zero part.now }
{
    part.iter().all(|byte| *byte == 0)
}

// The next place of an alignment, which is asked for: so no test of it is left, and a mask leads there.
pub fn aligned(place: usize, alignment: usize) -> usize
    requires { (place ≤ 1000000) × Aligns alignment }
    ensures { result ≡ place + padding place alignment }
{
    let low = alignment - 1;
    (place + low) & !low
}

// Where a child begins behind its padding at a place, if it may stand there and end at e, not behind a limit.
pub fn start_of(
    part: &[u8],
    limit: usize,
    place: usize,
    e: usize,
    alignment: usize,
) -> Option<usize>
    requires { (place ≤ limit) × (limit ≤ length part.now) × (length part.now ≤ largest_frame) × Aligns alignment }
    ensures { StartAt part.now limit place e alignment result }
{
    let at = aligned(place, alignment);
    if e < at || limit < e || !all_zero(&part[place..at]) {
        return None;
    }
    Some(at)
}

// Where a child that is fixed ends, laid out from a place on.
pub fn fixed_end(x: Extent, place: usize) -> usize
    requires { (place ≤ 100000) × Laid x }
    ensures { result ≡ end_of x place }
{
    aligned(place, x.alignment) + x.size
}

// The width that is so many bytes, told by its bounds. Callers keep the number, and no FramingOffsetSize: they and the definitions add it to places.
fn size_of(width: usize) -> FramingOffsetSize
    requires { Aligns width }
    ensures { width_of result ≡ width }
{
    if width < 2 {
        return FramingOffsetSize::U8;
    }
    if width < 4 {
        return FramingOffsetSize::U16;
    }
    if width < 8 {
        return FramingOffsetSize::U32;
    }
    FramingOffsetSize::U64
}

// The offset at a place: its own bytes are a table of one.
pub fn offset_at(part: &[u8], place: usize, width: usize) -> usize
    requires { (place + width ≤ length part.now) × Aligns width }
    ensures { result ≡ value (part_of place (place + width) part.now) }
{
    let size = size_of(width);
    let behind = place + size.width();
    next_in(&part[place..behind], size, 0).unwrap_or(0)
}

// Where an element ends, its offset at a place.
#[tactic(auto, unfolding(meaning_writing::specs::Strict::element_end))]
pub fn element_end(part: &[u8], x: Extent, width: usize, from: usize, place: usize) -> usize
    requires { (place ≤ largest_frame) × Laid x × (x.fixed ≡ false → (from + width ≤ length part.now) × Aligns width) }
    ensures { result ≡ element_end x.fixed part.now width from (end_of x place) }
{
    if x.fixed {
        fixed_end(x, place)
    } else {
        offset_at(part, from, width)
    }
}

// Where a field ends, its offset before an end.
#[tactic(auto, unfolding(meaning_writing::specs::Shapes::field_end))]
pub fn field_end(part: &[u8], x: Extent, width: usize, end: usize, place: usize) -> usize
    requires { (place ≤ largest_frame) × Laid x × (end ≤ length part.now) × Aligns width × (x.fixed ≡ false → width ≤ end) }
    ensures { result ≡ field_end x.fixed part.now width end (end_of x place) }
{
    if x.fixed {
        fixed_end(x, place)
    } else {
        offset_at(part, end - width, width)
    }
}

// Where the last field ends, and the offsets that are left behind a field.
pub fn last_end(x: Extent, body: usize, place: usize) -> usize
    requires { (place ≤ largest_frame) × Laid x }
    ensures { result ≡ last_end x.fixed (end_of x place) body }
{
    if x.fixed { fixed_end(x, place) } else { body }
}

pub fn offsets_left(fixed: bool, width: usize, end: usize) -> usize
    requires { fixed ≡ false → width ≤ end }
    ensures { result ≡ offsets_left fixed width end }
{
    if fixed { end } else { end - width }
}

// One more offset, unless a field is fixed.
pub fn one_more(fixed: bool, count: usize) -> usize
    requires { count < 1000 }
    ensures { result ≡ one_more fixed count }
{
    if fixed { count } else { count + 1 }
}

// The width of the offsets in a container of so many bytes.
fn width_of(len: usize) -> usize
    requires { len ≤ largest_frame }
    ensures { result ≡ encoded_width len }
{
    FramingOffsetSize::for_encoded_container(len).width()
}

// Whether a width, which is that of a container's length, is the smallest for its body and its offsets.
fn smallest(body: usize, count: usize, width: usize) -> bool
    requires { (body + count * width ≤ largest_frame) × (width ≡ encoded_width (body + count * width)) }
    ensures { result ≡ eqb (written_width body count) width }
{
    match width {
        1 => true,
        2 => 255 < body + count,
        _ => 65535 < body + 2 * count,
    }
}

// The offsets of an array whose elements are not fixed.
fn table_of(part: &[u8]) -> Option<Rows>
    requires { length part.now ≤ largest_frame }
    ensures { RowsOf part.now false 0 result }
{
    let len = part.len();
    let size = FramingOffsetSize::for_encoded_container(len);
    let width = size.width();
    let body = last_in(part, size).unwrap_or(0);
    if len < body {
        return None;
    }
    let count = size.count_in(len - body);
    if body + count * width != len || !smallest(body, count, width) {
        return None;
    }
    Some(Rows {
        body,
        count,
        width,
        from: body,
    })
}

// The elements of an array, fixed or not.
pub fn rows_of(part: &[u8], x: Extent) -> Option<Rows>
    requires { (length part.now ≤ largest_frame) × (x.fixed ≡ true → 0 < x.size) }
    ensures { RowsOf part.now x.fixed x.size result }
{
    if x.fixed {
        let len = part.len();
        return Some(Rows {
            body: len,
            count: len / x.size,
            width: 0,
            from: 0,
        });
    }
    table_of(part)
}

// So many offsets at the end of a structure of so many bytes.
pub fn rows_behind(len: usize, count: usize) -> Option<Rows>
    requires { (len ≤ largest_frame) × (count ≤ longest_type) }
    ensures { TableOf len count result }
{
    let width = width_of(len);
    let table = count * width;
    if len < table || !smallest(len - table, count, width) {
        return None;
    }
    Some(Rows {
        body: len - table,
        count,
        width,
        from: len,
    })
}

// Behind the last field: zeros up to the structure's alignment, or nothing up to the offsets.
pub fn finished(part: &[u8], whole: bool, alignment: usize, place: usize, body: usize) -> bool
    requires { (place ≤ largest_frame) × (body ≤ length part.now) × Aligns alignment }
    ensures { result ≡ fields_finished whole alignment place body part.now }
{
    if !whole {
        return place == body;
    }
    aligned(place, alignment) == body && all_zero(&part[place..body])
}
