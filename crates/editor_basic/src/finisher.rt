// A structure from the end of its changed field on: the fields behind it, and the table of all ends at its new width. Into a slice of no
// length nothing is written, and the same calls tell how long the structure becomes.
ghost use Rattle.std.specs.Prelude.{◌≡◌, ◌+◌, ◌*◌, ◌<◌, ◌≤◌, ◌^◌, length, drop};
ghost use Rattle.meaning.specs.Limits.{largest_frame};
ghost use Rattle.meaning.specs.Offsets.{table, entries};
ghost use Rattle.meaning.specs.Padding.{Aligns};
ghost use Rattle.signature.specs.Trees.{fields_at};
ghost use Rattle.strict_sizes.specs.Sizes.{offsets_in};
ghost use Rattle.editor_basic.specs.Puts.{over, rest_most, last_most};
ghost use Rattle.editor_basic.specs.Rows.{StandingRow, last_now, last_length_now, row_now, row_length_now};

use crate::elements::width_for;
use crate::fields::Row;
use crate::mover::put_low_first;
use crate::rewriter::{move_fields, rewrite_field_ends};
use strict_ends::offset_at;

// So many offsets from a place on, as a table of another width: the ends of the fields in front of the changed one, which stay.
fn widen(
    old: &[u8],
    from: usize,
    count: usize,
    narrow: usize,
    width: usize,
    out: &mut [u8],
    at: usize,
)
    requires { (from + count * narrow ≤ length old.now) × (length old.now ≤ largest_frame) × Aligns narrow × (width ≤ 8) × (at < 2 ^ 31) }
    ensures { out.new ≡ over out.old at (table width (entries count narrow (drop from old.now))) }
{
    if out.len() <= at {
        return;
    }
    let mut next = at;
    let mut place = from;
    for _ in 0..count {
        let end = offset_at(old, place, narrow);
        put_low_first(out, next, width, end);
        next += width;
        place += narrow;
    }
}

// A structure, or a dictionary's entry, whose last field is the changed one and ends now at the place `to` of it and the place `at` of the
// slice: the offsets of the fields in front stood from `end` on. The new length.
pub fn finish_last(
    old: &[u8],
    end: usize,
    narrow: usize,
    out: &mut [u8],
    at: usize,
    to: usize,
) -> usize
    requires { (end ≤ length old.now) × (length old.now ≤ largest_frame) × Aligns narrow × (at + to < 2 ^ 29) }
    ensures bytes { out.new ≡ over out.old at (last_now end narrow old.now to) }
    ensures length { result ≡ last_length_now end narrow old.now to }
    ensures near { result < to + last_most }
{
    let count = (old.len() - end) / narrow;
    let size = width_for(to, count);
    let width = size.width();
    widen(old, end, count, narrow, width, out, at);
    to + count * width
}

// A structure whose changed field has others behind it: `rest` is those, and the changed one's offset stood behind theirs.
pub fn finish_structure(
    text: &[u8],
    tables: &[u16],
    old: &[u8],
    rest: Row,
    out: &mut [u8],
    at: usize,
    to: usize,
) -> usize
    requires { StandingRow text.now tables.now rest old.now × (rest.end + rest.width ≤ length old.now) × (rest.body + offsets_in (fields_at text.now rest.at) * rest.width ≡ rest.end) × (at + to < 2 ^ 29) }
    ensures bytes { out.new ≡ over out.old at (row_now text.now rest old.now to) }
    ensures length { result ≡ row_length_now text.now rest old.now to }
    ensures near { result < to + rest_most }
{
    let end = move_fields(text, tables, old, rest, out, at, to);
    let narrow = rest.width;
    let from = rest.end + narrow;
    let before = (old.len() - from) / narrow;
    let behind = (rest.end - rest.body) / narrow;
    let count = before + (behind + 1);
    let size = width_for(end, count);
    let width = size.width();
    let own = at + (end - to) + behind * width;
    put_low_first(out, own, width, to);
    widen(old, from, before, narrow, width, out, own + width);
    rewrite_field_ends(text, tables, old, rest, width, out, own, to);
    end + count * width
}
