// Where the fields of a structure stand, one after another.
ghost use Rattle.std.specs.Prelude.{◌≡◌};
ghost use Rattle.editor_basic.specs.Rows.{behind_field, field_of, StandingRow, FirstField};

use signature::shapes::shape_in;
use signature::{Letter, letter_at};
use strict_ends::{Extent, aligned, field_end, last_end, offsets_left};
use strict_sizes::sizes::extent_in;

// The fields from one of them on: the place of its type, where the one before it ended, where its offset ends if it has one, where the
// offsets begin, and how wide they are.
#[derive(Clone, Copy)]
pub struct Row {
    pub at: usize,
    pub place: usize,
    pub end: usize,
    pub body: usize,
    pub width: usize,
}

// A field: whether it is the last, how it lies among others, where it begins behind its padding and where it ends; the place of the next
// one's type, and where the offsets end that are left.
#[derive(Clone, Copy)]
pub struct Field {
    pub last: bool,
    pub fixed: bool,
    pub alignment: usize,
    pub start: usize,
    pub stop: usize,
    pub next: usize,
    pub left: usize,
}

fn field_as(
    last: bool,
    extent: Extent,
    start: usize,
    stop: usize,
    next: usize,
    left: usize,
) -> Field
    ensures { result ≡ field_of last extent start stop next left }
{
    Field {
        last,
        fixed: extent.fixed,
        alignment: extent.alignment,
        start,
        stop,
        next,
        left,
    }
}

// The first of some fields.
pub fn first_field(text: &[u8], tables: &[u16], part: &[u8], row: Row) -> Field
    requires { StandingRow text.now tables.now row part.now }
    ensures { FirstField text.now tables.now row part.now result }
{
    let shape = shape_in(text, tables, row.at);
    let extent = extent_in(tables, shape);
    let place = row.place;
    let start = aligned(place, extent.alignment);
    let behind = letter_at(text, shape.next);
    if let Letter::CloseStructure = behind {
        let stop = last_end(extent, row.body, place);
        return field_as(true, extent, start, stop, shape.next, row.end);
    }
    let stop = field_end(part, extent, row.width, row.end, place);
    let left = offsets_left(extent.fixed, row.width, row.end);
    field_as(false, extent, start, stop, shape.next, left)
}

// Those behind it.
pub fn behind_field(row: Row, field: Field) -> Row
    ensures { result ≡ behind_field row field }
{
    Row {
        at: field.next,
        place: field.stop,
        end: field.left,
        body: row.body,
        width: row.width,
    }
}
