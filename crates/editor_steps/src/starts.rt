// Where the children of a container begin, by its bytes.
ghost use Rattle.std.specs.Prelude.{◌≡◌, ◌*◌, ◌≤◌, length};
ghost use Rattle.meaning.specs.Padding.{Aligns};
ghost use Rattle.meaning.specs.Offsets.{encoded_width};
ghost use Rattle.strict_basic.specs.Basics.{letter_extent};
ghost use Rattle.strict_ends.specs.Ends.{Laid};
ghost use Rattle.editor_steps.specs.Starts.{elements_as, body_of, AllOf, table_as, row_as, entry_as, KeyFits};

use editor_basic::elements::Elements;
use editor_basic::fields::Row;
use framing_offset_size::FramingOffsetSize;
use framing_offsets::table::last_in;
use signature::Letter;
use strict_basic::basic::extent_of;
use strict_ends::{aligned, field_end, one_more};

// The offsets of a structure: where they begin, and how wide they are.
#[derive(Clone, Copy)]
pub struct Table {
    pub body: usize,
    pub width: usize,
}

// A dictionary's entry: where its value begins, where its offsets do, and how wide they are.
#[derive(Clone, Copy)]
pub struct Entry {
    pub start: usize,
    pub body: usize,
    pub width: usize,
}

fn elements_as(alignment: usize, size: FramingOffsetSize, count: usize, from: usize) -> Elements
    ensures { result ≡ elements_as alignment size count from }
{
    Elements {
        alignment,
        size,
        count,
        from,
        place: 0,
    }
}

// All elements of an array that are not fixed.
pub fn elements_of(part: &[u8], alignment: usize) -> Elements
    requires { body_of part.now ≤ length part.now }
    ensures { AllOf alignment part.now result }
{
    let len = part.len();
    let size = FramingOffsetSize::for_encoded_container(len);
    let from = last_in(part, size).unwrap_or(0);
    let count = size.count_in(len - from);
    elements_as(alignment, size, count, from)
}

fn table_of(len: usize, count: usize) -> Table
    requires { count * encoded_width len ≤ len }
    ensures { result ≡ table_as len count }
{
    let size = FramingOffsetSize::for_encoded_container(len);
    let width = size.width();
    Table {
        body: len - count * width,
        width,
    }
}

// All fields of a structure of so many bytes and offsets.
pub fn row_of(at: usize, len: usize, count: usize) -> Row
    requires { count * encoded_width len ≤ len }
    ensures { result ≡ row_as at len count }
{
    let table = table_of(len, count);
    Row {
        at,
        place: 0,
        end: len,
        body: table.body,
        width: table.width,
    }
}

// A dictionary's entry, by its key's letter and its value's alignment.
pub fn entry_of(part: &[u8], key: Letter, alignment: usize) -> Entry
    requires { KeyFits key part.now × Laid (letter_extent key) × Aligns alignment }
    ensures { result ≡ entry_as key alignment part.now }
{
    let len = part.len();
    let lies = extent_of(key);
    let table = table_of(len, one_more(lies.fixed, 0));
    let stop = field_end(part, lies, table.width, len, 0);
    let start = aligned(stop, alignment);
    Entry {
        start,
        body: table.body,
        width: table.width,
    }
}
