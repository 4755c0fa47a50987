// A table of framing offsets that holds its own bytes and their width, read where it stands. Ports the type of framing_offsets.rs.
ghost use Rattle.std.specs.Prelude.{◌≡◌, ◌<◌, ◌≤◌, length};
ghost use Rattle.utils.specs.Checks.{checked};
ghost use Rattle.meaning.specs.Offsets.{encoded_width};
ghost use Rattle.framing_offset_size.specs.Widths.{width_of, last_offset_in};
ghost use Rattle.framing_offsets.specs.Tables.{count_from, offset_in};
ghost use Rattle.framing_offsets.specs.Held.{held_table, table_bytes};

use crate::from_encoded_array;
use byte_order::number;
use framing_offset_size::FramingOffsetSize;
use meaning::refusals::Refusal;

// The table's bytes, from its first offset to its last, and how wide an offset is.
#[derive(Clone, Copy, Debug)]
pub struct FramingOffsets<'a> {
    pub table: &'a [u8],
    pub size: FramingOffsetSize,
}

// How many offsets of a width a table's bytes hold.
fn count_of(table: &[u8], size: FramingOffsetSize) -> usize
    ensures { result ≡ count_from (width_of size) 0 table.now }
{
    size.count_in(table.len())
}

// The i-th offset of a table, from 0 on, of a width that is known where it is called.
fn entry<const WIDTH: usize>(table: &[u8], i: usize) -> Result<usize, Refusal>
    requires { (0 < WIDTH) × (WIDTH ≤ 8) }
    ensures { checked result ≡ offset_in (held_table WIDTH table.now) i table.now }
{
    if table.len() / WIDTH <= i {
        return Err(Refusal::OutOfBounds);
    }
    let place = i * WIDTH;
    // Its bytes alone: then no second test is made of where they end.
    number::<WIDTH>(&table[place..place + WIDTH], 0, false)
}

fn offset_of(table: &[u8], size: FramingOffsetSize, i: usize) -> Result<usize, Refusal>
    ensures { checked result ≡ offset_in (held_table (width_of size) table.now) i table.now }
{
    match size {
        FramingOffsetSize::U8 => entry::<1>(table, i),
        FramingOffsetSize::U16 => entry::<2>(table, i),
        FramingOffsetSize::U32 => entry::<4>(table, i),
        FramingOffsetSize::U64 => entry::<8>(table, i),
    }
}

// The bytes of an array's or dictionary's table, none where it is refused.
fn table_of(container: &[u8]) -> &[u8]
    ensures { result.now ≡ table_bytes container.now }
{
    match from_encoded_array(container) {
        Ok(offsets) => &container[offsets.start..],
        Err(_) => &container[container.len()..],
    }
}

impl<'a> FramingOffsets<'a> {
    pub fn new(table: &'a [u8], size: FramingOffsetSize) -> FramingOffsets<'a>
        ensures { (result.table ≡ table.entry) × (result.size ≡ size) }
    {
        FramingOffsets { table, size }
    }

    // The table of a whole array or dictionary, an empty one where it is refused.
    pub fn from_encoded_array(container: &'a [u8]) -> FramingOffsets<'a>
        ensures { (result.table.now ≡ table_bytes container.now) × (width_of result.size ≡ encoded_width (length container.now)) }
    {
        FramingOffsets::new(
            table_of(container),
            FramingOffsetSize::for_encoded_container(container.len()),
        )
    }

    pub fn count(self) -> usize
        ensures { result ≡ count_from (width_of self.entry.size) 0 self.entry.table.now }
    {
        count_of(self.table, self.size)
    }

    pub fn first(self) -> Result<usize, Refusal>
        ensures { checked result ≡ offset_in (held_table (width_of self.entry.size) self.entry.table.now) 0 self.entry.table.now }
    {
        self.next(0)
    }

    // The i-th offset, from 0 on.
    pub fn next(self, i: usize) -> Result<usize, Refusal>
        ensures { checked result ≡ offset_in (held_table (width_of self.entry.size) self.entry.table.now) i self.entry.table.now }
    {
        offset_of(self.table, self.size, i)
    }

    // The offset at the table's end, the first of a structure.
    pub fn last(self) -> Result<usize, Refusal>
        ensures { checked result ≡ last_offset_in (width_of self.entry.size) self.entry.table.now }
    {
        self.size.read_last_offset_from_buffer(self.table)
    }
}

// The i-th offset of a table that a caller has as its bytes and their width.
pub fn next_in(table: &[u8], size: FramingOffsetSize, i: usize) -> Result<usize, Refusal>
    ensures { checked result ≡ offset_in (held_table (width_of size) table.now) i table.now }
{
    FramingOffsets::new(table, size).next(i)
}

// The offset at the end of such a table.
pub fn last_in(table: &[u8], size: FramingOffsetSize) -> Result<usize, Refusal>
    ensures { checked result ≡ last_offset_in (width_of size) table.now }
{
    FramingOffsets::new(table, size).last()
}
