// The table of framing offsets at the end of a container, read where it stands. Ports framing_offsets.rs.
#![tactic(auto)]

pub mod table;

ghost use Rattle.std.specs.Prelude.{◌≡◌, length};
ghost use Rattle.meaning.specs.Offsets.{encoded_width, table_from, table_stands};
ghost use Rattle.utils.specs.Checks.{checked};
ghost use Rattle.framing_offset_size.specs.Widths.{width_of};
ghost use Rattle.framing_offsets.specs.Tables.{table_in, count_from, encoded_in, Encoded, offset_in};

use crate::table::next_in;
use framing_offset_size::FramingOffsetSize;
use meaning::refusals::Refusal;

// Where the table begins, how many offsets it has, and how wide they are.
#[derive(Clone, Copy, Debug, PartialEq, Eq)]
pub struct OffsetTable {
    pub start: usize,
    pub count: usize,
    pub size: FramingOffsetSize,
}

// How many offsets of a width there are from a start on.
pub fn count(container: &[u8], start: usize, size: FramingOffsetSize) -> usize
    ensures { result ≡ count_from (width_of size) start container.now }
{
    if container.len() < start {
        return 0;
    }
    size.count_in(container.len() - start)
}

// Whether the table from a start on has no leftover piece and no offset above the start.
fn stands(container: &[u8], start: usize, size: FramingOffsetSize) -> bool
    ensures { result ≡ table_stands (table_from (width_of size) start container.now) container.now }
{
    if container.len() < start {
        return false;
    }
    for i in (start..container.len()).step_by(size.width()) {
        match size.offset_at(container, i) {
            Ok(entry) => {
                if start < entry {
                    return false;
                }
            }
            Err(_) => return false,
        }
    }
    true
}

// The table of a container whose offsets have a width.
fn table_by(container: &[u8], size: FramingOffsetSize) -> Result<OffsetTable, Refusal>
    requires { width_of size ≡ encoded_width (length container.now) }
    ensures { Encoded container.now (encoded_in result) }
{
    let start = size.read_last_offset_from_buffer(container).unwrap_or(0);
    if !stands(container, start, size) {
        return Err(Refusal::OutOfBounds);
    }
    let count = count(container, start, size);
    Ok(OffsetTable { start, count, size })
}

// Nearly all containers have offsets of one byte: told so, the compiler makes steps for them that look at no width.
pub fn from_encoded_array(container: &[u8]) -> Result<OffsetTable, Refusal>
    ensures { Encoded container.now (encoded_in result) }
{
    if container.len() <= FramingOffsetSize::U8.max() {
        return table_by(container, FramingOffsetSize::U8);
    }
    table_by(
        container,
        FramingOffsetSize::for_encoded_container(container.len()),
    )
}

// The i-th offset of a table that stands in a container, from 0 on.
pub fn next(container: &[u8], offsets: OffsetTable, i: usize) -> Result<usize, Refusal>
    ensures { checked result ≡ offset_in (table_in offsets) i container.now }
{
    let start = offsets.start;
    if offsets.count <= i {
        return Err(Refusal::OutOfBounds);
    }
    if container.len() < start {
        return Err(Refusal::OutOfBounds);
    }
    next_in(&container[start..], offsets.size, i)
}

pub fn first(container: &[u8], offsets: OffsetTable) -> Result<usize, Refusal>
    ensures { checked result ≡ offset_in (table_in offsets) 0 container.now }
{
    next(container, offsets, 0)
}
