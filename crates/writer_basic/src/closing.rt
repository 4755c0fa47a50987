// What stands round children that are written: a maybe's last byte, the event that closes, tables, end padding, a variant's type.
ghost use Rattle.std.specs.Prelude.{◌≤◌, length};
ghost use Rattle.meaning.specs.Limits.{longest_type};
ghost use Rattle.meaning.specs.Padding.{Aligns};
ghost use Rattle.writer_store.specs.Stores.{cap};
ghost use Rattle.writer_basic.specs.Wrote.{done, ran, answer_in, run_in};
ghost use Rattle.writer_basic.specs.Closing.{RoundChild, BehindRow, RoundElements, RoundFields, RoundValue};

use crate::basic::plain_at;
use crate::{Row, Wrote};
use meaning::letters::CONTAINER_END;
use meaning::refusals::Refusal;
use writer_ends::{back_table, table, width};
use writer_store::{add, pad, put, put_type};

// A maybe round its child.
pub fn present(fixed: bool, child: Wrote, out: &mut [u8], start: usize) -> Wrote
    requires { (start ≤ cap) × (child.size ≤ cap) }
    ensures { RoundChild fixed start out.old out.new (done child) (done result) }
{
    if fixed {
        return child;
    }
    put(out, start + child.size, 0);
    Wrote {
        next: child.next,
        size: add(child.size, 1),
    }
}

// The event that closes what was written.
pub fn ended(events: &[u64], row: Row) -> Result<Row, Refusal>
    requires { row.next ≤ length events.now }
    ensures { BehindRow events.now (ran row) (run_in result) }
{
    if !plain_at(events, row.next, CONTAINER_END) {
        return Err(Refusal::NoValue);
    }
    Ok(Row {
        next: row.next + 3,
        size: row.size,
        count: row.count,
    })
}

// An array round its elements: the table of their ends, in order, unless they are fixed.
pub fn array_end(
    fixed: bool,
    row: Row,
    out: &mut [u8],
    start: usize,
    ends: &mut [u16],
    top: usize,
) -> Wrote
    requires { (start ≤ cap) × (top ≤ cap) × (row.size ≤ cap) × (row.count ≤ cap) }
    ensures { RoundElements fixed start top out.old out.new ends.old ends.new (ran row) (done result) }
{
    let next = row.next;
    let size = row.size;
    if fixed {
        return Wrote { next, size };
    }
    let w = width(size, row.count);
    table(out, start + size, w, ends, top, row.count);
    Wrote {
        next,
        size: add(size, row.count * w),
    }
}

// A structure round its fields: padding where it is fixed, else the table of their ends, from the back.
pub fn structure_end(
    fixed: bool,
    alignment: usize,
    row: Row,
    out: &mut [u8],
    start: usize,
    ends: &[u16],
    top: usize,
) -> Wrote
    requires { (start ≤ cap) × (top ≤ cap) × Aligns alignment × (row.size ≤ cap) × (row.count ≤ cap) }
    ensures { RoundFields fixed alignment start top out.old out.new ends.now (ran row) (done result) }
{
    let next = row.next;
    let size = row.size;
    if fixed {
        let more = pad(out, start + size, size, alignment);
        return Wrote {
            next,
            size: add(size, more),
        };
    }
    let w = width(size, row.count);
    back_table(out, start + size, w, ends, top, row.count);
    Wrote {
        next,
        size: add(size, row.count * w),
    }
}

// A variant round its value: a nul, and the text of its type.
pub fn variant_end(
    events: &[u64],
    text: &[u8],
    value: Wrote,
    out: &mut [u8],
    start: usize,
) -> Result<Wrote, Refusal>
    requires { (start ≤ cap) × (value.size ≤ cap) × (value.next ≤ length events.now) × (length text.now ≤ longest_type) }
    ensures { RoundValue text.now events.now start out.old out.new (done value) (answer_in result) }
{
    if !plain_at(events, value.next, CONTAINER_END) {
        return Err(Refusal::NoValue);
    }
    put_type(out, start + value.size, text);
    Ok(Wrote {
        next: value.next + 3,
        size: add(value.size, 1 + text.len()),
    })
}
