// The ends of the children of all open containers, kept until their container's table is written. An end takes two bytes. The first
// 128 stand in a slice of their own, the others in the tail of the frame that is being written, from its last byte downward: each
// is the promise of an offset there, so that the frame's front never reaches them.
#![tactic(auto)]

ghost use Rattle.std.specs.Prelude.{◌≡◌, ◌+◌, ◌≤◌, ◌<◌, ◌^◌, length};
ghost use Rattle.meaning.specs.Offsets.{written_width, table as table_of, back_table};
ghost use Rattle.writer_store.specs.Stores.{cap};
ghost use Rattle.writer_ends.specs.Ends.{EndAt, PutEnd, Kept, Swapped, Turned, TableFrom};

use writer_store::{add, digits, low};

// The end of a number.
fn end_at(out: &[u8], ends: &[u16], i: usize) -> u64
    requires { i < 2 ^ 32 }
    ensures { EndAt i out.now ends.now result }
{
    if i < 128 {
        return if i < ends.len() {
            u64::from(ends[i])
        } else {
            0
        };
    }
    let back = 2 * (i - 127);
    if out.len() < back {
        return 0;
    }
    let at = out.len() - back;
    u64::from(out[at]) + 256 * u64::from(out[at + 1])
}

// Stores the end of a number, where there is room for it.
fn put_end(out: &mut [u8], ends: &mut [u16], i: usize, end: u64)
    requires { i < 2 ^ 32 }
    ensures { PutEnd i end out.old out.new ends.old ends.new }
{
    if i < 128 {
        if i < ends.len() {
            ends[i] = (end % 65536) as u16;
        }
        return;
    }
    let back = 2 * (i - 127);
    if out.len() < back {
        return;
    }
    let at = out.len() - back;
    out[at] = low(end);
    out[at + 1] = low(end / 256);
}

// Keeps an end behind so many others, unless it is to be skipped, and counts it.
pub fn keep(
    out: &mut [u8],
    ends: &mut [u16],
    top: usize,
    count: usize,
    end: usize,
    skip: bool,
) -> usize
    requires { top + count < 2 ^ 32 }
    ensures { Kept top count end skip out.old out.new ends.old ends.new result }
{
    if skip {
        return count;
    }
    put_end(out, ends, top + count, end as u64);
    add(count, 1)
}

// The smallest width that fits a body and its offsets.
pub fn width(body: usize, count: usize) -> usize
    requires { (body ≤ cap) × (count ≤ cap) }
    ensures { (result ≡ written_width body count) × (0 < result) × (result ≤ 4) }
{
    if body + count <= 255 {
        return 1;
    }
    if body + 2 * count <= 65535 {
        return 2;
    }
    4
}

// Exchanges two ends. Both may stand in the tail, where their bytes are exchanged.
fn swap_ends(out: &mut [u8], ends: &mut [u16], i: usize, j: usize)
    requires { (i < j) × (j < 2 ^ 32) }
    ensures { Swapped i j out.old out.new ends.old ends.new }
{
    if 128 <= i {
        let back = 2 * (j - 127);
        if out.len() < back {
            return;
        }
        let at = out.len() - 2 * (i - 127);
        let to = out.len() - back;
        out.swap(at, to);
        out.swap(at + 1, to + 1);
        return;
    }
    let first = end_at(out, ends, i);
    let last = end_at(out, ends, j);
    put_end(out, ends, i, last);
    put_end(out, ends, j, first);
}

// Turns so many ends round: the first is the last then.
fn turn_ends(out: &mut [u8], ends: &mut [u16], top: usize, count: usize)
    requires { (top ≤ cap) × (count ≤ cap) }
    ensures { Turned top count out.old out.new ends.old ends.new }
{
    for i in 0..count / 2 {
        swap_ends(out, ends, top + i, top + (count - 1 - i));
    }
}

// The table of so many ends, from the back.
pub fn back_table(out: &mut [u8], at: usize, width: usize, ends: &[u16], top: usize, count: usize)
    requires { (at < 2 ^ 30) × (width ≤ 4) × (top ≤ cap) × (count ≤ cap) }
    ensures { TableFrom (back_table width) at width top count out.old out.new ends.now ends.now }
{
    if out.len() < at {
        return;
    }
    let mut place = at;
    for j in (0..count).rev() {
        let end = end_at(out, ends, top + j);
        digits(out, place, width, end);
        place += width;
    }
}

// The table of so many ends that all stand in their slice, in order.
fn front_table(out: &mut [u8], at: usize, width: usize, ends: &[u16], top: usize, count: usize)
    requires { (at < 2 ^ 30) × (width ≤ 4) × (top + count ≤ 128) × (top + count ≤ length ends.now) }
    ensures { TableFrom (table_of width) at width top count out.old out.new ends.now ends.now }
{
    let mut place = at;
    for end in &ends[top..top + count] {
        digits(out, place, width, u64::from(*end));
        place += width;
    }
}

// The table of so many ends, in order: they are turned round first where some stand in the tail.
pub fn table(out: &mut [u8], at: usize, width: usize, ends: &mut [u16], top: usize, count: usize)
    requires { (at < 2 ^ 30) × (width ≤ 4) × (top ≤ cap) × (count ≤ cap) }
    ensures { TableFrom (table_of width) at width top count out.old out.new ends.old ends.new }
{
    if out.len() < at {
        return;
    }
    if top + count <= 128 && top + count <= ends.len() {
        front_table(out, at, width, ends, top, count);
        return;
    }
    turn_ends(out, ends, top, count);
    back_table(out, at, width, ends, top, count);
}
