// Arrays of numbers, and of readings: numbers in maybes. What they repeat holds nothing further, so each is one loop of its own.
ghost use Rattle.std.specs.Prelude.{List, true, false, ℕ, ◌≤◌, length, drop};
ghost use Rattle.meaning.specs.Depths.{Depths};
ghost use Rattle.container_depths.specs.Opening.{depths_of};
ghost use Rattle.writer_store.specs.Stores.{cap};
ghost use Rattle.writer_basic.specs.Wrote.{answer_in, run_in, IsKey, Done, RowAt, marks_of, key_of, reading_of, many_of, Placed};

use crate::basic::{number, plain_at};
use crate::{Context, Row, Spot, Wrote};
use meaning::letters::{CONTAINER_END, MAYBE_LETTER, NOTHING_LETTER};
use meaning::refusals::Refusal;
use signature::Letter;
use writer_ends::keep;
use writer_store::{add, pad};

// Numbers of a width that is known where it is called, one behind another, up to an event that closes. Each is as long as its alignment, so
// that none is padded.
fn run<const WIDTH: usize>(
    code: u8,
    events: &[u64],
    big: bool,
    spot: Spot,
    out: &mut [u8],
) -> Result<Row, Refusal>
    requires { IsKey (Letter.Number code WIDTH) × Placed (length events.now) spot }
    ensures { (texts : List ℕ) (d : Depths) (s : List ℕ) → RowAt (marks_of true) (many_of (key_of texts big (Letter.Number code WIDTH) d)) events.now spot out.old out.new s s (run_in result) }
{
    let mut all = Wrote {
        next: spot.next,
        size: 0,
    };
    while 3 <= events.len() - all.next {
        if events[all.next] == CONTAINER_END {
            return Ok(Row {
                next: all.next,
                size: all.size,
                count: 0,
            });
        }
        let start = add(spot.start, all.size);
        let one = number(events, all.next, code, WIDTH, big, out, start)?;
        all.size = add(all.size, one.size);
        all.next = one.next;
    }
    Err(Refusal::NoValue)
}

// The same of a width that is one of four.
pub fn numbers(
    code: u8,
    width: usize,
    events: &[u64],
    big: bool,
    spot: Spot,
    out: &mut [u8],
) -> Result<Row, Refusal>
    requires { IsKey (Letter.Number code width) × Placed (length events.now) spot }
    ensures { (texts : List ℕ) (d : Depths) (s : List ℕ) → RowAt (marks_of true) (many_of (key_of texts big (Letter.Number code width) d)) events.now spot out.old out.new s s (run_in result) }
{
    match width {
        1 => run::<1>(code, events, big, spot, out),
        2 => run::<2>(code, events, big, spot, out),
        4 => run::<4>(code, events, big, spot, out),
        _ => run::<8>(code, events, big, spot, out),
    }
}

// A reading: nothing, or a number in a maybe.
fn reading(
    code: u8,
    width: usize,
    events: &[u64],
    i: usize,
    context: Context,
    out: &mut [u8],
    start: usize,
) -> Result<Wrote, Refusal>
    requires { (i ≤ length events.now) × (start ≤ cap) × IsKey (Letter.Number code width) }
    ensures { (texts : List ℕ) (top : ℕ) (s : List ℕ) → Done (reading_of texts context.big (Letter.Number code width) (depths_of context.depths) (drop i events.now)) events.now i start top out.old out.new s s (answer_in result) }
{
    if plain_at(events, i, NOTHING_LETTER) {
        return Ok(Wrote {
            next: i + 3,
            size: 0,
        });
    }
    if !plain_at(events, i, MAYBE_LETTER) {
        return Err(Refusal::NoValue);
    }
    context.depths.inc_maybe()?;
    number(events, i + 3, code, width, context.big, out, start)
}

// Readings one behind another, up to an event that closes.
pub fn readings(
    code: u8,
    width: usize,
    events: &[u64],
    context: Context,
    spot: Spot,
    out: &mut [u8],
    ends: &mut [u16],
) -> Result<Row, Refusal>
    requires { IsKey (Letter.Number code width) × Placed (length events.now) spot }
    ensures { (texts : List ℕ) → RowAt (marks_of false) (many_of (reading_of texts context.big (Letter.Number code width) (depths_of context.depths))) events.now spot out.old out.new ends.old ends.new (run_in result) }
{
    let mut row = Row {
        next: spot.next,
        size: 0,
        count: 0,
    };
    while 3 <= events.len() - row.next {
        if events[row.next] == CONTAINER_END {
            return Ok(row);
        }
        let padding = pad(out, spot.start + row.size, row.size, width);
        let start = add(spot.start, row.size + padding);
        let one = reading(code, width, events, row.next, context, out, start)?;
        row.size = add(row.size + padding, one.size);
        row.next = one.next;
        row.count = keep(out, ends, spot.top, row.count, row.size, false);
    }
    Err(Refusal::NoValue)
}
