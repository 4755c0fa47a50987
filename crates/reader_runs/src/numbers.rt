// Arrays of numbers, and of readings: numbers in maybes. What they repeat holds nothing further, so each is one loop of its own.
ghost use Rattle.std.specs.Prelude.{◌≡◌, ℕ, ◌+◌, ◌≤◌, ◌<◌, length};
ghost use Rattle.meaning.specs.Depths.{Depths};
ghost use Rattle.meaning.specs.Reading.{child_step, elements as elements_in};
ghost use Rattle.meaning.specs.Padding.{Aligns};
ghost use Rattle.meaning.specs.Limits.{largest_frame};
ghost use Rattle.byte_order.specs.Standing.{number_at};
ghost use Rattle.container_depths.specs.Opening.{depths_of};
ghost use Rattle.utils.specs.Checks.{checked};
ghost use Rattle.reader_basic.specs.Answers.{Whole, From, counts_of};
ghost use Rattle.reader_basic.specs.Parts.{Inside, number_by, reading_by, Tabled, elements_by};
ghost use Rattle.reader_runs.specs.Runs.{counted_of, numbers_from};

use crate::elements::{Element, each};
use byte_order::{number as number_of, number_at};
use de::parse_padding;
use events::emit;
use framing_offsets::OffsetTable;
use meaning::letters::{MAYBE_LETTER, NOTHING_LETTER};
use meaning::refusals::Refusal;
use reader_basic::basic::number;
use reader_basic::{Context, Reading, behind, done, or_stop, refused};

// Numbers of a width in so many bytes, from event n on: counted, and not read.
fn counted(left: usize, width: usize, n: usize) -> Reading
    requires { 0 < width }
    ensures { counts_of result ≡ counted_of left width n }
{
    let over = left % width;
    let count = n.saturating_add(left / width);
    if over != 0 {
        return refused(Refusal::OutOfBounds, left - over, count);
    }
    done(left, count)
}

// Numbers that need no padding, from j to the part's end: all are counted, and those read whose events have room.
fn run<const WIDTH: usize>(
    part: &[u8],
    j: usize,
    place: usize,
    big: bool,
    code: u8,
    out: &mut [u64],
    n: usize,
) -> Reading
    requires { (place + length part.now ≤ largest_frame) × (j ≤ length part.now) × Aligns WIDTH }
    ensures { From (numbers_from big code WIDTH place part.now j) part.now j n out.old out.new (counts_of result) }
{
    let len = part.len();
    let kind = u64::from(code);
    let mut at = j;
    let mut count = n;
    // No range: each turn goes on by a width, as long as there is room too.
    while count < out.len() / 3 && at < len && WIDTH <= len - at {
        let found = number_of::<WIDTH>(part, at, big).unwrap_or(0);
        count = emit(out, count, kind, place + at, found as u64);
        at += WIDTH;
    }
    counted(len - j, WIDTH, n)
}

// The same of a width that is one of four.
fn run_of(
    part: &[u8],
    j: usize,
    place: usize,
    big: bool,
    code: u8,
    width: usize,
    out: &mut [u64],
    n: usize,
) -> Reading
    requires { (place + length part.now ≤ largest_frame) × (j ≤ length part.now) × Aligns width }
    ensures { From (numbers_from big code width place part.now j) part.now j n out.old out.new (counts_of result) }
{
    match width {
        1 => run::<1>(part, j, place, big, code, out, n),
        2 => run::<2>(part, j, place, big, code, out, n),
        4 => run::<4>(part, j, place, big, code, out, n),
        _ => run::<8>(part, j, place, big, code, out, n),
    }
}

// Numbers one behind another to the part's end. Behind the first none needs padding.
pub fn numbers(
    part: &[u8],
    lead: usize,
    place: usize,
    context: Context,
    code: u8,
    width: usize,
    out: &mut [u64],
    n: usize,
) -> Reading
    requires { Inside (length part.now) place context × (lead ≤ length part.now) × Aligns width }
    ensures { (d : Depths) (b : ℕ) → From (elements_in (length part.now) (child_step (number_by context code width) d place part.now b) (length part.now) lead) part.now lead n out.old out.new (counts_of result) }
{
    if part.len() <= lead {
        return done(0, n);
    }
    let first = number(&part[lead..], place + lead, context, code, width, out, n)?;
    let r = run_of(
        part,
        lead + first.used,
        place,
        context.big,
        code,
        width,
        out,
        first.count,
    );
    behind(first.used, r)
}

// The number of a reading. The wall's readings have two bytes.
fn reading_number(part: &[u8], place: usize, big: bool, width: usize) -> Result<usize, Refusal>
    ensures { Aligns width → checked result ≡ number_at width big part.now place }
{
    if width == 2 {
        number_of::<2>(part, place, big)
    } else {
        number_at(part, place, width, big)
    }
}

// A reading. Where it is present, one more container is open. Put in place at each width, so that no element asks what its width is.
#[inline(always)]
fn reading(
    part: &[u8],
    place: usize,
    context: Context,
    code: u8,
    width: usize,
    out: &mut [u64],
    n: usize,
) -> Reading
    requires { Inside (length part.now) place context × Aligns width }
    ensures { Whole (reading_by context code width (depths_of context.depths) place part.now) part.now n out.old out.new (counts_of result) }
{
    let padding = parse_padding(context.position + place, 0, width, part);
    let lead = or_stop(padding, 0, n)?;
    if part.len() <= lead {
        let count = emit(out, n, NOTHING_LETTER, place + lead, 0);
        return done(lead, count);
    }
    or_stop(context.depths.inc_maybe(), lead, n)?;
    let m = emit(out, n, MAYBE_LETTER, place + lead, 0);
    let cut = reading_number(part, lead, context.big, width);
    let found = or_stop(cut, lead, m)?;
    let count = emit(out, m, u64::from(code), place + lead, found as u64);
    done(lead + width, count)
}

// A number of a width that is known where it is called, in a maybe, as an element.
#[derive(Clone, Copy)]
struct InMaybe<const WIDTH: usize> {
    context: Context,
    code: u8,
}

impl<const WIDTH: usize> Element for InMaybe<WIDTH> {
    ghost stands = { λ e len place. Inside len place e.context × Aligns WIDTH };

    ghost reader = { λ e. reading_by e.context e.code WIDTH (depths_of e.context.depths) };

    fn read(self, part: &[u8], place: usize, out: &mut [u64], n: usize) -> Reading {
        reading(part, place, self.context, self.code, WIDTH, out, n)
    }
}

// Readings, each up to the end that the table gives; then the table.
pub fn readings(
    offsets: OffsetTable,
    part: &[u8],
    lead: usize,
    place: usize,
    context: Context,
    code: u8,
    width: usize,
    out: &mut [u64],
    n: usize,
) -> Reading
    requires { Inside (length part.now) place context × Tabled offsets part.now lead × Aligns width }
    ensures { From (elements_by (child_step (reading_by context code width) (depths_of context.depths) place part.now (lead + offsets.start)) offsets part.now lead) part.now lead n out.old out.new (counts_of result) }
{
    match width {
        1 => each(
            InMaybe::<1> { context, code },
            offsets,
            part,
            lead,
            place,
            out,
            n,
        ),
        2 => each(
            InMaybe::<2> { context, code },
            offsets,
            part,
            lead,
            place,
            out,
            n,
        ),
        4 => each(
            InMaybe::<4> { context, code },
            offsets,
            part,
            lead,
            place,
            out,
            n,
        ),
        _ => each(
            InMaybe::<8> { context, code },
            offsets,
            part,
            lead,
            place,
            out,
            n,
        ),
    }
}
