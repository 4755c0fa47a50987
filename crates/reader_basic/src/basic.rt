// Reading what holds nothing further: bools, numbers, texts, keys; and the small parts of containers.
ghost use Rattle.std.specs.Prelude.{◌≡◌, ℕ, ◌+◌, ◌-◌, ◌<◌, ◌≤◌, List, Bool, length, MatchOption};
ghost use Rattle.meaning.specs.Depths.{Depths};
ghost use Rattle.meaning.specs.Outcome.{Outcome, chain, closing_at};
ghost use Rattle.meaning.specs.Reading.{read_bool, read_number, read_text, separator as separator_of};
ghost use Rattle.meaning.specs.Padding.{Aligns};
ghost use Rattle.meaning.specs.Limits.{largest_frame};
ghost use Rattle.utils.specs.Checks.{checked};
ghost use Rattle.framing_offset_size.specs.Widths.{width_of};
ghost use Rattle.reader_basic.specs.Answers.{Done, Whole, counts_of};
ghost use Rattle.reader_basic.specs.Parts.{Inside, number_by, offset_answer};

use crate::{Context, Reading, done, or_stop};
use byte_order::{number as number_of, number_at};
use de::{parse_padding, read_bool};
use events::emit;
use framing_offset_size::FramingOffsetSize;
use framing_offsets::table::last_in;
use meaning::letters::{BOOL_LETTER, CONTAINER_END};
use meaning::refusals::Refusal;
use texts::{check, text};

// Closes a container that is done: its last event stands where reading stands.
pub fn close(mut reading: Reading, place: usize, out: &mut [u64]) -> Reading
    requires { place + (counts_of reading).used ≤ largest_frame }
    ensures { (o : Outcome) (end len n : ℕ) (l : List ℕ) → Done o end len n l out.old (counts_of reading) → Done (chain o (closing_at place)) end len n l out.new (counts_of result) }
{
    if let Ok(read) = &mut reading {
        read.count = emit(out, read.count, CONTAINER_END, place + read.used, 0);
    }
    reading
}

pub fn boolean(part: &[u8], place: usize, out: &mut [u64], n: usize) -> Reading
    ensures { (d : Depths) → Whole (read_bool d place part.now) part.now n out.old out.new (counts_of result) }
{
    let found = or_stop(read_bool(part, 0), 0, n)?;
    let count = emit(out, n, BOOL_LETTER, place, u64::from(found));
    done(1, count)
}

// A byte has no alignment and no order.
pub fn byte(part: &[u8], place: usize, code: u8, out: &mut [u64], n: usize) -> Reading
    ensures { (position : ℕ) (big : Bool) (d : Depths) → Whole (read_number position big code 1 d place part.now) part.now n out.old out.new (counts_of result) }
{
    let found = or_stop(number_of::<1>(part, 0, false), 0, n)?;
    let count = emit(out, n, u64::from(code), place, found as u64);
    done(1, count)
}

pub fn number(
    part: &[u8],
    place: usize,
    context: Context,
    code: u8,
    width: usize,
    out: &mut [u64],
    n: usize,
) -> Reading
    requires { Inside (length part.now) place context × Aligns width }
    ensures { (d : Depths) → Whole (number_by context code width d place part.now) part.now n out.old out.new (counts_of result) }
{
    let lead = or_stop(
        parse_padding(context.position + place, 0, width, part),
        0,
        n,
    )?;
    let cut = number_at(part, lead, width, context.big);
    let found = or_stop(cut, 0, n)?;
    let count = emit(out, n, u64::from(code), place + lead, found as u64);
    done(lead + width, count)
}

pub fn text_value(part: &[u8], place: usize, code: u8, out: &mut [u64], n: usize) -> Reading
    ensures { (d : Depths) → Whole (read_text code d place part.now) part.now n out.old out.new (counts_of result) }
{
    let letters = text(part);
    or_stop(check(letters), part.len(), n)?;
    let count = emit(out, n, u64::from(code), place, letters.len() as u64);
    done(part.len(), count)
}

// The offset before an end of a structure's table, over a part whose structure begins at lead.
pub fn offset_before(
    part: &[u8],
    lead: usize,
    size: FramingOffsetSize,
    end: usize,
) -> Result<usize, Refusal>
    requires { end ≤ length part.now }
    ensures { checked result ≡ offset_answer lead (width_of size) end part.now }
{
    if end < lead || end < size.width() {
        return Err(Refusal::OutOfBounds);
    }
    last_in(&part[lead..end], size)
}

// The last nul before the final byte of a part, by the number of bytes up to it, itself counted.
pub fn separator(part: &[u8]) -> Option<usize>
    ensures { MatchOption result (separator_of part.now ≡ 0) (λ s. (s ≡ separator_of part.now) × (0 < s) × (s ≤ length part.now - 1)) }
{
    for i in (1..part.len()).rev() {
        if part[i - 1] == 0 {
            return Some(i);
        }
    }
    None
}
