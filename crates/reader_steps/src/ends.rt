// Where a child ends by an offset, and what is passed behind it; padding.
ghost use Rattle.std.specs.Prelude.{◌≡◌, ◌+◌, ◌%◌, ◌≤◌, length};
ghost use Rattle.meaning.specs.Limits.{largest_frame, largest_number};
ghost use Rattle.meaning.specs.Padding.{Aligns};
ghost use Rattle.de.specs.Parts.{padding_at};
ghost use Rattle.utils.specs.Checks.{checked};
ghost use Rattle.reader_basic.specs.Answers.{counts_of};
ghost use Rattle.reader_steps.specs.Closing.{Passes, EndsPadded};
ghost use Rattle.reader_steps.specs.Rides.{context_of};

use de::zeros;
use meaning::refusals::Refusal;
use reader_basic::{Answer, Reading, behind, or_stop};
use signature::shapes::alignment_of;

// Where a child ends by an offset, and the offset's width.
#[derive(Clone, Copy)]
pub struct Ends {
    pub child: usize,
    pub width: usize,
}

// The answer with so many more bytes passed behind it, if it is done.
pub fn past(mut reading: Reading, more: usize) -> Reading
    requires { (counts_of reading).used + more ≤ largest_number }
    ensures { Passes more (counts_of reading) (counts_of result) }
{
    if let Ok(read) = &mut reading {
        read.used += more;
    }
    reading
}

// How far a reading came, done or not.
fn reached(reading: Reading) -> Answer
    ensures { (result.used ≡ (counts_of reading).used) × (result.count ≡ (counts_of reading).count) }
{
    match reading {
        Ok(read) => read,
        Err(stop) => Answer {
            used: stop.used,
            count: stop.count,
        },
    }
}

// The padding that is due at a place of a part, by the shape of what stands there. A number that rides along has the position in its lowest
// bits, so the bits that an alignment asks for are its own.
pub fn padded(
    part: &[u8],
    j: usize,
    place: usize,
    ride: usize,
    shape: u16,
) -> Result<usize, Refusal>
    requires { ((context_of ride).position ≤ largest_frame) × (place + length part.now ≤ largest_frame) × (j ≤ length part.now) × Aligns (shape % 16) }
    ensures { checked result ≡ padding_at ((context_of ride).position + place) j (shape % 16) part.now }
{
    let alignment = alignment_of(shape);
    let stands = ride.wrapping_add(place + j);
    let due = stands.wrapping_neg() & (alignment - 1);
    if due == 0 {
        return Ok(0);
    }
    if part.len() - j < due {
        return Err(Refusal::OutOfBounds);
    }
    if !zeros(part, j, due) {
        return Err(Refusal::PaddingNotZero);
    }
    Ok(due)
}

// The padding at the end of what is fixed, by its shape, judged from where it stands, whatever came of its last child.
pub fn end_padded(
    part: &[u8],
    j: usize,
    place: usize,
    ride: usize,
    shape: u16,
    r: Reading,
) -> Reading
    requires { (place + length part.now ≤ largest_frame) × ((context_of ride).position ≤ largest_frame) × (j + (counts_of r).used ≤ length part.now) × Aligns (shape % 16) }
    ensures { EndsPadded (context_of ride).position (shape % 16) part.now j place (counts_of r) (counts_of result) }
{
    let so_far = reached(r);
    let padding = padded(part, j + so_far.used, place, ride, shape);
    let due = or_stop(padding, so_far.used, so_far.count)?;
    behind(due, r)
}
