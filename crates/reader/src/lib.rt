// Reading a frame: `size` and `read`; and the text of an event. A type's shapes are found once a call.
#![tactic(auto)]

ghost use Rattle.std.specs.Prelude.{◌≡◌, true};
ghost use Rattle.meaning.specs.Calls.{frame_reading, size as size_of, read as read_of, read_slice};
ghost use Rattle.signature.specs.Places.{is_type};
ghost use Rattle.signature.specs.Shapes.{Shaped};
ghost use Rattle.reader_basic.specs.Answers.{Whole, counts_of};
ghost use Rattle.reader.specs.Answers.{answer_of};

pub use events::event_text;
use meaning::limits::{LARGEST_FRAME, LONGEST_TYPE};
use meaning::refusals::Refusal;
pub use reader_basic::Answer;
use reader_basic::{Reading, refused};
use reader_cycle::value;
use reader_steps::ride::ride_of;
use signature_table::shapes_of;

// Sizes a reading: the answer of `read` into a slice with room enough.
pub fn size(signature: &[u8], big: bool, position: usize, frame: &[u8]) -> Result<Answer, Refusal>
    ensures { answer_of result ≡ size_of signature.now big position frame.now }
{
    let mut shapes = [0u16; LONGEST_TYPE];
    if !shapes_of(signature, &mut shapes) {
        return Err(Refusal::TypeRefused);
    }
    sized(signature, &shapes, big, position, frame)
}

// Reads a frame of a type at a position into a lent slice, three numbers for each event.
pub fn read(
    signature: &[u8],
    big: bool,
    position: usize,
    frame: &[u8],
    out: &mut [u64],
) -> Result<Answer, Refusal>
    ensures answer { answer_of result ≡ read_of signature.now big position frame.now out.old }
    ensures slice { out.new ≡ read_slice signature.now big position frame.now out.old }
{
    let mut shapes = [0u16; LONGEST_TYPE];
    if !shapes_of(signature, &mut shapes) {
        return Err(Refusal::TypeRefused);
    }
    if in_one_walk(signature, frame.len()) {
        return read_once(signature, &shapes, big, position, frame, out);
    }
    read_twice(signature, &shapes, big, position, frame, out)
}

// Whether a type has more than a number, a text, or an array of these, which are judged or counted faster than held.
fn is_walked(signature: &[u8]) -> bool {
    let length = signature.len();
    2 < length || 0 < length && signature[length - 1] == b'v'
}

// Whether a frame is read in one walk: one of middling length, or a short one of a type that nests, whose events are likely to be few enough to
// hold.
fn in_one_walk(signature: &[u8], length: usize) -> bool {
    match length {
        0..=63 => 8 <= signature.len(),
        64..=768 => is_walked(signature),
        _ => false,
    }
}

// Reads a frame by one walk, whose events are held until all is read; by a second walk where they are too many to hold.
fn read_once(
    signature: &[u8],
    shapes: &[u16; 255],
    big: bool,
    position: usize,
    frame: &[u8],
    out: &mut [u64],
) -> Result<Answer, Refusal>
    requires { (is_type signature.now ≡ true) × Shaped signature.now shapes.now }
    ensures answer { answer_of result ≡ read_of signature.now big position frame.now out.old }
    ensures slice { out.new ≡ read_slice signature.now big position frame.now out.old }
{
    // Room for 640 events; filled by a number that is not all zeros, which the compiler does in place.
    let mut held = [1u64; 1920];
    let walked = whole(signature, shapes, big, position, frame, &mut held)?;
    if out.len() / 3 < walked.count {
        return Err(Refusal::RoomTooSmall);
    }
    if 640 < walked.count {
        return Ok(whole(signature, shapes, big, position, frame, out)?);
    }
    let filled = 3 * walked.count;
    out[..filled].copy_from_slice(&held[..filled]);
    Ok(walked)
}

// Reads a frame by two walks: one to size it, and one into the slice.
fn read_twice(
    signature: &[u8],
    shapes: &[u16; 255],
    big: bool,
    position: usize,
    frame: &[u8],
    out: &mut [u64],
) -> Result<Answer, Refusal>
    requires { (is_type signature.now ≡ true) × Shaped signature.now shapes.now }
    ensures answer { answer_of result ≡ read_of signature.now big position frame.now out.old }
    ensures slice { out.new ≡ read_slice signature.now big position frame.now out.old }
{
    let sizing = sized(signature, shapes, big, position, frame);
    let size = sizing?;
    if out.len() / 3 < size.count {
        return Err(Refusal::RoomTooSmall);
    }
    Ok(whole(signature, shapes, big, position, frame, out)?)
}

// The size of a frame of a type, by the type's shapes: the same walk, into a slice of no length.
fn sized(
    signature: &[u8],
    shapes: &[u16; 255],
    big: bool,
    position: usize,
    frame: &[u8],
) -> Result<Answer, Refusal>
    requires { (is_type signature.now ≡ true) × Shaped signature.now shapes.now }
    ensures { answer_of result ≡ size_of signature.now big position frame.now }
{
    let mut none = [0u64; 0];
    Ok(whole(signature, shapes, big, position, frame, &mut none)?)
}

// A whole frame of a type, by the type's shapes, with no regard to room.
fn whole(
    signature: &[u8],
    shapes: &[u16; 255],
    big: bool,
    position: usize,
    frame: &[u8],
    out: &mut [u64],
) -> Reading
    requires { (is_type signature.now ≡ true) × Shaped signature.now shapes.now }
    ensures { Whole (frame_reading signature.now big position frame.now) frame.now 0 out.old out.new (counts_of result) }
{
    if LARGEST_FRAME < frame.len() || LARGEST_FRAME < position {
        return refused(Refusal::OverLimit, 0, 0);
    }
    let ride = ride_of(position, big);
    let len = frame.len();
    value(signature, shapes, 0, frame, 0, len, 0, ride, out, 0)
}
