// Writing a frame: `write`. A walk over the events judges, measures and stores, into an output of its own; a frame that fits there is
// copied, and for a longer one the same walk stores it where it belongs. So a refusal leaves the output as it was, and each walk looks
// at each event once. A type's shapes are found once a call.
#![tactic(auto)]

ghost use Rattle.std.specs.Prelude.{◌≡◌, true, ◌≤◌, length};
ghost use Rattle.meaning.specs.Limits.{largest_frame};
ghost use Rattle.meaning.specs.Refused.{refusal_in};
ghost use Rattle.meaning_writing.specs.Writing.{write as write_of, write_slice};
ghost use Rattle.signature.specs.Places.{is_type};
ghost use Rattle.signature.specs.Shapes.{Shaped};
ghost use Rattle.writer_basic.specs.Wrote.{done, answer_in};
ghost use Rattle.writer.specs.Answers.{answer_of, frame_of, WroteFrame, Judged};

use container_depths::ContainerDepths;
use meaning::limits::{LARGEST_FRAME, LONGEST_TYPE};
use meaning::refusals::Refusal;
use signature::shapes::shape_in;
use signature_table::shapes_of;
use writer_basic::{Context, Spot, Wrote};
use writer_cycle::value;
use writer_store::copy_all;

// Writes the value that the events spell at the front of the output, where all is well and there is room for it. An event is three
// numbers: kind, place, payload; place and payload of a text are where it stands among the texts, and its length. Answers the frame's length.
pub fn write(
    signature: &[u8],
    big: bool,
    events: &[u64],
    texts: &[u8],
    out: &mut [u8],
) -> Result<usize, Refusal>
    ensures answer { answer_of result ≡ write_of signature.now big events.now texts.now out.old }
    ensures slice { out.new ≡ write_slice signature.now big events.now texts.now out.old }
{
    let mut shapes = [0u16; LONGEST_TYPE];
    if !shapes_of(signature, &mut shapes) {
        return Err(Refusal::TypeRefused);
    }
    if in_one_walk(events.len(), texts.len()) {
        let mut held = [0u8; 2048];
        return write_by_walks(signature, &shapes, big, events, texts, &mut held, out);
    }
    let mut none = [0u8; 0];
    write_by_walks(signature, &shapes, big, events, texts, &mut none, out)
}

// Whether a value is written in one walk: one of few events and short texts, whose frame is likely to be short enough to hold.
fn in_one_walk(numbers: usize, texts: usize) -> bool {
    numbers <= 3072 && texts <= 2048
}

// Writes a value by a walk into a slice that is held, which may have no length, and by another where the frame is longer than that.
fn write_by_walks(
    signature: &[u8],
    shapes: &[u16],
    big: bool,
    events: &[u64],
    texts: &[u8],
    held: &mut [u8],
    out: &mut [u8],
) -> Result<usize, Refusal>
    requires { (is_type signature.now ≡ true) × Shaped signature.now shapes.now × (length held.old ≤ largest_frame) }
    ensures answer { answer_of result ≡ write_of signature.now big events.now texts.now out.old }
    ensures slice { out.new ≡ write_slice signature.now big events.now texts.now out.old }
{
    let walk = whole(signature, shapes, big, events, texts, held);
    let walked = walk?;
    judge(walked, events.len(), out.len())?;
    let length = walked.size;
    if held.len() < length {
        let _ = whole(signature, shapes, big, events, texts, &mut out[..length]);
        return Ok(length);
    }
    copy_all(out, 0, &held[..length]);
    Ok(length)
}

// What a walk over so many numbers that is done is refused for all the same, where the output has so much room.
fn judge(walked: Wrote, numbers: usize, room: usize) -> Result<(), Refusal>
    ensures { Judged (done walked) numbers room (refusal_in result) }
{
    if walked.next < numbers {
        return Err(Refusal::NoValue);
    }
    if LARGEST_FRAME < walked.size {
        return Err(Refusal::OverLimit);
    }
    if room < walked.size {
        return Err(Refusal::RoomTooSmall);
    }
    Ok(())
}

// One walk, by the type's shapes, into an output that need not have room.
fn whole(
    signature: &[u8],
    shapes: &[u16],
    big: bool,
    events: &[u64],
    texts: &[u8],
    out: &mut [u8],
) -> Result<Wrote, Refusal>
    requires { (is_type signature.now ≡ true) × Shaped signature.now shapes.now }
    ensures { WroteFrame (frame_of signature.now big events.now texts.now) events.now out.old out.new (answer_in result) }
{
    let mut ends = [0u16; 128];
    let depths = ContainerDepths::new();
    let context = Context { big, depths };
    let shape = shape_in(signature, shapes, 0);
    let front = Spot {
        next: 0,
        start: 0,
        top: 0,
    };
    value(
        signature, shapes, shape, events, texts, context, front, out, &mut ends,
    )
}
