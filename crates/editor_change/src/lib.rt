// The edit of a frame that is a written form. One walk finds the reading, judges what it is put as, and measures the new frame, over an
// output of no length; so a refusal leaves the buffer as it was. Then the same walk stores, over the buffer's tail from the reading on,
// and what is left of a longer old frame becomes zeros.
#![tactic(auto)]

ghost use Rattle.std.specs.Prelude.{◌≡◌, ◌≤◌, length as length_of};
ghost use Rattle.meaning_writing.specs.Editing.{length_refusal};
ghost use Rattle.meaning.specs.Limits.{largest_frame};
ghost use Rattle.meaning.specs.Refused.{refusal_in};
ghost use Rattle.editor_steps.specs.Walks.{new_of};
ghost use Rattle.editor_steps.specs.Walked.{walked_as};
ghost use Rattle.editor_change.specs.Answers.{Edits, WrittenFrame, Held, WalksFrame, Changing, Storing};

use container_depths::ContainerDepths;
use editor_basic::mover::{put_part, put_zeros};
use editor_cycle::value;
use editor_steps::answers::{Aim, Walk};
use meaning::limits::LARGEST_FRAME;
use meaning::refusals::Refusal;
use signature::shapes::shape_in;

// The most bytes of a frame that is kept in an array of each size: the larger it is, the longer it takes to lay out.
const SMALLEST: usize = 128;

const SMALL: usize = 1024;

const MIDDLE: usize = 8192;

// A reading that was found: its number and what it becomes; where it stands, and how long the new frame is.
#[derive(Clone, Copy)]
pub(crate) struct Target {
    number: usize,
    aim: Aim,
    place: usize,
    length: usize,
}

// An edit of a frame that is a written form.
pub fn edit_written(
    signature: &[u8],
    tables: &[u16],
    buffer: &mut [u8],
    used: usize,
    number: usize,
    aim: Aim,
) -> Result<usize, Refusal>
    requires { Held signature.now tables.now buffer.old used }
    ensures { Edits signature.now buffer.old used number aim buffer.new result }
{
    let mut none = [0u8; 0];
    let walk = whole(signature, tables, &buffer[..used], number, aim, &mut none)?;
    let Walk::Edited { place, length } = walk else {
        return Err(Refusal::NoSuchReading);
    };
    let target = Target {
        number,
        aim,
        place,
        length,
    };
    change(signature, tables, buffer, used, target)
}

// A new frame over the limit, and then over the buffer.
fn check_length(length: usize, room: usize) -> Result<(), Refusal>
    ensures { refusal_in result ≡ length_refusal length room }
{
    if LARGEST_FRAME < length {
        return Err(Refusal::OverLimit);
    }
    if room < length {
        return Err(Refusal::RoomTooSmall);
    }
    Ok(())
}

// An edit of a reading that was found, and may become what is asked.
fn change(
    signature: &[u8],
    tables: &[u16],
    buffer: &mut [u8],
    used: usize,
    target: Target,
) -> Result<usize, Refusal>
    requires { Changing signature.now tables.now buffer.old used target }
    ensures { Edits signature.now buffer.old used target.number target.aim buffer.new result }
{
    check_length(target.length, buffer.len())?;
    if used <= SMALLEST {
        let mut old = [0u8; SMALLEST];
        return store(signature, tables, &mut old, buffer, used, target);
    }
    if used <= SMALL {
        return change_within::<SMALL>(signature, tables, buffer, used, target);
    }
    if used <= MIDDLE {
        return change_within::<MIDDLE>(signature, tables, buffer, used, target);
    }
    change_within::<LARGEST_FRAME>(signature, tables, buffer, used, target)
}

// Where there is room: the old frame is kept in an array of its own. Each size but the smallest has a stack frame of its own, so that they do not
// add up.
#[inline(never)]
fn change_within<const SIZE: usize>(
    signature: &[u8],
    tables: &[u16],
    buffer: &mut [u8],
    used: usize,
    target: Target,
) -> Result<usize, Refusal>
    requires { (used ≤ SIZE) × (SIZE ≤ largest_frame) × Storing signature.now tables.now buffer.old used target }
    ensures { Edits signature.now buffer.old used target.number target.aim buffer.new result }
{
    let mut old = [0u8; SIZE];
    store(signature, tables, &mut old, buffer, used, target)
}

// The new frame's bytes from the reading's place on, from a copy of the old ones; and zeros behind a shorter frame.
#[inline(always)]
fn store(
    signature: &[u8],
    tables: &[u16],
    old: &mut [u8],
    buffer: &mut [u8],
    used: usize,
    target: Target,
) -> Result<usize, Refusal>
    requires { (used ≤ length_of old.old) × Storing signature.now tables.now buffer.old used target }
    ensures { Edits signature.now buffer.old used target.number target.aim buffer.new result }
{
    let length = target.length;
    put_part(old, 0, &buffer[..used]);
    whole(
        signature,
        tables,
        &old[..used],
        target.number,
        target.aim,
        &mut buffer[target.place..],
    )?;
    if length < used {
        let behind = used - length;
        put_zeros(&mut buffer[length..], 0, behind);
    }
    Ok(length)
}

// One walk over a frame that is a written form, by its type's table. The output is the buffer's tail from the reading on, or has no
// length.
fn whole(
    signature: &[u8],
    tables: &[u16],
    frame: &[u8],
    number: usize,
    aim: Aim,
    out: &mut [u8],
) -> Result<Walk, Refusal>
    requires { WrittenFrame signature.now tables.now frame.now }
    ensures { WalksFrame signature.now aim.big frame.now number (new_of aim.new) out.old out.new (walked_as result) }
{
    let depths = ContainerDepths::new();
    let shape = shape_in(signature, tables, 0);
    value(signature, tables, shape, frame, 0, number, aim, depths, out)
}
