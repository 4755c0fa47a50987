// Where an entry's key ends.
ghost use Rattle.std.specs.Prelude.{◌≡◌, ◌≤◌, length};
ghost use Rattle.meaning.specs.Limits.{largest_frame};
ghost use Rattle.reader_steps.specs.Children.{key_ends, ends_in};

use crate::ends::Ends;
use framing_offset_size::FramingOffsetSize;
use framing_offsets::table::last_in;
use meaning::refusals::Refusal;

// Where the text key of an entry from j to e ends; the body ends at b.
pub fn key_ends(part: &[u8], b: usize, j: usize, e: usize) -> Result<Ends, Refusal>
    requires { (e ≤ b) × (b ≤ length part.now) × (length part.now ≤ largest_frame) }
    ensures { ends_in result ≡ key_ends part.now b j e }
{
    if e < j {
        return Err(Refusal::OutOfBounds);
    }
    let size = FramingOffsetSize::for_encoded_container(e - j);
    let length = last_in(&part[j..e], size).unwrap_or(0);
    if b - j < length {
        return Err(Refusal::OutOfBounds);
    }
    Ok(Ends {
        child: j + length,
        width: size.width(),
    })
}
