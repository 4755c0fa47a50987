// Padding, parts, numbers and bools, read where they stand. Ports de.rs.
#![tactic(auto)]

ghost use Rattle.std.specs.Prelude.{◌≡◌, ◌+◌, ◌≤◌, leb, length, drop};
ghost use Rattle.meaning.specs.Padding.{leading_zeros};
ghost use Rattle.meaning.specs.Parts.{part_at};
ghost use Rattle.utils.specs.Checks.{checked};
ghost use Rattle.byte_order.specs.Standing.{number_at};
ghost use Rattle.framing_offset_size.specs.Widths.{width_of};
ghost use Rattle.de.specs.Parts.{padding_at, place_after, bool_at, bool_checked};

use byte_order::number_at;
use framing_offset_size::FramingOffsetSize;
use meaning::refusals::Refusal;
use utils::{padding_for_n_bytes, reaches};

// Whether so many bytes at a place are 0.
pub fn zeros(part: &[u8], place: usize, count: usize) -> bool
    requires { place + count ≤ length part.now }
    ensures { result ≡ leb count (leading_zeros (drop place part.now)) }
{
    for byte in &part[place..place + count] {
        if *byte != 0 {
            return false;
        }
    }
    true
}

// The padding that is due at a place, alignment counted from position plus place.
pub fn parse_padding(
    position: usize,
    place: usize,
    alignment: usize,
    part: &[u8],
) -> Result<usize, Refusal>
    ensures { checked result ≡ padding_at position place alignment part.now }
{
    if usize::MAX - position < place {
        return Err(Refusal::OutOfBounds);
    }
    let size = padding_for_n_bytes(position + place, alignment)?;
    if size == 0 {
        return Ok(0);
    }
    if !reaches(part, place, size) {
        return Err(Refusal::OutOfBounds);
    }
    if !zeros(part, place, size) {
        return Err(Refusal::PaddingNotZero);
    }
    Ok(size)
}

// The place after so many bytes.
pub fn next_place(part: &[u8], place: usize, len: usize) -> Result<usize, Refusal>
    ensures { checked result ≡ place_after part.now place len }
{
    if !reaches(part, place, len) {
        return Err(Refusal::OutOfBounds);
    }
    Ok(place + len)
}

// The bytes up to that place, none where it is refused.
pub fn next_slice(part: &[u8], place: usize, len: usize) -> &[u8]
    ensures { result.now ≡ part_at part.now place len }
{
    if reaches(part, place, len) {
        let end = place + len;
        return &part[place..end];
    }
    &part[..0]
}

pub fn read_number(
    part: &[u8],
    place: usize,
    size: FramingOffsetSize,
    big: bool,
) -> Result<usize, Refusal>
    ensures { checked result ≡ number_at (width_of size) big part.now place }
{
    number_at(part, place, size.width(), big)
}

// Any byte but 0 is true.
pub fn read_bool(part: &[u8], place: usize) -> Result<bool, Refusal>
    ensures { bool_checked result ≡ bool_at part.now place }
{
    if !reaches(part, place, 1) {
        return Err(Refusal::OutOfBounds);
    }
    Ok(part[place] != 0)
}
