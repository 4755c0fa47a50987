// The widths of framing offsets. Offsets are little-endian in either byte order. Ports framing_offset_size.rs.
#![tactic(auto)]

ghost use Rattle.std.specs.Prelude.{◌≡◌, false, ◌+◌, ◌*◌, ◌/◌, leb};
ghost use Rattle.meaning.specs.Offsets.{largest, encoded_width};
ghost use Rattle.meaning.specs.Refused.{refusal_in};
ghost use Rattle.utils.specs.Checks.{checked};
ghost use Rattle.byte_order.specs.Standing.{number_at};
ghost use Rattle.framing_offset_size.specs.Widths.{width_of, bumped, Fitted, write_refusal, buffer_after, last_offset_in};

use byte_order::number;
use meaning::refusals::Refusal;

#[derive(Clone, Copy, Debug, PartialEq, Eq)]
pub enum FramingOffsetSize {
    U8,
    U16,
    U32,
    U64,
}

impl FramingOffsetSize {
    pub fn width(self) -> usize
        ensures { result ≡ width_of self }
    {
        match self {
            FramingOffsetSize::U8 => 1,
            FramingOffsetSize::U16 => 2,
            FramingOffsetSize::U32 => 4,
            FramingOffsetSize::U64 => 8,
        }
    }

    // How many offsets of this width a length holds.
    pub fn count_in(self, len: usize) -> usize
        ensures { result ≡ len / width_of self }
    {
        match self {
            FramingOffsetSize::U8 => len,
            FramingOffsetSize::U16 => len / 2,
            FramingOffsetSize::U32 => len / 4,
            FramingOffsetSize::U64 => len / 8,
        }
    }

    pub fn max(self) -> usize
        ensures { result ≡ largest (width_of self) }
    {
        match self {
            FramingOffsetSize::U8 => 255,
            FramingOffsetSize::U16 => 65535,
            FramingOffsetSize::U32 => 4294967295,
            FramingOffsetSize::U64 => 18446744073709551615,
        }
    }

    // The next width, none behind the last.
    pub fn bump_up(self) -> Option<Self>
        ensures { result ≡ bumped self }
    {
        match self {
            FramingOffsetSize::U8 => Some(FramingOffsetSize::U16),
            FramingOffsetSize::U16 => Some(FramingOffsetSize::U32),
            FramingOffsetSize::U32 => Some(FramingOffsetSize::U64),
            FramingOffsetSize::U64 => None,
        }
    }

    // Whether this width holds the length of a body with so many offsets of this width.
    fn holds(self, len: usize, count: usize) -> bool
        ensures { result ≡ leb (len + count * width_of self) (largest (width_of self)) }
    {
        let most = self.max();
        len <= most && count <= self.count_in(most - len)
    }

    // The smallest width that fits a body and its offsets, if any does.
    pub fn for_bare_container(len: usize, count: usize) -> Option<Self>
        ensures { Fitted len count result }
    {
        let mut size = FramingOffsetSize::U8;
        loop {
            if size.holds(len, count) {
                return Some(size);
            }
            size = size.bump_up()?;
        }
    }

    pub fn for_encoded_container(len: usize) -> Self
        ensures { width_of result ≡ encoded_width len }
    {
        if len <= FramingOffsetSize::U8.max() {
            return FramingOffsetSize::U8;
        }
        if len <= FramingOffsetSize::U16.max() {
            return FramingOffsetSize::U16;
        }
        if len <= FramingOffsetSize::U32.max() {
            return FramingOffsetSize::U32;
        }
        FramingOffsetSize::U64
    }

    // The low bytes of an offset at the front of a buffer, the lowest first.
    pub fn write_offset(self, buffer: &mut [u8], offset: usize) -> Result<(), Refusal>
        ensures refusal { refusal_in result ≡ write_refusal (width_of self) buffer.old }
        ensures bytes { buffer.new ≡ buffer_after (width_of self) offset buffer.old }
    {
        let width = self.width();
        if buffer.len() < width {
            return Err(Refusal::RoomTooSmall);
        }
        let mut rest = offset;
        for i in 0..width {
            buffer[i] = (rest % 256) as u8;
            rest /= 256;
        }
        Ok(())
    }

    // The offset of this width that stands at a place.
    pub fn offset_at(self, part: &[u8], place: usize) -> Result<usize, Refusal>
        ensures { checked result ≡ number_at (width_of self) false part.now place }
    {
        match self {
            FramingOffsetSize::U8 => number::<1>(part, place, false),
            FramingOffsetSize::U16 => number::<2>(part, place, false),
            FramingOffsetSize::U32 => number::<4>(part, place, false),
            FramingOffsetSize::U64 => number::<8>(part, place, false),
        }
    }

    pub fn read_last_offset_from_buffer(self, buffer: &[u8]) -> Result<usize, Refusal>
        ensures { checked result ≡ last_offset_in (width_of self) buffer.now }
    {
        if buffer.is_empty() {
            return Ok(0);
        }
        let width = self.width();
        if buffer.len() < width {
            return Err(Refusal::OutOfBounds);
        }
        self.offset_at(buffer, buffer.len() - width)
    }
}
