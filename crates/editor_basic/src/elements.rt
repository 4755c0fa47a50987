// Where the elements of an array stand whose ends are in its table, one after another.
ghost use Rattle.std.specs.Prelude.{◌≡◌, ◌+◌, ◌<◌, length};
ghost use Rattle.meaning.specs.Offsets.{written_width};
ghost use Rattle.meaning.specs.Padding.{Aligns, padding};
ghost use Rattle.meaning.specs.Written.{layout};
ghost use Rattle.framing_offset_size.specs.Widths.{width_of};
ghost use Rattle.editor_basic.specs.Elements.{elements_in, behind_of, Standing, FirstOf};

use framing_offset_size::FramingOffsetSize;
use strict_ends::offset_at;

// The elements from one of them on: their alignment, how wide their offsets are, how many they are, where their offsets begin, and where
// the one before them ended.
#[derive(Clone, Copy)]
pub struct Elements {
    pub alignment: usize,
    pub size: FramingOffsetSize,
    pub count: usize,
    pub from: usize,
    pub place: usize,
}

// Where a child begins behind its padding, and where it ends.
#[derive(Clone, Copy)]
pub struct Child {
    pub start: usize,
    pub end: usize,
}

// The padding that is due at a place: the lowest bits of its negation. Each element is asked for it twice, so no alignment is tested again here.
pub(crate) fn due(place: usize, alignment: usize) -> usize
    requires { Aligns alignment }
    ensures { (result ≡ padding place alignment) × (result < 8) }
{
    place.wrapping_neg() & (alignment - 1)
}

// The width of the offsets of a body.
pub(crate) fn width_for(body: usize, count: usize) -> FramingOffsetSize
    ensures { width_of result ≡ written_width body count }
{
    FramingOffsetSize::for_bare_container(body, count).unwrap_or(FramingOffsetSize::U64)
}

// The first of some elements.
pub fn first_element(part: &[u8], elements: Elements) -> Child
    requires { Standing elements part.now × (0 < elements.count) }
    ensures { FirstOf elements part.now result }
{
    let place = elements.place;
    let start = place + due(place, elements.alignment);
    let end = offset_at(part, elements.from, elements.size.width());
    Child { start, end }
}

// Where elements end that are laid out from where they stood: at the last one's end.
pub(crate) fn end_of(part: &[u8], elements: Elements) -> usize
    requires { Standing elements part.now }
    ensures { result ≡ elements.place + length (layout elements.place (elements_in elements part.now)) }
{
    let count = elements.count;
    if count == 0 {
        return elements.place;
    }
    let width = elements.size.width();
    offset_at(part, elements.from + (count - 1) * width, width)
}

// Those behind the first, which ends at a place.
pub fn behind(elements: Elements, end: usize) -> Elements
    requires { (0 < elements.count) × (elements.from + width_of elements.size < 1000000) }
    ensures { result ≡ behind_of elements end }
{
    Elements {
        count: elements.count - 1,
        from: elements.from + elements.size.width(),
        place: end,
        ..elements
    }
}
