// Arrays of texts. A text holds nothing further.
ghost use Rattle.std.specs.Prelude.{◌+◌, ◌≤◌, length};
ghost use Rattle.meaning.specs.Depths.{Depths, none_open};
ghost use Rattle.meaning.specs.Reading.{child_step, read_text};
ghost use Rattle.meaning.specs.Limits.{largest_frame};
ghost use Rattle.reader_basic.specs.Answers.{From, counts_of};
ghost use Rattle.reader_basic.specs.Parts.{Tabled, elements_by};

use crate::elements::{Element, each};
use framing_offsets::OffsetTable;
use reader_basic::Reading;
use reader_basic::basic::text_value;

// A text of a kind, as an element.
#[derive(Clone, Copy)]
struct Text {
    code: u8,
}

impl Element for Text {
    ghost stands = { λ e len place. Unit {0} };

    ghost reader = { λ e. read_text e.code none_open };

    fn read(self, part: &[u8], place: usize, out: &mut [u64], n: usize) -> Reading {
        text_value(part, place, self.code, out, n)
    }
}

// Texts, each up to the end that the table gives; then the table.
pub fn texts(
    offsets: OffsetTable,
    part: &[u8],
    lead: usize,
    place: usize,
    code: u8,
    out: &mut [u64],
    n: usize,
) -> Reading
    requires { (place + length part.now ≤ largest_frame) × Tabled offsets part.now lead }
    ensures { (d : Depths) → From (elements_by (child_step (read_text code) d place part.now (lead + offsets.start)) offsets part.now lead) part.now lead n out.old out.new (counts_of result) }
{
    each(Text { code }, offsets, part, lead, place, out, n)
}
