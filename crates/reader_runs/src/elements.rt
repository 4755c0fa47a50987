// Arrays whose elements hold nothing further, and are not fixed: one loop, whatever the elements are.
ghost use Rattle.std.specs.Prelude.{ℕ, ◌+◌, ◌-◌, ◌≤◌, List, length};
ghost use Rattle.meaning.specs.Outcome.{Outcome};
ghost use Rattle.meaning.specs.Reading.{child};
ghost use Rattle.meaning.specs.Limits.{largest_frame};
ghost use Rattle.reader_basic.specs.Answers.{Whole, From, Between, counts_of};
ghost use Rattle.reader_basic.specs.Parts.{Tabled, elements_by};

use framing_offsets::{OffsetTable, next};
use meaning::refusals::Refusal;
use reader_basic::{Answer, Reading, behind, done, refused};

// What is repeated: what it asks of a part of so many bytes at a place, and how one is read.
pub(crate) trait Element: Copy {
    ghost stands: { Self → ℕ → ℕ → Type 0 };

    ghost reader: { Self → ℕ → List ℕ → Outcome };

    fn read(self, part: &[u8], place: usize, out: &mut [u64], n: usize) -> Reading
        requires { stands self (length part.now) place }
        ensures { Whole (reader self place part.now) part.now n out.old out.new (counts_of result) };
}

// An element from j to e of an array's part.
fn child<E: Element>(
    element: E,
    part: &[u8],
    j: usize,
    e: usize,
    place: usize,
    out: &mut [u64],
    n: usize,
) -> Reading
    requires { (place + length part.now ≤ largest_frame) × (e ≤ length part.now) × (j ≤ e → E.stands element (e - j) (place + j)) }
    ensures { Between (child (E.reader element) place part.now j e) part.now j e n out.old out.new (counts_of result) }
{
    if e < j {
        return refused(Refusal::OutOfBounds, 0, n);
    }
    element.read(&part[j..e], place + j, out, n)
}

// Elements, each up to the end that the table gives; then the table.
pub(crate) fn each<E: Element>(
    element: E,
    offsets: OffsetTable,
    part: &[u8],
    lead: usize,
    place: usize,
    out: &mut [u64],
    n: usize,
) -> Reading
    requires { (place + length part.now ≤ largest_frame) × Tabled offsets part.now lead × ((j e : ℕ) → j ≤ e → e ≤ length part.now → E.stands element (e - j) (place + j)) }
    ensures { From (elements_by (child (E.reader element) place part.now) offsets part.now lead) part.now lead n out.old out.new (counts_of result) }
{
    let table = &part[lead..];
    let body_end = lead + offsets.start;
    let mut read = Answer { used: 0, count: n };
    for i in 0..offsets.count {
        let end = lead + next(table, offsets, i).unwrap_or(0);
        let r = child(element, part, lead + read.used, end, place, out, read.count);
        read = behind(read.used, r)?;
    }
    done(read.used + (part.len() - body_end), read.count)
}
