// A container from the end of its changed child on. Where no child was changed, the child's answer is handed on.
ghost use Rattle.std.specs.Prelude.{◌≡◌, true, ◌++◌, ◌+◌, ◌-◌, ◌≤◌, length};
ghost use Rattle.meaning.specs.Limits.{largest_frame};
ghost use Rattle.meaning.specs.Padding.{Aligns, zeros};
ghost use Rattle.editor_basic.specs.Elements.{behind_of, rest_now};
ghost use Rattle.editor_basic.specs.Rows.{last_now};
ghost use Rattle.editor_basic.specs.Puts.{rest_most, last_most};
ghost use Rattle.editor_steps.specs.Closing.{edits, Fits, end_now, front_of, Closes, Behind, FieldBehind, field_rest};
ghost use Rattle.editor_steps.specs.Walked.{walk_as};

use crate::answers::Walk;
use editor_basic::elements::{Elements, behind};
use editor_basic::fields::{Field, Row, behind_field};
use editor_basic::finisher::{finish_last, finish_structure};
use editor_basic::mover::{move_part, put_zeros};
use editor_basic::rewriter::finish_array;

// A maybe of what is not fixed: one 0.
pub fn close_maybe(walk: Walk, from: usize, out: &mut [u8]) -> Walk
    requires { edits (walk_as walk) ≡ true → Fits from 0 (walk_as walk) }
    ensures { Closes from 0 (zeros 1) 1 (walk_as walk) out.old out.new (walk_as result) }
{
    let Walk::Edited { place, length } = walk else {
        return walk;
    };
    put_zeros(out, length - (place - from), 1);
    Walk::Edited {
        place,
        length: length + 1,
    }
}

// A variant: a 0 and the text of its type.
pub fn close_variant(walk: Walk, from: usize, signature: &[u8], out: &mut [u8]) -> Walk
    requires { (edits (walk_as walk) ≡ true → Fits from 0 (walk_as walk)) × (length signature.now ≤ largest_frame) }
    ensures { Closes from 0 (zeros 1 ++ signature.now) 65537 (walk_as walk) out.old out.new (walk_as result) }
{
    let Walk::Edited { place, length } = walk else {
        return walk;
    };
    move_part(out, length - (place - from), 1, signature);
    Walk::Edited {
        place,
        length: length + 1 + signature.len(),
    }
}

// So many of an array's first elements.
fn first_of(all: Elements, count: usize) -> Elements
    ensures { result ≡ front_of all count }
{
    Elements { count, ..all }
}

// An array: the elements behind the first of the rest, which is the changed one and ended at a place, and the table.
pub fn close_element(
    walk: Walk,
    from: usize,
    start: usize,
    end: usize,
    part: &[u8],
    all: Elements,
    rest: Elements,
    out: &mut [u8],
) -> Walk
    requires { (edits (walk_as walk) ≡ true → Fits from start (walk_as walk)) × Behind all rest end part.now }
    ensures { Closes from start (rest_now (front_of all (all.count - rest.count)) (behind_of rest end) part.now (end_now start (walk_as walk))) rest_most (walk_as walk) out.old out.new (walk_as result) }
{
    let Walk::Edited { place, length } = walk else {
        return walk;
    };
    let to = start + length;
    let at = to - (place - from);
    let front = first_of(all, all.count - rest.count);
    let length = finish_array(part, front, behind(rest, end), out, at, to);
    Walk::Edited { place, length }
}

// A structure whose last field is the changed one, or a dictionary's entry: its offsets, which begin at a place.
pub fn close_last(
    walk: Walk,
    from: usize,
    start: usize,
    part: &[u8],
    end: usize,
    width: usize,
    out: &mut [u8],
) -> Walk
    requires { (edits (walk_as walk) ≡ true → Fits from start (walk_as walk)) × (end ≤ length part.now) × (length part.now ≤ largest_frame) × Aligns width }
    ensures { Closes from start (last_now end width part.now (end_now start (walk_as walk))) last_most (walk_as walk) out.old out.new (walk_as result) }
{
    let Walk::Edited { place, length } = walk else {
        return walk;
    };
    let to = start + length;
    let at = to - (place - from);
    let length = finish_last(part, end, width, out, at, to);
    Walk::Edited { place, length }
}

// A structure whose field is the changed one: the fields behind it, if any, and the offsets.
pub fn close_field(
    walk: Walk,
    from: usize,
    text: &[u8],
    tables: &[u16],
    part: &[u8],
    row: Row,
    field: Field,
    out: &mut [u8],
) -> Walk
    requires { (edits (walk_as walk) ≡ true → Fits from field.start (walk_as walk)) × FieldBehind text.now tables.now row field part.now }
    ensures { Closes from field.start (field_rest text.now row field part.now (end_now field.start (walk_as walk))) rest_most (walk_as walk) out.old out.new (walk_as result) }
{
    let start = field.start;
    if field.last {
        return close_last(walk, from, start, part, row.end, row.width, out);
    }
    let Walk::Edited { place, length } = walk else {
        return walk;
    };
    let to = start + length;
    let at = to - (place - from);
    let rest = behind_field(row, field);
    let length = finish_structure(text, tables, part, rest, out, at, to);
    Walk::Edited { place, length }
}
