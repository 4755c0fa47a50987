// Structures: fields that fill the body, then padding or a table of the smallest width with the ends that are asked for.
ghost use Rattle.std.specs.Prelude.{◌≡◌, ◌*◌, ◌≤◌, length};
ghost use Rattle.meaning.specs.Padding.{Aligns};
ghost use Rattle.meaning_writing.specs.Shapes.{offset_count};
ghost use Rattle.meaning_writing.specs.Strict.{test_shapes, fields_written};
ghost use Rattle.container_depths.specs.Opening.{depths_of};
ghost use Rattle.signature.specs.Places.{letter_at};
ghost use Rattle.signature.specs.Trees.{Rowed};
ghost use Rattle.strict_sizes.specs.Sizes.{Tabled};
ghost use Rattle.strict_sizes.specs.Items.{Placed, tree_test};
ghost use Rattle.strict_cycle.specs.Walks.{Inside, last_written, tests_at};

use crate::child;
use container_depths::ContainerDepths;
use signature::shapes::{Shape, shape_in};
use signature::{Letter, closes_at};
use strict_ends::{
    Extent, Rows, field_end, finished, last_end, offsets_left, rows_behind, start_of,
};
use strict_sizes::sizes::{extent_in, offsets_in};

#[cycle(testing)]
pub(crate) fn structure(
    text: &[u8],
    tables: &[u16],
    shape: Shape,
    part: &[u8],
    d: ContainerDepths,
) -> bool
    requires { Placed text.now tables.now shape × (letter_at text.now shape.at ≡ Letter.OpenStructure) × Inside (length part.now) d }
    ensures { result ≡ (tree_test d.variant text.now shape.at).accepts (depths_of d) part.now }
{
    let Ok(deeper) = d.inc_structure() else {
        return false;
    };
    let whole = extent_in(tables, shape);
    let Some(rows) = rows_behind(part.len(), offsets_in(tables, shape)) else {
        return false;
    };
    fields(text, tables, shape.at + 1, whole, part, rows, deeper)
}

// The fields of a structure. One that is neither fixed nor last takes its end from the back of the table. Each field says where the next
// stands, so a loop goes over them, and no range.
#[cycle(testing)]
pub(crate) fn fields(
    text: &[u8],
    tables: &[u16],
    at: usize,
    whole: Extent,
    part: &[u8],
    rows: Rows,
    d: ContainerDepths,
) -> bool
    requires { Rowed text.now at × Tabled text.now tables.now × Inside (length part.now) d × (rows.body ≤ length part.now) × Aligns whole.alignment × Aligns rows.width × (offset_count (test_shapes (tests_at text.now at d)) * rows.width ≤ length part.now) }
    ensures { result ≡ fields_written whole.fixed whole.alignment (depths_of d) part.now rows.body rows.width (tests_at text.now at d) 0 (length part.now) }
{
    let body = rows.body;
    let width = rows.width;
    let mut i = at;
    let mut place = 0;
    let mut end = part.len();
    loop {
        let field = shape_in(text, tables, i);
        if closes_at(text, field.next) {
            return last_field(text, tables, field, whole, part, body, place, d);
        }
        let extent = extent_in(tables, field);
        let stop = field_end(part, extent, width, end, place);
        let Some(from) = start_of(part, body, place, stop, extent.alignment) else {
            return false;
        };
        if !child(text, tables, field, &part[from..stop], d) {
            return false;
        }
        end = offsets_left(extent.fixed, width, end);
        place = stop;
        i = field.next;
    }
}

// The last field, and what stands behind it in the whole.
#[cycle(testing)]
pub(crate) fn last_field(
    text: &[u8],
    tables: &[u16],
    shape: Shape,
    whole: Extent,
    part: &[u8],
    body: usize,
    place: usize,
    d: ContainerDepths,
) -> bool
    requires { Placed text.now tables.now shape × Inside (length part.now) d × (place ≤ body) × (body ≤ length part.now) × Aligns whole.alignment }
    ensures { result ≡ last_written whole.fixed whole.alignment (tree_test d.variant text.now shape.at) (depths_of d) part.now body place }
{
    let extent = extent_in(tables, shape);
    let stop = last_end(extent, body, place);
    let Some(from) = start_of(part, body, place, stop, extent.alignment) else {
        return false;
    };
    child(text, tables, shape, &part[from..stop], d)
        && finished(part, whole.fixed, whole.alignment, stop, body)
}
