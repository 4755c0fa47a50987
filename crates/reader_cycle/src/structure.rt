// Structures. Ports StructureDeserializer of gvariant/de.rs.
ghost use Rattle.std.specs.Prelude.{◌≡◌, ◌≤◌, length};
ghost use Rattle.signature.specs.Places.{letter_at};
ghost use Rattle.signature.specs.Trees.{tree_at};
ghost use Rattle.reader_basic.specs.Answers.{From, counts_of};
ghost use Rattle.reader_basic.specs.Parts.{Inside};
ghost use Rattle.reader_steps.specs.Places.{inside_of, DescribedAt};
ghost use Rattle.reader_steps.specs.Rides.{context_of};

use crate::value;
use events::emit;
use meaning::letters::STRUCTURE_LETTER;
use reader_basic::basic::close;
use reader_basic::{Answer, Reading, behind, or_stop};
use reader_steps::opening::in_structure;
use reader_steps::structure::{close_fields, field_ends};
use signature::Letter;
use signature::shapes::next_of;

// A structure, in one function with the loop over all its fields but the last. A field that is neither fixed nor last takes its end from the
// back of the table.
#[cycle(reading)]
pub(crate) fn structure(
    text: &[u8],
    shapes: &[u16; 255],
    at: usize,
    part: &[u8],
    lead: usize,
    place: usize,
    ride: usize,
    out: &mut [u64],
    n: usize,
) -> Reading
    requires { DescribedAt text.now shapes.now at × (letter_at text.now at ≡ Letter.OpenStructure) × Inside (length part.now) place (context_of ride) × (lead ≤ length part.now) }
    ensures { From (inside_of (context_of ride) (tree_at text.now at) place part.now lead) part.now lead n out.old out.new (counts_of result) }
{
    let deeper = or_stop(in_structure(ride), 0, n)?;
    let count = emit(out, n, STRUCTURE_LETTER, place + lead, 0);
    let mut read = Answer { used: 0, count };
    let mut i = at + 1;
    let mut end = part.len();
    while text[next_of(shapes[i])] != b')' {
        let field = shapes[i];
        let found = field_ends(part, lead, field, end);
        let ends = or_stop(found, read.used, read.count)?;
        let j = lead + read.used;
        let e = ends.child;
        let m = read.count;
        let r = value(text, shapes, i, part, j, e, place, deeper, out, m);
        read = behind(read.used, r)?;
        end -= ends.width;
        i = next_of(field);
    }
    let j = lead + read.used;
    let m = read.count;
    let r = value(text, shapes, i, part, j, end, place, deeper, out, m);
    let s = close_fields(shapes[at], part, j, end, place, deeper, r);
    let all = behind(read.used, s);
    close(all, place + lead, out)
}
