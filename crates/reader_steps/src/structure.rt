// Where a structure's fields end, and what stands behind the last.
ghost use Rattle.std.specs.Prelude.{◌≡◌, ◌+◌, ◌-◌, ◌%◌, ◌≤◌, true, length, nat_le};
ghost use Rattle.meaning.specs.Limits.{largest_frame};
ghost use Rattle.meaning.specs.Offsets.{encoded_width};
ghost use Rattle.meaning.specs.Padding.{Aligns};
ghost use Rattle.reader_basic.specs.Answers.{counts_of};
ghost use Rattle.reader_steps.specs.Children.{field_ends, ends_in};
ghost use Rattle.reader_steps.specs.Closing.{ClosesFields};
ghost use Rattle.reader_steps.specs.Rides.{context_of};

use crate::ends::{Ends, end_padded, past};
use framing_offset_size::FramingOffsetSize;
use meaning::refusals::Refusal;
use reader_basic::Reading;
use reader_basic::basic::offset_before;
use signature::shapes::fixed_of;

// Where a field that is not the last ends, in a structure that begins at lead and whose table reaches to an end.
pub fn field_ends(part: &[u8], lead: usize, field: u16, end: usize) -> Result<Ends, Refusal>
    requires { (lead ≤ length part.now) × (end ≤ length part.now) × (length part.now ≤ largest_frame) }
    ensures { ends_in result ≡ field_ends lead (encoded_width (length part.now - lead)) (nat_le 16 (field % 32)) end part.now }
{
    if fixed_of(field) {
        return Ok(Ends {
            child: end,
            width: 0,
        });
    }
    let size = FramingOffsetSize::for_encoded_container(part.len() - lead);
    let offset = offset_before(part, lead, size, end)?;
    Ok(Ends {
        child: lead + offset,
        width: size.width(),
    })
}

// The end of a structure whose last field, from j to an end, was read: padding where it is fixed, else the table.
#[inline(always)]
pub fn close_fields(
    shape: u16,
    part: &[u8],
    j: usize,
    end: usize,
    place: usize,
    ride: usize,
    r: Reading,
) -> Reading
    requires { (place + length part.now ≤ largest_frame) × ((context_of ride).position ≤ largest_frame) × Aligns (shape % 16) × (j + (counts_of r).used ≤ length part.now) × (end ≤ length part.now) × (nat_le 16 (shape % 32) ≡ true → end ≡ length part.now) }
    ensures { ClosesFields (context_of ride).position shape part.now j end place (counts_of r) (counts_of result) }
{
    if fixed_of(shape) {
        end_padded(part, j, place, ride, shape, r)
    } else {
        past(r, part.len() - end)
    }
}
