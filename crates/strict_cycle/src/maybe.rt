// Maybes: no byte for nothing, else the child and, where that is not fixed, a zero.
ghost use Rattle.std.specs.Prelude.{◌≡◌, length};
ghost use Rattle.container_depths.specs.Opening.{depths_of};
ghost use Rattle.signature.specs.Places.{letter_at};
ghost use Rattle.strict_sizes.specs.Items.{Placed, tree_test};
ghost use Rattle.strict_cycle.specs.Walks.{Inside};

use crate::{child, value};
use container_depths::ContainerDepths;
use signature::Letter;
use signature::shapes::{Shape, shape_in};

#[cycle(testing)]
pub(crate) fn maybe(
    text: &[u8],
    tables: &[u16],
    shape: Shape,
    part: &[u8],
    d: ContainerDepths,
) -> bool
    requires { Placed text.now tables.now shape × (letter_at text.now shape.at ≡ Letter.Maybe) × Inside (length part.now) d }
    ensures { result ≡ (tree_test d.variant text.now shape.at).accepts (depths_of d) part.now }
{
    if part.len() == 0 {
        return true;
    }
    let Ok(deeper) = d.inc_maybe() else {
        return false;
    };
    let held = shape_in(text, tables, shape.at + 1);
    if held.fixed {
        return child(text, tables, held, part, deeper);
    }
    let end = part.len() - 1;
    part[end] == 0 && value(text, tables, held, &part[..end], deeper)
}
