// The walk of the strict test: functions that call each other as containers nest. Here: a value, and a child; each kind of container has
// a module. What is repeated in a container is passed in a loop.
// A type (text, tables, shape) is passed piece by piece: a struct of more than two words is kept in memory, in the stack frame of each level of
// nesting, and the stack that a level takes is bounded.
#![tactic(auto)]

mod array;
mod dictionary;
mod maybe;
mod structure;
mod variant;

ghost use Rattle.std.specs.Prelude.{◌≡◌, length};
ghost use Rattle.container_depths.specs.Opening.{depths_of};
ghost use Rattle.strict_sizes.specs.Items.{Placed, tree_test};
ghost use Rattle.strict_cycle.specs.Walks.{Inside};

use crate::array::array;
use crate::maybe::maybe;
use crate::structure::structure;
use crate::variant::variant;
use container_depths::ContainerDepths;
use signature::Letter;
use signature::shapes::Shape;
use strict_basic::basic::{is_basic, letter_written};

// A value that fills a part.
#[cycle(testing)]
pub fn value(text: &[u8], tables: &[u16], shape: Shape, part: &[u8], d: ContainerDepths) -> bool
    requires { Placed text.now tables.now shape × Inside (length part.now) d }
    ensures { result ≡ (tree_test d.variant text.now shape.at).accepts (depths_of d) part.now }
{
    let kind = shape.kind;
    match kind {
        Letter::Maybe => maybe(text, tables, shape, part, d),
        Letter::Array => array(text, tables, shape, part, d),
        Letter::OpenStructure => structure(text, tables, shape, part, d),
        Letter::Variant => variant(part, d),
        _ => letter_written(kind, part),
    }
}

// A child that fills a part. One that holds no other goes by its letter alone, and `value` is spared.
#[cycle(testing)]
pub(crate) fn child(
    text: &[u8],
    tables: &[u16],
    shape: Shape,
    part: &[u8],
    d: ContainerDepths,
) -> bool
    requires { Placed text.now tables.now shape × Inside (length part.now) d }
    ensures { result ≡ (tree_test d.variant text.now shape.at).accepts (depths_of d) part.now }
{
    let kind = shape.kind;
    if is_basic(kind) {
        letter_written(kind, part)
    } else {
        value(text, tables, shape, part, d)
    }
}
