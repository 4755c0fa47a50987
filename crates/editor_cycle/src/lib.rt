// The walk of the edit: functions that call each other as containers nest. It counts readings until it meets the one that is asked for, puts
// that at the front of the tail that it is lent, and on its way back puts what stands behind it, container after container outwards. Into a
// tail of no length nothing is put, and the walk only measures. Here: a value; each kind of container has a module.
// A type (text, tables), a place (part, place) and what is asked (number, aim) are passed one by one: a struct of more than two words is kept in
// memory, in the stack frame of each level of nesting, and the stack that a level takes is bounded.
#![tactic(auto)]

mod array;
mod dictionary;
mod maybe;
mod structure;
mod variant;

ghost use Rattle.container_depths.specs.Opening.{depths_of};
ghost use Rattle.strict_sizes.specs.Items.{Placed, tree_test};
ghost use Rattle.editor_steps.specs.Walks.{new_of, tree_editor, Walks, most, Ready};
ghost use Rattle.editor_steps.specs.Walked.{walked_as};

use crate::array::array;
use crate::maybe::maybe;
use crate::structure::structure;
use crate::variant::variant;
use container_depths::ContainerDepths;
use editor_steps::answers::{Aim, Walk};
use meaning::refusals::Refusal;
use signature::Letter;
use signature::shapes::Shape;

// A value that fills a part, which stands at a place of the frame.
#[cycle(editing)]
pub fn value(
    text: &[u8],
    tables: &[u16],
    shape: Shape,
    part: &[u8],
    place: usize,
    number: usize,
    aim: Aim,
    d: ContainerDepths,
    out: &mut [u8],
) -> Result<Walk, Refusal>
    requires { Placed text.now tables.now shape × Ready (tree_test d.variant text.now shape.at) d place part.now }
    ensures { Walks (tree_editor aim.big d.variant text.now shape.at) (depths_of d) place part.now number (new_of aim.new) (most d) out.old out.new (walked_as result) }
{
    match shape.kind {
        Letter::Maybe => maybe(text, tables, shape, part, place, number, aim, d, out),
        Letter::Array => array(text, tables, shape, part, place, number, aim, d, out),
        Letter::OpenStructure => structure(text, tables, shape, part, place, number, aim, d, out),
        Letter::Variant => variant(part, place, number, aim, d, out),
        _ => Ok(Walk::Counted(0)),
    }
}
