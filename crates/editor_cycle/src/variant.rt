// Variants: the value that holds the reading, and its type behind it.
ghost use Rattle.container_depths.specs.Opening.{depths_of};
ghost use Rattle.strict_sizes.specs.Items.{Placed, tree_test};
ghost use Rattle.editor_steps.specs.Walks.{new_of, tree_editor, Walks, most, Ready, variant_test, variant_editor};
ghost use Rattle.editor_steps.specs.Walked.{walked_as};

use crate::value;
use container_depths::ContainerDepths;
use editor_steps::answers::{Aim, Walk};
use editor_steps::closing::close_variant;
use meaning::refusals::Refusal;
use reader_basic::basic::separator;
use signature::Letter;
use signature::shapes::{Shape, shape_in};
use strict_sizes::sizes::{TABLE, tables_of};

// A variant: its type stands at its end, behind a nul.
#[cycle(editing)]
pub(crate) fn variant(
    part: &[u8],
    place: usize,
    number: usize,
    aim: Aim,
    d: ContainerDepths,
    out: &mut [u8],
) -> Result<Walk, Refusal>
    requires { Ready (variant_test d) d place part.now }
    ensures { Walks (variant_editor aim.big d) (depths_of d) place part.now number (new_of aim.new) (most d) out.old out.new (walked_as result) }
{
    let Some(s) = separator(part) else {
        return Ok(Walk::Counted(0));
    };
    let deeper = d.inc_variant()?;
    let end = s - 1;
    let signature = &part[s..];
    let mut tables = [0u16; TABLE];
    if !tables_of(signature, &mut tables) {
        return Ok(Walk::Counted(0));
    }
    let shape = shape_in(signature, &tables, 0);
    let held = &part[..end];
    let walk = held_value(
        signature, &tables, shape, held, place, number, aim, deeper, out,
    )?;
    Ok(close_variant(walk, place, signature, out))
}

// The value in a variant. Another variant is walked at once, not by way of `value`: so each level of variants in one another keeps one stack frame.
#[cycle(editing)]
#[inline(always)]
fn held_value(
    text: &[u8],
    tables: &[u16],
    shape: Shape,
    part: &[u8],
    place: usize,
    number: usize,
    aim: Aim,
    d: ContainerDepths,
    out: &mut [u8],
) -> Result<Walk, Refusal>
    requires { Placed text.now tables.now shape × Ready (tree_test d.variant text.now shape.at) d place part.now }
    ensures { Walks (tree_editor aim.big d.variant text.now shape.at) (depths_of d) place part.now number (new_of aim.new) (most d) out.old out.new (walked_as result) }
{
    match shape.kind {
        Letter::Variant => variant(part, place, number, aim, d, out),
        _ => value(text, tables, shape, part, place, number, aim, d, out),
    }
}
