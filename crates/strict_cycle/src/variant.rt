// Variants: a value, a nul, and the text of its type.
ghost use Rattle.std.specs.Prelude.{◌≡◌, length};
ghost use Rattle.strict_cycle.specs.Walks.{Inside, variant_accepts};

use crate::value;
use container_depths::ContainerDepths;
use reader_basic::basic::separator;
use signature::shapes::shape_in;
use strict_basic::basic::{letter_written, lone_basic, lone_variant};
use strict_sizes::sizes::{TABLE, tables_of};

// A variant: its type stands at its end, behind a nul. One that is a single letter needs no table.
#[cycle(testing)]
pub(crate) fn variant(part: &[u8], d: ContainerDepths) -> bool
    requires { Inside (length part.now) d }
    ensures { result ≡ variant_accepts d part.now }
{
    let Some(s) = separator(part) else {
        return false;
    };
    let Ok(deeper) = d.inc_variant() else {
        return false;
    };
    let end = s - 1;
    let signature = &part[s..];
    if let Some(kind) = lone_basic(signature) {
        return letter_written(kind, &part[..end]);
    }
    if lone_variant(signature) {
        return variant(&part[..end], deeper);
    }
    let mut tables = [0u16; TABLE];
    if !tables_of(signature, &mut tables) {
        return false;
    }
    let shape = shape_in(signature, &tables, 0);
    value(signature, &tables, shape, &part[..end], deeper)
}
