// The strict test: is a frame the written form of a value of a type? The walk decides; only a frame that fails it is read, to tell what
// reading refuses from what reads and is no written form.
#![tactic(auto)]

ghost use Rattle.std.specs.Prelude.{◌≡◌, ◌≤◌, true, length};
ghost use Rattle.meaning.specs.Limits.{largest_frame};
ghost use Rattle.meaning.specs.Refused.{refusal_in};
ghost use Rattle.meaning_writing.specs.IsWritten.{written_refusal};
ghost use Rattle.signature.specs.Places.{is_type};
ghost use Rattle.strict_sizes.specs.Sizes.{Tabled};

use container_depths::ContainerDepths;
use meaning::limits::LARGEST_FRAME;
use meaning::refusals::Refusal;
use reader::size;
use signature::shapes::shape_in;
use strict_cycle::value;
use strict_sizes::sizes::{TABLE, tables_of};

// A frame that is no written form is refused for its type, for its length over 65,536 bytes, for what reading it at position 0 refuses, or as
// not written.
pub fn is_written(signature: &[u8], big: bool, frame: &[u8]) -> Result<(), Refusal>
    ensures { refusal_in result ≡ written_refusal signature.now big frame.now }
{
    let mut tables = [0u16; TABLE];
    if !tables_of(signature, &mut tables) {
        return Err(Refusal::TypeRefused);
    }
    if LARGEST_FRAME < frame.len() {
        return Err(Refusal::OverLimit);
    }
    is_written_by(signature, &tables, big, frame)
}

// The same by the table of a type, of a frame that is not over the limit.
pub fn is_written_by(
    signature: &[u8],
    tables: &[u16],
    big: bool,
    frame: &[u8],
) -> Result<(), Refusal>
    requires { (is_type signature.now ≡ true) × Tabled signature.now tables.now × (length frame.now ≤ largest_frame) }
    ensures { refusal_in result ≡ written_refusal signature.now big frame.now }
{
    let depths = ContainerDepths::new();
    let shape = shape_in(signature, tables, 0);
    let written = value(signature, tables, shape, frame, depths);
    if written {
        return Ok(());
    }
    match size(signature, big, 0, frame) {
        Err(refusal) => Err(refusal),
        Ok(_) => Err(Refusal::NotWritten),
    }
}
