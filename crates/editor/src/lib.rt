// Editing a reading in a frame: `edit`. The strict test goes first; `editor_change` has what follows in a frame that passes it.
#![tactic(auto)]

ghost use Rattle.std.specs.Prelude.{◌≡◌};
ghost use Rattle.meaning_writing.specs.Editing.{edit as edit_of, edit_buffer};
ghost use Rattle.editor_steps.specs.Walks.{new_of};
ghost use Rattle.editor_change.specs.Answers.{answer_of};
ghost use Rattle.editor.specs.News.{new_by};

use editor_change::edit_written;
use editor_steps::answers::Aim;
use meaning::limits::LARGEST_FRAME;
use meaning::refusals::Refusal;
use strict::is_written_by;
use strict_sizes::sizes::{TABLE, tables_of};

// Puts a reading of the frame that is the used part of the buffer as nothing or as a number, and answers the new frame's length. Readings are the maybes of
// b y n q i u x t d, counted from 0 in reading order.
pub fn edit(
    signature: &[u8],
    big: bool,
    buffer: &mut [u8],
    used: usize,
    number: usize,
    new: Option<usize>,
) -> Result<usize, Refusal>
    ensures answer { answer_of result ≡ edit_of signature.now big buffer.old used number (new_of new) }
    ensures memory { buffer.new ≡ edit_buffer signature.now big buffer.old used number (new_of new) }
{
    let mut tables = [0u16; TABLE];
    if !tables_of(signature, &mut tables) {
        return Err(Refusal::TypeRefused);
    }
    if LARGEST_FRAME < used || buffer.len() < used {
        return Err(Refusal::OverLimit);
    }
    match is_written_by(signature, &tables, big, &buffer[..used]) {
        Err(refusal) => Err(refusal),
        Ok(_) => edit_written(signature, &tables, buffer, used, number, Aim { big, new }),
    }
}

// What a reading becomes: a number as its bits where one is present, and else nothing.
pub fn new_of(present: bool, bits: usize) -> Option<usize>
    ensures { result ≡ new_by present bits }
{
    present.then_some(bits)
}
