// What an array repeats: the kind of its first event, and whether it is fixed. And an array of no bytes.
ghost use Rattle.std.specs.Prelude.{◌≡◌, ℕ, [], ◌==◌};
ghost use Rattle.meaning.specs.Choice.{pick};
ghost use Rattle.meaning.specs.Letters.{array_letter, dictionary_letter};
ghost use Rattle.meaning.specs.Outcome as outcome;
ghost use Rattle.reader_basic.specs.Answers.{Done, counts_of};
ghost use Rattle.reader_steps.specs.Places.{item_of, Repeated};

use crate::codes::is_fixed;
use events::emit;
use meaning::letters::{ARRAY_LETTER, CONTAINER_END, DICTIONARY_LETTER};
use reader_basic::{Reading, done};
use signature::shapes::fixed_of;

// The kind of an array's first event, or of a dictionary's, by the character behind its own.
pub fn kind_by(code: u8) -> u64
    ensures { result ≡ pick (code == 123) dictionary_letter array_letter }
{
    if code == b'{' {
        DICTIONARY_LETTER
    } else {
        ARRAY_LETTER
    }
}

// Whether what is repeated is fixed: an element, or an entry, of a key and a value.
pub fn repeats_fixed(text: &[u8], shapes: &[u16; 255], at: usize) -> bool
    requires { Repeated text.now shapes.now (item_of text.now shapes.now at) }
    ensures { result ≡ (item_of text.now shapes.now at).fixed }
{
    if text[at + 1] == b'{' {
        is_fixed(text[at + 2]) && fixed_of(shapes[at + 3])
    } else {
        fixed_of(shapes[at + 1])
    }
}

// An array, or a dictionary, of no bytes: its first event and its last.
pub fn empty(kind: u64, place: usize, out: &mut [u64], n: usize) -> Reading
    ensures { (end len : ℕ) → Done (outcome.enclosed kind place (outcome.done 0 [])) end len n out.old out.new (counts_of result) }
{
    let m = emit(out, n, kind, place, 0);
    let count = emit(out, m, CONTAINER_END, place, 0);
    done(0, count)
}
