// A variant's type, and its value where that is one basic letter; and what stands behind a value.
ghost use Rattle.std.specs.Prelude.{◌+◌, ◌≤◌, [], ◌∷◌, length, IfSome};
ghost use Rattle.meaning.specs.Limits.{largest_frame};
ghost use Rattle.meaning.specs.Letters.{variant_letter, signature_letter};
ghost use Rattle.meaning.specs.Events.{opening};
ghost use Rattle.meaning.specs.Texts.{without_final_nul};
ghost use Rattle.meaning.specs.Outcome.{after};
ghost use Rattle.meaning.specs.Reading.{text_as};
ghost use Rattle.signature.specs.Places.{letter_of};
ghost use Rattle.reader_basic.specs.Answers.{Done, From, counts_of};
ghost use Rattle.reader_basic.specs.Parts.{Inside};
ghost use Rattle.reader_steps.specs.Places.{inside_of, variant_tree};
ghost use Rattle.reader_steps.specs.Children.{OnlyBasic, HoldsBasic};
ghost use Rattle.reader_steps.specs.Closing.{ClosesVariant};
ghost use Rattle.reader_steps.specs.Rides.{context_of};

use crate::codes::{is_fixed, is_text, leaf};
use crate::opening::in_variant;
use events::emit;
use meaning::letters::{CONTAINER_END, SIGNATURE_LETTER, VARIANT_LETTER};
use reader_basic::{Reading, done, or_stop};
use texts::{check, text};

// The character of a type text that has one alone, of a basic type.
pub fn only_basic(text: &[u8]) -> Option<u8>
    ensures { IfSome result (OnlyBasic text.now) }
{
    if text.len() != 1 {
        return None;
    }
    let code = text[0];
    (is_fixed(code) || is_text(code)).then_some(code)
}

// A variant whose type, at `from`, is one basic letter: it holds nothing further, and needs no table of shapes.
pub fn basic_variant(
    kind: u8,
    part: &[u8],
    lead: usize,
    from: usize,
    place: usize,
    ride: usize,
    out: &mut [u64],
    n: usize,
) -> Reading
    requires { Inside (length part.now) place (context_of ride) × HoldsBasic part.now lead from (letter_of kind) }
    ensures { From (inside_of (context_of ride) variant_tree place part.now lead) part.now lead n out.old out.new (counts_of result) }
{
    let m = emit(out, n, VARIANT_LETTER, place + lead, 0);
    let g = emit(out, m, SIGNATURE_LETTER, place + from, 1);
    let deeper = or_stop(in_variant(ride), 0, g)?;
    let stop = from - 1;
    let r = leaf(kind, &part[lead..stop], place + lead, deeper, out, g);
    close_variant(r, part, lead, place, out)
}

// The event of a variant, and that of its type's text, which is judged before its type is.
pub fn type_text(signature: &[u8], at: usize, from: usize, out: &mut [u64], n: usize) -> Reading
    ensures { Done (after 0 (opening variant_letter at ∷ []) (text_as signature_letter from (without_final_nul signature.now))) 0 0 n out.old out.new (counts_of result) }
{
    let m = emit(out, n, VARIANT_LETTER, at, 0);
    let letters = text(signature);
    or_stop(check(letters), 0, m)?;
    let g = emit(out, m, SIGNATURE_LETTER, from, letters.len() as u64);
    done(0, g)
}

// Closes a variant that is done: all of it is used.
pub fn close_variant(r: Reading, part: &[u8], lead: usize, place: usize, out: &mut [u64]) -> Reading
    requires { (place + length part.now ≤ largest_frame) × (lead ≤ length part.now) }
    ensures { ClosesVariant part.now lead place out.old out.new (counts_of r) (counts_of result) }
{
    let read = r?;
    let m = emit(out, read.count, CONTAINER_END, place + part.len(), 0);
    done(part.len() - lead, m)
}
