// The calls as C sees them; include/bogtassel.h declares them.
#![tactic(auto)]

ghost use Rattle.std.specs.Prelude.{◌≡◌};
ghost use Rattle.std.specs.Result.{result_unwrap_or};
ghost use Rattle.meaning.specs.Calls.{counts, size as size_of, read as read_of, read_slice};
ghost use Rattle.meaning_writing.specs.Writing.{write_answer, write as write_of, write_slice};
ghost use Rattle.meaning_writing.specs.Editing.{edit_answer, edit as edit_of, edit_buffer};
ghost use Rattle.meaning_writing.specs.IsWritten.{written_refusal};
ghost use Rattle.meaning.specs.Refused.{refusal_in};
ghost use Rattle.reader.specs.Answers.{answer_of};
ghost use Rattle.editor_steps.specs.Walks.{new_of};
ghost use Rattle.editor.specs.News.{new_by};

use meaning::refusals::Refusal;
use reader::Answer;

// What was read, as C has it: through the lent numbers the bytes used and the number of events, zeros where it is refused; and the refusal.
fn hand_counts(answer: Result<Answer, Refusal>, used: &mut usize, count: &mut usize) -> u8
    ensures { counts result used.new count.new ≡ answer_of answer }
{
    match answer {
        Ok(read) => {
            *used = read.used;
            *count = read.count;
            0
        }
        Err(refusal) => {
            *used = 0;
            *count = 0;
            refusal.number()
        }
    }
}

// A frame's length, as C has it: through the lent number, zero where it is refused; and the refusal.
fn hand_length(answer: Result<usize, Refusal>, length: &mut usize) -> u8
    ensures refusal { result ≡ refusal_in answer }
    ensures length { length.new ≡ result_unwrap_or answer 0 }
{
    match answer {
        Ok(bytes) => {
            *length = bytes;
            0
        }
        Err(refusal) => {
            *length = 0;
            refusal.number()
        }
    }
}

// Sizes a reading: the refusal, and through the lent numbers the bytes used and the number of events.
#[unsafe(no_mangle)]
pub extern "C" fn bogtassel_size(
    signature: &[u8],
    big: bool,
    position: usize,
    frame: &[u8],
    used: &mut usize,
    count: &mut usize,
) -> u8
    ensures { counts result used.new count.new ≡ size_of signature.now big position frame.now }
{
    let answer = reader::size(signature, big, position, frame);
    hand_counts(answer, used, count)
}

// Reads a frame into a lent slice, three numbers for each event.
#[unsafe(no_mangle)]
pub extern "C" fn bogtassel_read(
    signature: &[u8],
    big: bool,
    position: usize,
    frame: &[u8],
    out: &mut [u64],
    used: &mut usize,
    count: &mut usize,
) -> u8
    ensures answer { counts result used.new count.new ≡ read_of signature.now big position frame.now out.old }
    ensures slice { out.new ≡ read_slice signature.now big position frame.now out.old }
{
    let answer = reader::read(signature, big, position, frame, out);
    hand_counts(answer, used, count)
}

// Writes the value that events spell into a lent slice: the refusal, and through the lent number the frame's length.
#[unsafe(no_mangle)]
pub extern "C" fn bogtassel_write(
    signature: &[u8],
    big: bool,
    events: &[u64],
    texts: &[u8],
    out: &mut [u8],
    length: &mut usize,
) -> u8
    ensures answer { write_answer result length.new ≡ write_of signature.now big events.now texts.now out.old }
    ensures slice { out.new ≡ write_slice signature.now big events.now texts.now out.old }
{
    let answer = writer::write(signature, big, events, texts, out);
    hand_length(answer, length)
}

// Whether a frame is a written form: 0 if it is.
#[unsafe(no_mangle)]
pub extern "C" fn bogtassel_is_written(signature: &[u8], big: bool, frame: &[u8]) -> u8
    ensures { result ≡ written_refusal signature.now big frame.now }
{
    match strict::is_written(signature, big, frame) {
        Ok(()) => 0,
        Err(refusal) => refusal.number(),
    }
}

// Edits a reading of the frame that is the used part of a lent buffer: it becomes the number whose bits are given, or nothing. The
// refusal, and through the lent number the new frame's length.
#[unsafe(no_mangle)]
pub extern "C" fn bogtassel_edit(
    signature: &[u8],
    big: bool,
    buffer: &mut [u8],
    used: usize,
    number: usize,
    present: bool,
    bits: usize,
    length: &mut usize,
) -> u8
    ensures answer { edit_answer result length.new ≡ edit_of signature.now big buffer.old used number (new_of (new_by present bits)) }
    ensures memory { buffer.new ≡ edit_buffer signature.now big buffer.old used number (new_of (new_by present bits)) }
{
    let new = editor::new_of(present, bits);
    let answer = editor::edit(signature, big, buffer, used, number, new);
    hand_length(answer, length)
}
