// The byte behind a maybe that is not fixed.
ghost use Rattle.std.specs.Prelude.{◌≡◌, ◌-◌, ◌<◌, ◌≤◌, length};
ghost use Rattle.meaning.specs.Limits.{largest_frame};
ghost use Rattle.reader_basic.specs.Answers.{counts_of};
ghost use Rattle.reader_steps.specs.Closing.{EndsInZero};

use meaning::refusals::Refusal;
use reader_basic::{Reading, done, refused};

// The byte where a maybe's child stopped must be 0.
pub fn end_byte(part: &[u8], lead: usize, reading: Reading) -> Reading
    requires { (lead < length part.now) × (length part.now ≤ largest_frame) × ((counts_of reading).used ≤ length part.now - lead) × ((counts_of reading).refusal ≡ 0 → (counts_of reading).used ≤ length part.now - 1 - lead) }
    ensures { EndsInZero part.now lead (counts_of reading) (counts_of result) }
{
    let read = reading?;
    if part[lead + read.used] != 0 {
        return refused(Refusal::MaybeEndNotZero, read.used, read.count);
    }
    done(read.used + 1, read.count)
}
