// The small readers: what stands below the readers that call each other. Here: their answer, and what rides along.
#![tactic(auto)]

pub mod basic;

ghost use Rattle.std.specs.Prelude.{◌≡◌, ◌+◌, ◌≤◌, MatchResult};
ghost use Rattle.meaning.specs.Calls.{counts};
ghost use Rattle.meaning.specs.Limits.{largest_number};
ghost use Rattle.reader_basic.specs.Answers.{counts_of, StopsAt};

use container_depths::ContainerDepths;
use meaning::refusals::Refusal;

// What was read: the bytes used, and the number of events.
#[derive(Clone, Copy)]
pub struct Answer {
    pub used: usize,
    pub count: usize,
}

// Where reading stopped: behind so many bytes, the number of events, and why. The two numbers stand where an answer has them, so that a reading is
// changed in place.
#[derive(Clone, Copy)]
pub struct Stop {
    pub used: usize,
    pub count: usize,
    pub refusal: Refusal,
}

pub type Reading = Result<Answer, Stop>;

// Who asks only why gets the refusal alone.
impl From<Stop> for Refusal {
    ghost from_gives = { λ stop refusal. refusal ≡ stop.refusal };

    fn from(stop: Stop) -> Refusal {
        stop.refusal
    }
}

// What rides along: the position of the frame, its byte order, and how many containers are open.
#[derive(Clone, Copy)]
pub struct Context {
    pub position: usize,
    pub big: bool,
    pub depths: ContainerDepths,
}

// So many bytes were read, and so many events there are then.
pub fn done(used: usize, count: usize) -> Reading
    ensures { result ≡ Ok (record { used = used; count = count }) }
{
    Ok(Answer { used, count })
}

// A refusal, behind so many bytes and events.
pub fn refused(refusal: Refusal, used: usize, count: usize) -> Reading
    ensures { result ≡ Err (record { refusal = refusal; used = used; count = count }) }
{
    Err(Stop {
        refusal,
        used,
        count,
    })
}

// What was found, where a refusal stops the reading behind so many bytes and events.
pub fn or_stop<T>(found: Result<T, Refusal>, used: usize, count: usize) -> Result<T, Stop>
    ensures { MatchResult result (λ x. found ≡ Ok x) (StopsAt found used count) }
{
    found.map_err(|refusal| Stop {
        refusal,
        used,
        count,
    })
}

// The answer of what stands behind so many bytes.
pub fn behind(used: usize, mut reading: Reading) -> Reading
    requires { used + (counts_of reading).used ≤ largest_number }
    ensures { counts_of result ≡ counts (counts_of reading).refusal (used + (counts_of reading).used) (counts_of reading).count }
{
    match &mut reading {
        Ok(answer) => answer.used += used,
        Err(stop) => stop.used += used,
    }
    reading
}
