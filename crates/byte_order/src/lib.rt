// The number of a width that stands at a place, in either byte order: the first byte is the highest where `big` says so.
#![tactic(auto)]

ghost use Rattle.std.specs.Prelude.{◌≡◌, ◌<◌};
ghost use Rattle.meaning.specs.Numbers.{next_byte};
ghost use Rattle.utils.specs.Checks.{checked};
ghost use Rattle.byte_order.specs.Standing.{number_by, number_of};

use meaning::refusals::Refusal;
use utils::reaches;

// The byte that comes next of a number, from the highest down.
fn next_byte(width: usize, i: usize, big: bool) -> usize
    requires { i < width }
    ensures { result ≡ next_byte big width i }
{
    if big { i } else { width - 1 - i }
}

// Of a width that is known where it is called; one of more than eight bytes is refused. Taken from the highest byte down.
pub fn number<const WIDTH: usize>(part: &[u8], place: usize, big: bool) -> Result<usize, Refusal>
    ensures { checked result ≡ number_by WIDTH big part.now place }
{
    if 8 < WIDTH {
        return Err(Refusal::NoValue);
    }
    if !reaches(part, place, WIDTH) {
        return Err(Refusal::OutOfBounds);
    }
    let mut number = 0;
    for i in 0..WIDTH {
        let next = next_byte(WIDTH, i, big);
        number = 256 * number + part[place + next] as usize;
    }
    Ok(number)
}

// Of any width: one that is not 1, 2, 4 or 8 is refused.
pub fn number_at(part: &[u8], place: usize, width: usize, big: bool) -> Result<usize, Refusal>
    ensures { checked result ≡ number_of width big part.now place }
{
    match width {
        1 => number::<1>(part, place, big),
        2 => number::<2>(part, place, big),
        4 => number::<4>(part, place, big),
        8 => number::<8>(part, place, big),
        _ => Err(Refusal::NoValue),
    }
}
