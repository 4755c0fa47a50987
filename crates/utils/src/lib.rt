// Whether bytes stand at a place, and padding to an alignment. Ports utils.rs.
#![tactic(auto)]

ghost use Rattle.std.specs.Prelude.{◌≡◌};
ghost use Rattle.meaning.specs.Padding.{is_alignment};
ghost use Rattle.meaning.specs.Parts.{holds};
ghost use Rattle.utils.specs.Checks.{checked, padding_for};

use meaning::refusals::Refusal;

// Whether so many bytes stand at a place.
pub fn reaches(part: &[u8], place: usize, len: usize) -> bool
    ensures { result ≡ holds part.now place len }
{
    place <= part.len() && len <= part.len() - place
}

#[tactic(auto, using(crate::proofs::Masks::alignment_not), unfolding(meaning::specs::Padding::is_alignment))]
fn is_alignment(align: usize) -> bool
    ensures { result ≡ is_alignment align }
{
    matches!(align, 1 | 2 | 4 | 8)
}

// How many bytes lie between a value and the next multiple of an alignment.
pub fn padding_for_n_bytes(value: usize, align: usize) -> Result<usize, Refusal>
    ensures { checked result ≡ padding_for value align }
{
    if !is_alignment(align) {
        return Err(Refusal::NoValue);
    }
    let last = value.wrapping_add(align).wrapping_sub(1);
    let rounded_up = last & !align.wrapping_sub(1);
    Ok(rounded_up.wrapping_sub(value))
}
