// Events: three numbers for each in a lent slice, where there is room; and the text of one.
#![tactic(auto)]

ghost use Rattle.std.specs.Prelude.{◌≡◌};
ghost use Rattle.meaning.specs.Events.{event};
ghost use Rattle.meaning.specs.Parts.{part_at};
ghost use Rattle.events.specs.Slices.{next_event, put};

use de::next_slice;

// Writes event n where the slice has room for it, and gives the number of the next event.
// (Three writes: an array of the three numbers, copied into a part of the slice, would say it no plainer.)
#[tactic(auto, unfolding(crate::specs::Slices::next_event, crate::specs::Slices::put))]
pub fn emit(out: &mut [u64], n: usize, kind: u64, place: usize, payload: u64) -> usize
    ensures counted { result ≡ next_event n }
    ensures written { out.new ≡ put out.old n (event kind place payload) }
{
    if n < out.len() / 3 {
        out[3 * n] = kind;
        out[3 * n + 1] = place as u64;
        out[3 * n + 2] = payload;
        return n + 1;
    }
    n.saturating_add(1)
}

// The text of an event, from its place and payload: a part of the caller's frame, empty where the frame has no such part.
pub fn event_text(frame: &[u8], place: usize, length: usize) -> &[u8]
    ensures { result.now ≡ part_at frame.now place length }
{
    next_slice(frame, place, length)
}
