// Arrays of texts. A text holds nothing further, so that the array is one loop of its own.
ghost use Rattle.std.specs.Prelude.{Bool, false, length};
ghost use Rattle.meaning.specs.Depths.{Depths};
ghost use Rattle.writer_basic.specs.Wrote.{run_in, IsKey, RowAt, marks_of, key_of, many_of, Placed};

use crate::basic::text_value;
use crate::{Row, Spot};
use meaning::letters::CONTAINER_END;
use meaning::refusals::Refusal;
use signature::Letter;
use writer_ends::keep;
use writer_store::add;

// Texts one behind another, up to an event that closes. None is padded.
pub fn texts(
    code: u8,
    events: &[u64],
    texts: &[u8],
    spot: Spot,
    out: &mut [u8],
    ends: &mut [u16],
) -> Result<Row, Refusal>
    requires { IsKey (Letter.Text code) × Placed (length events.now) spot }
    ensures { (big : Bool) (d : Depths) → RowAt (marks_of false) (many_of (key_of texts.now big (Letter.Text code) d)) events.now spot out.old out.new ends.old ends.new (run_in result) }
{
    let mut row = Row {
        next: spot.next,
        size: 0,
        count: 0,
    };
    while 3 <= events.len() - row.next {
        if events[row.next] == CONTAINER_END {
            return Ok(row);
        }
        let one = text_value(events, texts, row.next, code, out, spot.start + row.size)?;
        row.size = add(row.size, one.size);
        row.next = one.next;
        row.count = keep(out, ends, spot.top, row.count, row.size, false);
    }
    Err(Refusal::NoValue)
}
