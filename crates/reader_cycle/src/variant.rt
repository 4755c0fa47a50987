// Variants. Ports ValueDeserializer of gvariant/de.rs.
ghost use Rattle.std.specs.Prelude.{◌≤◌, length};
ghost use Rattle.reader_basic.specs.Answers.{From, counts_of};
ghost use Rattle.reader_basic.specs.Parts.{Inside};
ghost use Rattle.reader_steps.specs.Places.{inside_of, variant_tree};
ghost use Rattle.reader_steps.specs.Rides.{context_of};

use crate::value;
use meaning::limits::LONGEST_TYPE;
use meaning::refusals::Refusal;
use reader_basic::basic::separator;
use reader_basic::{Reading, or_stop, refused};
use reader_steps::opening::in_variant;
use reader_steps::variant::{basic_variant, close_variant, only_basic, type_text};
use signature_table::shapes_of;

// A variant: its type stands at its end, behind a nul.
#[cycle(reading)]
pub(crate) fn variant(
    part: &[u8],
    lead: usize,
    place: usize,
    ride: usize,
    out: &mut [u64],
    n: usize,
) -> Reading
    requires { Inside (length part.now) place (context_of ride) × (lead ≤ length part.now) }
    ensures { From (inside_of (context_of ride) variant_tree place part.now lead) part.now lead n out.old out.new (counts_of result) }
{
    let Some(s) = separator(&part[lead..]) else {
        return refused(Refusal::NoSeparator, 0, n);
    };
    let from = lead + s;
    let text = &part[from..];
    if let Some(kind) = only_basic(text) {
        return basic_variant(kind, part, lead, from, place, ride, out, n);
    }
    let head = type_text(text, place + lead, place + from, out, n)?;
    let g = head.count;
    let mut shapes = [0u16; LONGEST_TYPE];
    if !shapes_of(text, &mut shapes) {
        return refused(Refusal::VariantTypeRefused, 0, g);
    }
    let deeper = or_stop(in_variant(ride), 0, g)?;
    let e = from - 1;
    let r = value(text, &shapes, 0, part, lead, e, place, deeper, out, g);
    close_variant(r, part, lead, place, out)
}
