// Dictionaries: entries one behind another, each laid out as a structure of its key and its value.
ghost use Rattle.std.specs.Prelude.{◌≡◌, length};
ghost use Rattle.meaning_writing.specs.Strict.{elements_written};
ghost use Rattle.container_depths.specs.Opening.{depths_of};
ghost use Rattle.strict_ends.specs.Ends.{Standing};
ghost use Rattle.strict_sizes.specs.Items.{item_test, Repeated};
ghost use Rattle.strict_sizes.specs.declared.items.Repeats.TheVariants.{Entries};
ghost use Rattle.strict_cycle.specs.Walks.{Inside};

use crate::child;
use container_depths::ContainerDepths;
use signature::Letter;
use strict_basic::basic::{extent_of, key_written};
use strict_ends::{
    Rows, element_end, field_end, finished, last_end, one_more, rows_behind, start_of,
};
use strict_sizes::items::Item;
use strict_sizes::sizes::extent_in;

// The entries of a dictionary, each behind its padding.
#[cycle(testing)]
pub(crate) fn entries(
    text: &[u8],
    tables: &[u16],
    item: Item,
    key: Letter,
    rows: Rows,
    part: &[u8],
    d: ContainerDepths,
) -> bool
    requires { Repeated text.now tables.now item × (item.repeats ≡ Entries key) × Inside (length part.now) d × Standing part.now item.extent.fixed rows }
    ensures { result ≡ elements_written item.extent.fixed (item_test d.variant text.now item) (depths_of d) part.now rows.width rows.body rows.count rows.from 0 }
{
    let extent = item.extent;
    let mut place = 0;
    for i in 0..rows.count {
        let stop = element_end(part, extent, rows.width, rows.from + i * rows.width, place);
        let Some(at) = start_of(part, rows.body, place, stop, extent.alignment) else {
            return false;
        };
        if !pair(text, tables, item, key, &part[at..stop], d) {
            return false;
        }
        place = stop;
    }
    place == rows.body
}

// A dictionary's entry: a key and a value, laid out as a structure.
#[cycle(testing)]
pub(crate) fn pair(
    text: &[u8],
    tables: &[u16],
    item: Item,
    key: Letter,
    part: &[u8],
    d: ContainerDepths,
) -> bool
    requires { Repeated text.now tables.now item × (item.repeats ≡ Entries key) × Inside (length part.now) d }
    ensures { result ≡ (item_test d.variant text.now item).accepts (depths_of d) part.now }
{
    let lies = extent_of(key);
    let len = part.len();
    let Some(rows) = rows_behind(len, one_more(lies.fixed, 0)) else {
        return false;
    };
    let stop = field_end(part, lies, rows.width, len, 0);
    if !key_written(key, part, rows.body, stop) {
        return false;
    }
    let whole = item.extent;
    let extent = extent_in(tables, item.child);
    let end = last_end(extent, rows.body, stop);
    let Some(from) = start_of(part, rows.body, stop, end, extent.alignment) else {
        return false;
    };
    child(text, tables, item.child, &part[from..end], d)
        && finished(part, whole.fixed, whole.alignment, end, rows.body)
}
