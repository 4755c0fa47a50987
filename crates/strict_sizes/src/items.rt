// What an array or a dictionary repeats, as the walk needs it.
ghost use Rattle.std.specs.Prelude.{◌≡◌, ◌≤◌};
ghost use Rattle.signature.specs.Places.{letter_at};
ghost use Rattle.strict_ends.specs.Ends.{Laid};
ghost use Rattle.strict_basic.specs.Basics.{letter_extent};
ghost use Rattle.meaning.specs.Padding.{Aligns};
ghost use Rattle.strict_sizes.specs.Items.{Placed, entry_size, repeats_of, ItemAt};

use crate::sizes::{any_in, extent_in};
use signature::Letter;
use signature::items::item_of;
use signature::shapes::Shape;
use strict_basic::basic::extent_of;
use strict_ends::{Extent, aligned, fixed_end};

// What is repeated: the entries of a dictionary, by their key; or elements for which any bytes of their size will do, texts, readings of
// a number of a width, or others.
#[derive(Clone, Copy)]
pub enum Repeats {
    Entries { key: Letter },
    AnyBytes,
    Texts,
    Readings { width: usize },
    Others,
}

// The element's shape, or the entry's value's; how it lies among others; and what it is.
#[derive(Clone, Copy)]
pub struct Item {
    pub child: Shape,
    pub extent: Extent,
    pub repeats: Repeats,
}

// What elements are, by their letter, whether any bytes will do, whether they are fixed, and the letter of the number that they are or hold.
fn repeats_of(kind: Letter, any: bool, fixed: bool, number: Letter) -> Repeats
    ensures { result ≡ repeats_of kind any fixed number }
{
    match (kind, number) {
        _ if any => Repeats::AnyBytes,
        (Letter::Text { .. }, _) => Repeats::Texts,
        (_, Letter::Number { width, .. }) if !fixed => Repeats::Readings { width },
        _ => Repeats::Others,
    }
}

// The size of an entry that is fixed: its key, its value, and the padding behind.
fn entry_size(key: Letter, value: Extent, alignment: usize) -> usize
    requires { Laid (letter_extent key) × ((letter_extent key).size ≤ 8) × Laid value × (value.size ≤ 10000) × Aligns alignment }
    ensures { result ≡ entry_size key value alignment }
{
    let first = fixed_end(extent_of(key), 0);
    let second = fixed_end(value, first);
    aligned(second, alignment)
}

// What the array or dictionary of a shape repeats.
pub fn repeated(text: &[u8], tables: &[u16], array: Shape) -> Item
    requires { Placed text.now tables.now array × (letter_at text.now array.at ≡ Letter.Array) }
    ensures { ItemAt text.now tables.now array.at result }
{
    let found = item_of(text, tables, array);
    let child = found.child;
    let lies = extent_in(tables, child);
    if found.entry {
        let extent = Extent {
            alignment: found.alignment,
            fixed: found.fixed,
            size: entry_size(found.key, lies, found.alignment),
        };
        let repeats = Repeats::Entries { key: found.key };
        return Item {
            child,
            extent,
            repeats,
        };
    }
    let any = any_in(tables, child);
    let repeats = repeats_of(child.kind, any, found.fixed, found.number);
    Item {
        child,
        extent: lies,
        repeats,
    }
}
