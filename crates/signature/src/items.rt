// What is repeated in an array or a dictionary: its element, or its entry.
ghost use Rattle.std.specs.Prelude.{◌≡◌};
ghost use Rattle.signature.specs.Items.{held_number, entry_item, element_item, item_in};

use crate::shapes::{Shape, shape_in, unpack};
use crate::{Letter, key_fixed, letter_at};
use meaning::limits::LONGEST_TYPE;

// The element's shape, or the entry's value's; the entry's key and whether that is fixed; the alignment, and whether it is fixed; the
// letter of the number that an element is, or holds in a maybe. It is one struct for both, since what walks over an array or a dictionary keeps it and
// reads child, alignment and fixed of either: two structs in an enum would be opened at each of these reads.
#[derive(Clone, Copy)]
pub struct Item {
    pub entry: bool,
    pub child: Shape,
    pub key: Letter,
    pub keyed: bool,
    pub alignment: usize,
    pub fixed: bool,
    pub number: Letter,
}

// The number that a type is or holds, from its letter and the one behind it; another letter where there is none.
fn held_number(kind: Letter, behind: Letter) -> Letter
    ensures { result ≡ held_number kind behind }
{
    if kind == Letter::Maybe { behind } else { kind }
}

fn entry_item(alignment: usize, key: Letter, value: Shape) -> Item
    ensures { result ≡ entry_item alignment key value }
{
    let keyed = key_fixed(key);
    let fixed = keyed && value.fixed;
    Item {
        entry: true,
        child: value,
        key,
        keyed,
        alignment,
        fixed,
        number: Letter::End,
    }
}

fn element_item(alignment: usize, element: Shape, behind: Letter) -> Item
    ensures { result ≡ element_item alignment element behind }
{
    let kind = element.kind;
    let number = held_number(kind, behind);
    Item {
        entry: false,
        child: element,
        key: Letter::End,
        keyed: false,
        alignment,
        fixed: element.fixed,
        number,
    }
}

// What the array or dictionary of a shape repeats.
pub fn item_of(text: &[u8], shapes: &[u16], array: Shape) -> Item
    ensures { result ≡ item_in text.now shapes.now array }
{
    let at = array.at;
    if LONGEST_TYPE < at {
        return element_item(0, unpack(0, Letter::End, 0), Letter::End);
    }
    let alignment = array.alignment;
    let inner = letter_at(text, at + 1);
    let second = letter_at(text, at + 2);
    if let Letter::OpenEntry = inner {
        let value = shape_in(text, shapes, at + 3);
        return entry_item(alignment, second, value);
    }
    let element = shape_in(text, shapes, at + 1);
    element_item(alignment, element, second)
}
