// The table of a type text. Its front half has the shapes; the other half has for each place, of a type that is fixed, its size, and whether
// any bytes of that size will do; of a structure that is not fixed, how many offsets it has. It is filled from the text's back to its
// front, since a structure's fields stand behind it; each is looked at once by its structure, so the whole costs the length of the text.
ghost use Rattle.std.specs.Prelude.{◌≡◌, true, ◌+◌, ◌≤◌, ◌<◌, length, get_or};
ghost use Rattle.meaning.specs.Limits.{longest_type};
ghost use Rattle.meaning.specs.Types.{all_fixed, largest_alignment, fixed_size, structure};
ghost use Rattle.signature.specs.Places.{letter_at};
ghost use Rattle.signature.specs.Trees.{tree_at, Typed, fields_at, Rowed};
ghost use Rattle.strict_sizes.specs.Sizes.{table_length, size_and_any, any_bytes, offsets_in, measure_of, Behind, Tabling, extent_in, any_in, offsets_by};

use meaning::limits::LONGEST_TYPE;
use signature::shapes::{Shape, shape_in};
use signature::{Letter, closes_at, letter_at};
use signature_table::shapes_of;
use strict_ends::{Extent, aligned, one_more};

// Two numbers for each character of the longest type.
pub const TABLE: usize = 510;

fn measure_at(tables: &[u16], at: usize) -> usize
    requires { (length tables.now ≡ table_length) × (at < longest_type) }
    ensures { result ≡ get_or tables.now (longest_type + at) 0 }
{
    usize::from(tables[LONGEST_TYPE + at])
}

// A size, and whether any bytes will do, in one number: the table is the caller's fixed memory, with one place for a type.
fn pack(size: usize, any: bool) -> usize
    requires { size ≤ 10000 }
    ensures { result ≡ size_and_any size any }
{
    2 * size + usize::from(any)
}

// The fields of a structure that is fixed, from its first on: its size, and whether any bytes will do. Each field says where the next
// stands, so a loop goes over them, and no range.
fn fixed_measure(text: &[u8], tables: &[u16], at: usize, alignment: usize) -> usize
    requires { Rowed text.now at × Behind text.now at tables.now × (all_fixed (fields_at text.now at) ≡ true) × (alignment ≡ largest_alignment (fields_at text.now at)) }
    ensures { result ≡ size_and_any (fixed_size (structure (fields_at text.now at))) (any_bytes (structure (fields_at text.now at))) }
{
    let mut i = at;
    let mut end = 0;
    let mut any = true;
    loop {
        let field = shape_in(text, tables, i);
        let measure = measure_at(tables, i);
        let start = aligned(end, field.alignment);
        any &= (start == end) & (measure % 2 == 1);
        end = start + measure / 2;
        if closes_at(text, field.next) {
            let size = aligned(end, alignment);
            return pack(size, any & (size == end));
        }
        i = field.next;
    }
}

// How many offsets the fields from a place on have. Each says where the next stands, so a loop goes over them, and no range.
fn offsets_of(text: &[u8], tables: &[u16], at: usize) -> usize
    requires { Rowed text.now at × Behind text.now at tables.now }
    ensures { (result ≡ offsets_in (fields_at text.now at)) × (result ≤ longest_type) }
{
    let mut i = at;
    let mut count = 0;
    loop {
        let field = shape_in(text, tables, i);
        if closes_at(text, field.next) {
            return count;
        }
        count = one_more(field.fixed, count);
        i = field.next;
    }
}

fn structure_measure(text: &[u8], tables: &[u16], at: usize) -> usize
    requires { Behind text.now (at + 1) tables.now × (at < length text.now) × (letter_at text.now at ≡ Letter.OpenStructure) }
    ensures { ((Typed text.now at → result ≡ measure_of (tree_at text.now at))) × (result ≤ 10000) }
{
    let shape = shape_in(text, tables, at);
    if shape.next == 0 {
        0
    } else if shape.fixed {
        fixed_measure(text, tables, at + 1, shape.alignment)
    } else {
        offsets_of(text, tables, at + 1)
    }
}

// What the table has of the type at a place, from what it has behind it.
fn measure(text: &[u8], tables: &[u16], at: usize) -> usize
    requires { Behind text.now (at + 1) tables.now × (at < length text.now) }
    ensures { ((Typed text.now at → result ≡ measure_of (tree_at text.now at))) × (result ≤ 10000) }
{
    let kind = letter_at(text, at);
    match kind {
        Letter::Boolean => pack(1, false),
        Letter::Number { code: _, width } => pack(width, true),
        Letter::OpenStructure => structure_measure(text, tables, at),
        _ => 0,
    }
}

// Is a text one complete type? Its table is filled then.
pub fn tables_of(text: &[u8], tables: &mut [u16]) -> bool
    requires { length tables.old ≡ table_length }
    ensures { Tabling text.now tables.new result }
{
    if !shapes_of(text, tables) {
        return false;
    }
    for i in (0..text.len()).rev() {
        tables[LONGEST_TYPE + i] = measure(text, tables, i) as u16;
    }
    true
}

// How a type lies among others, by its shape and the table.
pub fn extent_in(tables: &[u16], shape: Shape) -> Extent
    requires { (length tables.now ≡ table_length) × (shape.at < longest_type) }
    ensures { result ≡ extent_in tables.now shape }
{
    Extent {
        alignment: shape.alignment,
        fixed: shape.fixed,
        size: measure_at(tables, shape.at) / 2,
    }
}

// Whether any bytes of its size will do.
pub(crate) fn any_in(tables: &[u16], shape: Shape) -> bool
    requires { (length tables.now ≡ table_length) × (shape.at < longest_type) }
    ensures { result ≡ any_in tables.now shape }
{
    shape.fixed && measure_at(tables, shape.at) % 2 == 1
}

// How many offsets a structure has.
pub fn offsets_in(tables: &[u16], shape: Shape) -> usize
    requires { (length tables.now ≡ table_length) × (shape.at < longest_type) }
    ensures { result ≡ offsets_by tables.now shape }
{
    if shape.fixed {
        0
    } else {
        measure_at(tables, shape.at)
    }
}
