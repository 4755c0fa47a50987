// The letters that are kinds of events and do not come from a type text, as specs/Letters has them.
pub const BOOL_LETTER: u64 = 98;

pub const SIGNATURE_LETTER: u64 = 103;

pub const VARIANT_LETTER: u64 = 118;

pub const MAYBE_LETTER: u64 = 109;

pub const NOTHING_LETTER: u64 = 78;

pub const ARRAY_LETTER: u64 = 97;

pub const DICTIONARY_LETTER: u64 = 123;

pub const STRUCTURE_LETTER: u64 = 40;

pub const CONTAINER_END: u64 = 41;
