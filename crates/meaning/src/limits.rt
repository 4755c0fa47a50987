// The limits of document 01, as specs/Limits has them.
pub const LARGEST_FRAME: usize = 65536;

pub const LONGEST_TYPE: usize = 255;

pub const MOST_STRUCTURES: usize = 32;

pub const MOST_ARRAYS: usize = 32;

pub const MOST_CONTAINERS: usize = 64;
