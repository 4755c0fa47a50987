// What the walk is asked to put, and what it answers.

// The byte order, and what the reading becomes: nothing, or a number as its bits.
#[derive(Clone, Copy)]
pub struct Aim {
    pub big: bool,
    pub new: Option<usize>,
}

// What is found of the reading in some bytes: it is not among their readings, of which they have so many; or it is put, stands so in the
// frame, and so long are the bytes now.
#[derive(Clone, Copy)]
pub enum Walk {
    Counted(usize),
    Edited { place: usize, length: usize },
}
