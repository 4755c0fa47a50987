// Bytes put into a lent slice from a place on, as far as it has room. A slice of no length takes none, so that what writes into it
// only measures.
ghost use Rattle.std.specs.Prelude.{◌≡◌, ◌++◌, reverse, ◌+◌, ◌-◌, ◌<◌, ◌^◌, min};
ghost use Rattle.meaning.specs.Numbers.{bytes, ordered};
ghost use Rattle.meaning.specs.Padding.{zeros};
ghost use Rattle.editor_basic.specs.Puts.{over};

// How many of so many bytes have room from a place on.
fn room(len: usize, at: usize, count: usize) -> usize
    ensures { result ≡ min count (len - at) }
{
    count.min(len.saturating_sub(at))
}

// So many zeros.
pub fn put_zeros(out: &mut [u8], at: usize, count: usize)
    ensures { out.new ≡ over out.old at (zeros count) }
{
    let most = room(out.len(), at, count);
    if at < out.len() {
        out[at..at + most].fill(0);
    }
}

// The bytes of a part, byte by byte: the library's copy of a length that is not known calls a function from outside the archive.
pub fn put_part(out: &mut [u8], at: usize, part: &[u8])
    ensures { out.new ≡ over out.old at part.now }
{
    let most = room(out.len(), at, part.len());
    for i in 0..most {
        out[at + i] = part[i];
    }
}

// Padding, and then a part. What only measures asks for no room twice.
pub fn move_part(out: &mut [u8], at: usize, padding: usize, part: &[u8])
    requires { at + padding < 2 ^ 32 }
    ensures { out.new ≡ over out.old at (zeros padding ++ part.now) }
{
    if out.len() <= at {
        return;
    }
    put_zeros(out, at, padding);
    put_part(out, at + padding, part);
}

// A number of so many bytes, the lowest first. It keeps a frame of its own: few offsets have four bytes or more, and the loops over offsets stay
// short.
#[inline(never)]
fn put_each(out: &mut [u8], at: usize, width: usize, number: usize)
    ensures { out.new ≡ over out.old at (bytes width number) }
{
    let most = room(out.len(), at, width);
    let mut rest = number;
    for i in 0..most {
        out[at + i] = (rest % 256) as u8;
        rest /= 256;
    }
}

// A number of two bytes, the lowest first.
fn put_two(out: &mut [u8], at: usize, number: usize)
    ensures { out.new ≡ over out.old at (bytes 2 number) }
{
    if out.len() <= at {
        return;
    }
    out[at] = (number % 256) as u8;
    if at + 1 < out.len() {
        out[at + 1] = (number / 256 % 256) as u8;
    }
}

// The same, of an offset or of a reading's number: one byte or two, as most offsets have, are put without a loop.
pub(crate) fn put_low_first(out: &mut [u8], at: usize, width: usize, number: usize)
    ensures { out.new ≡ over out.old at (bytes width number) }
{
    if width == 2 {
        put_two(out, at, number);
        return;
    }
    if width != 1 {
        put_each(out, at, width, number);
        return;
    }
    if at < out.len() {
        out[at] = (number % 256) as u8;
    }
}

// The same, the highest first.
fn put_high_first(out: &mut [u8], at: usize, width: usize, number: usize)
    requires { at + width < 2 ^ 32 }
    ensures { out.new ≡ over out.old at (reverse (bytes width number)) }
{
    let mut rest = number;
    for i in (0..width).rev() {
        if at + i < out.len() {
            out[at + i] = (rest % 256) as u8;
        }
        rest /= 256;
    }
}

// A number of a width in a byte order.
pub fn put_number(out: &mut [u8], at: usize, big: bool, width: usize, number: usize)
    requires { at + width < 2 ^ 32 }
    ensures { out.new ≡ over out.old at (ordered big (bytes width number)) }
{
    if big {
        put_high_first(out, at, width, number);
        return;
    }
    put_low_first(out, at, width, number);
}
