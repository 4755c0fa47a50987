// What the writers store: bytes, padding, numbers and texts, each where there is room for it; over an output of no length they store
// nothing. And sums of lengths.
#![tactic(auto)]

ghost use Rattle.std.specs.Prelude.{◌≡◌, ◌+◌, ◌≤◌, ◌<◌, ◌^◌, ◌%◌, ◌↔◌, true, [], ◌∷◌, ◌++◌, length, set, take, drop, IsTrue};
ghost use Rattle.meaning.specs.Numbers.{bytes, ordered};
ghost use Rattle.meaning.specs.Padding.{Aligns, padding, zeros};
ghost use Rattle.writer_store.specs.Stores.{sum, puts};

// Where sums of lengths stay.
const CAP: usize = 0x10_0000;

// A sum that stays at the cap.
pub fn add(a: usize, b: usize) -> usize
    requires { (a < 2 ^ 32) × (b < 2 ^ 63) }
    ensures { result ≡ sum a b }
{
    (a + b).min(CAP)
}

// Stores a byte where there is room for it.
pub fn put(out: &mut [u8], at: usize, byte: u8)
    ensures { out.new ≡ set out.old at byte }
{
    if at < out.len() {
        out[at] = byte;
    }
}

// Zeros from a place on.
fn clear(out: &mut [u8], at: usize, count: usize)
    requires { at + count < 2 ^ 32 }
    ensures { out.new ≡ puts out.old at (zeros count) }
{
    for i in 0..count {
        put(out, at + i, 0);
    }
}

// Bytes from a place to the next that an alignment divides; by each alignment, since dividing by one that is not known takes much longer.
fn gap(place: usize, alignment: usize) -> usize
    requires { Aligns alignment }
    ensures { (result ≡ padding place alignment) × (result < 8) }
{
    match alignment {
        1 => 0,
        2 => place % 2,
        4 => (4 - place % 4) % 4,
        _ => (8 - place % 8) % 8,
    }
}

// Padding, stored and counted.
pub fn pad(out: &mut [u8], at: usize, place: usize, alignment: usize) -> usize
    requires { (at < 2 ^ 31) × Aligns alignment }
    ensures count { (result ≡ padding place alignment) × (result < 8) }
    ensures bytes { out.new ≡ puts out.old at (zeros (padding place alignment)) }
{
    let count = gap(place, alignment);
    clear(out, at, count);
    count
}

pub fn low(x: u64) -> u8
    ensures { result ≡ x % 256 }
{
    (x % 256) as u8
}

// A number as so many bytes, the lowest first. Two, as most offsets have, are stored at once.
pub fn digits(out: &mut [u8], at: usize, width: usize, x: u64)
    requires { at + width < 2 ^ 32 }
    ensures { out.new ≡ puts out.old at (bytes width x) }
{
    if width == 2 && at + 1 < out.len() {
        out[at] = low(x);
        out[at + 1] = low(x / 256);
        return;
    }
    let mut y = x;
    for i in 0..width {
        put(out, at + i, low(y));
        y /= 256;
    }
}

// The same, the highest first.
fn turned(out: &mut [u8], at: usize, width: usize, x: u64)
    requires { at + width < 2 ^ 32 }
    ensures { out.new ≡ puts out.old at (ordered true (bytes width x)) }
{
    let mut y = x;
    for i in (0..width).rev() {
        put(out, at + i, low(y));
        y /= 256;
    }
}

// A number in a byte order.
pub fn number_bytes(out: &mut [u8], at: usize, width: usize, x: u64, big: bool)
    requires { at + width < 2 ^ 32 }
    ensures { out.new ≡ puts out.old at (ordered big (bytes width x)) }
{
    if out.len() <= at {
        return;
    }
    if big {
        turned(out, at, width, x);
    } else {
        digits(out, at, width, x);
    }
}

// So many bytes of a part from i on, at once: all are taken before one is stored.
fn copy_block<const N: usize>(out: &mut [u8], at: usize, part: &[u8], i: usize)
    requires { (at + N ≤ length out.old) × (i + N ≤ length part.now) }
    ensures { out.new ≡ puts out.old at (take N (drop i part.now)) }
{
    let mut block = [0u8; N];
    block.copy_from_slice(&part[i..i + N]);
    out[at..at + N].copy_from_slice(&block);
}

// All of a part, for which there is room, by its first N bytes and its last N, which may overlap.
fn copy_ends<const N: usize>(out: &mut [u8], at: usize, part: &[u8])
    requires { (at + length part.now ≤ length out.old) × (N ≤ length part.now) × (length part.now ≤ N + N) }
    ensures { out.new ≡ puts out.old at part.now }
{
    let last = part.len() - N;
    copy_block::<N>(out, at, part, 0);
    copy_block::<N>(out, at + last, part, last);
}

// All of a part, for which there is room, byte by byte. The library's copy of a length that is not known calls a function from outside the archive.
fn copy_long(out: &mut [u8], at: usize, part: &[u8])
    requires { at + length part.now ≤ length out.old }
    ensures { out.new ≡ puts out.old at part.now }
{
    for i in 0..part.len() {
        out[at + i] = part[i];
    }
}

// All of a part, for which there is room. A short one by blocks of a length that is known, which are moved with no call. Never inlined, so that what
// calls it for each text stays short.
#[inline(never)]
pub fn copy_all(out: &mut [u8], at: usize, part: &[u8])
    requires { at + length part.now ≤ length out.old }
    ensures { out.new ≡ puts out.old at part.now }
{
    if 16 < part.len() {
        copy_long(out, at, part);
    } else if 8 <= part.len() {
        copy_ends::<8>(out, at, part);
    } else if 4 <= part.len() {
        copy_ends::<4>(out, at, part);
    } else if 2 <= part.len() {
        copy_ends::<2>(out, at, part);
    } else if 0 < part.len() {
        out[at] = part[0];
    }
}

// Whether there is room for so many bytes and one more from a place on.
fn has_room(out: &[u8], at: usize, count: usize) -> bool
    ensures { IsTrue result ↔ (at + count < length out.now) }
{
    at < out.len() && count < out.len() - at
}

// A text and a nul behind it, where there is room for both.
pub fn put_text(out: &mut [u8], at: usize, part: &[u8])
    ensures { at + length part.now < length out.old → out.new ≡ puts out.old at (part.now ++ (0 ∷ [])) }
{
    if !has_room(out, at, part.len()) {
        return;
    }
    let end = at + part.len();
    copy_all(out, at, part);
    out[end] = 0;
}

// A nul and the text of a type behind it, where there is room for both.
pub fn put_type(out: &mut [u8], at: usize, part: &[u8])
    ensures { at + length part.now < length out.old → out.new ≡ puts out.old at (0 ∷ part.now) }
{
    if !has_room(out, at, part.len()) {
        return;
    }
    out[at] = 0;
    copy_all(out, at + 1, part);
}
