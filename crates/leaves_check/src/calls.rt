// A call of each leaf by its name.
use crate::print;
use crate::words::{bytes, number};
use container_depths::ContainerDepths;
use framing_offset_size::FramingOffsetSize;
use framing_offsets::OffsetTable;
use lines::word;
use meaning::refusals::Refusal;
use std::io;
use utils::padding_for_n_bytes;

fn size_of(width: usize) -> FramingOffsetSize {
    match width {
        1 => FramingOffsetSize::U8,
        2 => FramingOffsetSize::U16,
        4 => FramingOffsetSize::U32,
        _ => FramingOffsetSize::U64,
    }
}

// The width of a number's letter: y, n q, i u, and the others.
fn size_of_letter(letter: &[u8]) -> FramingOffsetSize {
    match letter {
        b"y" => FramingOffsetSize::U8,
        b"n" | b"q" => FramingOffsetSize::U16,
        b"i" | b"u" => FramingOffsetSize::U32,
        _ => FramingOffsetSize::U64,
    }
}

fn counter(line: &[u8], n: usize) -> u8 {
    u8::try_from(number(line, n)).unwrap_or(255)
}

fn depths(line: &[u8]) -> ContainerDepths {
    ContainerDepths {
        structure: counter(line, 1),
        array: counter(line, 2),
        variant: counter(line, 3),
        maybe: counter(line, 4),
    }
}

fn print_depths(out: &impl Print, refusal: u8, depths: ContainerDepths) -> io::Result<()> {
    println!(out;
        "{refusal} {} {} {} {}",
        depths.structure, depths.array, depths.variant, depths.maybe
    )
}

// The depths that are raised, or those before where the call is refused.
fn print_raised(
    out: &impl Print,
    before: ContainerDepths,
    raised: Result<ContainerDepths, Refusal>,
) -> io::Result<()> {
    match raised {
        Ok(after) => print_depths(out, 0, after),
        Err(refusal) => print_depths(out, refusal.number(), before),
    }
}

// No width fits where the offsets are over the limit of the widest.
fn print_fitting(out: &impl Print, fitting: Option<FramingOffsetSize>) -> io::Result<()> {
    print::answer(
        out,
        fitting
            .map(FramingOffsetSize::width)
            .ok_or(Refusal::OverLimit),
    )
}

fn write_offset(out: &impl Print, line: &[u8]) -> io::Result<()> {
    let mut space = [0u8; 1024];
    let n = bytes(line, 3, &mut space);
    let size = size_of(number(line, 1));
    let refusal = match size.write_offset(&mut space[..n], number(line, 2)) {
        Ok(()) => 0,
        Err(refusal) => refusal.number(),
    };
    print!(out; "{refusal} ")?;
    print::bytes(out, &space[..n])?;
    out.print("\n")
}

fn print_offsets(out: &impl Print, container: &[u8], offsets: OffsetTable) -> io::Result<()> {
    for i in 0..offsets.count {
        let offset = if i == 0 {
            framing_offsets::first(container, offsets)
        } else {
            framing_offsets::next(container, offsets, i)
        };
        print!(out; " {}", offset.unwrap_or(0))?;
    }
    Ok(())
}

fn print_table(out: &impl Print, container: &[u8]) -> io::Result<()> {
    match framing_offsets::from_encoded_array(container) {
        Ok(offsets) => {
            let count = framing_offsets::count(container, offsets.start, offsets.size);
            print!(out; "0 {} {count} {}", offsets.start, offsets.size.width())?;
            print_offsets(out, container, offsets)?;
            out.print("\n")
        }
        Err(refusal) => println!(out; "{} 0 0 0", refusal.number()),
    }
}

fn print_text(out: &impl Print, part: &[u8]) -> io::Result<()> {
    let text = texts::text(part);
    print::answer(out, texts::check(text).map(|()| text.len()))
}

fn print_bool(out: &impl Print, part: &[u8]) -> io::Result<()> {
    print::answer(out, de::read_bool(part, 0).map(usize::from))
}

fn print_padding(out: &impl Print, line: &[u8], part: &[u8]) -> io::Result<()> {
    let place = number(line, 2);
    match de::parse_padding(number(line, 1), place, number(line, 3), part) {
        Ok(padding) => println!(out; "0 {padding} {}", place.wrapping_add(padding)),
        Err(refusal) => println!(out; "{} 0 0", refusal.number()),
    }
}

fn print_slice(out: &impl Print, line: &[u8], part: &[u8]) -> io::Result<()> {
    let place = number(line, 1);
    let len = number(line, 2);
    let (refusal, next) = match de::next_place(part, place, len) {
        Ok(next) => (0, next),
        Err(refusal) => (refusal.number(), 0),
    };
    print!(out; "{refusal} ")?;
    print::bytes(out, de::next_slice(part, place, len))?;
    println!(out; " {next}")
}

fn print_number(out: &impl Print, line: &[u8], part: &[u8]) -> io::Result<()> {
    let size = size_of_letter(word(line, 1));
    let big = matches!(word(line, 2), b"b");
    print::answer(out, de::read_number(part, 0, size, big))
}

fn print_last_offset(out: &impl Print, line: &[u8], part: &[u8]) -> io::Result<()> {
    let size = size_of(number(line, 1));
    print::answer(out, size.read_last_offset_from_buffer(part))
}

// The answer of a leaf that reads the bytes of a word.
fn read<F: FnOnce(&[u8]) -> io::Result<()>>(line: &[u8], at: usize, print: F) -> io::Result<()>
    requires { F.IsAlwaysCallable print }
{
    let mut space = [0u8; 1024];
    let n = bytes(line, at, &mut space);
    print(&space[..n])
}

// The answer of a leaf that counts containers. A name of no leaf has none.
fn count(out: &impl Print, name: &[u8], line: &[u8]) -> io::Result<()> {
    match name {
        b"inc_structure" => {
            let before = depths(line);
            print_raised(out, before, before.inc_structure())
        }
        b"inc_array" => {
            let before = depths(line);
            print_raised(out, before, before.inc_array())
        }
        b"inc_variant" => {
            let before = depths(line);
            print_raised(out, before, before.inc_variant())
        }
        b"inc_maybe" => {
            let before = depths(line);
            print_raised(out, before, before.inc_maybe())
        }
        b"dec_structure" => print_depths(out, 0, depths(line).dec_structure()),
        b"dec_array" => print_depths(out, 0, depths(line).dec_array()),
        b"dec_maybe" => print_depths(out, 0, depths(line).dec_maybe()),
        _ => Ok(()),
    }
}

// The answer of a leaf that reads numbers alone, or writes an offset.
fn compute(out: &impl Print, name: &[u8], line: &[u8]) -> io::Result<()> {
    match name {
        b"for_bare_container" => {
            print_fitting(
                out,
                FramingOffsetSize::for_bare_container(number(line, 1), number(line, 2)),
            )
        }
        b"for_encoded_container" => print::answer(
            out,
            Ok(FramingOffsetSize::for_encoded_container(number(line, 1)).width()),
        ),
        b"max" => print::answer(out, Ok(size_of(number(line, 1)).max())),
        b"bump_up" => print_fitting(out, size_of(number(line, 1)).bump_up()),
        b"padding_for_n_bytes" => print::answer(
            out,
            padding_for_n_bytes(number(line, 1), number(line, 2)),
        ),
        b"write_offset" => write_offset(out, line),
        _ => count(out, name, line),
    }
}

pub fn answer(out: &impl Print, line: &[u8]) -> io::Result<()> {
    match word(line, 0) {
        b"from_encoded_array" => read(line, 1, |part| print_table(out, part)),
        b"text" => read(line, 1, |part| print_text(out, part)),
        b"bool" => read(line, 1, |part| print_bool(out, part)),
        b"read_last_offset_from_buffer" => {
            read(line, 2, |part| print_last_offset(out, line, part))
        }
        b"next_slice" => read(line, 3, |part| print_slice(out, line, part)),
        b"number" => read(line, 3, |part| print_number(out, line, part)),
        b"parse_padding" => read(line, 4, |part| print_padding(out, line, part)),
        name => compute(out, name, line),
    }
}
